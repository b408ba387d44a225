ghost use Rattle.std.specs.Prelude.{◌≡◌, ◌+◌, ◌++◌, ◌∷◌, [], Some, OnOk, IfOk, count_by};
ghost use Rattle.replay_counts.specs.Tallies.{asked_first, is_in, is_unsent_name, no_tally, noted, noted_all, unsent_of, with_name};
ghost use Rattle.world_model.specs.Generated.{is_plain_read};

use etcd_types::{List, NoMemory, Request};
use script_text::Item;
use snapshot_reads::is_plain;
use std::alloc::Global;
use std::collections::BTreeSet;

/// What is counted of items, with the proxies and tickets that tell which replies are those of reads that were never sent.
#[derive(Drop)]
pub struct Tally {
    pub asked: u64,
    /// In the order of the replies.
    pub replies: List<(u64, u64)>,
    pub asks: BTreeSet<(u64, u64)>,
    /// Those of the asks that are plain reads.
    pub reads: BTreeSet<(u64, u64)>,
    /// Those that calls name.
    pub sent: BTreeSet<(u64, u64)>,
}

impl Tally {
    pub fn new(alloc: Global) -> Tally
        ensures { result ≡ no_tally }
    {
        Tally {
            asked: 0,
            replies: List::new(alloc),
            asks: BTreeSet::new(alloc),
            reads: BTreeSet::new(alloc),
            sent: BTreeSet::new(alloc),
        }
    }

    pub fn note_all(&mut self, items: &[Item]) -> Result<(), NoMemory>
        ensures { OnOk result (self.new ≡ noted_all self.old items.now) }
    {
        for item in items {
            self.note(item)?;
        }
        Ok(())
    }

    fn note(&mut self, item: &Item) -> Result<(), NoMemory>
        ensures { OnOk result (self.new ≡ noted self.old item.now) }
    {
        match item {
            Item::Asked {
                proxy,
                ticket,
                request,
            } => Ok(self.note_asked(*proxy, *ticket, request)?),
            Item::Reply { proxy, ticket, .. } => Ok(self.replies.push((*proxy, *ticket))?),
            Item::Sent { proxy, ticket, .. } => Ok(self.note_sent(*proxy, *ticket)?),
            _ => Ok(()),
        }
    }

    fn note_sent(&mut self, proxy: u64, ticket: u64) -> Result<(), NoMemory>
        ensures { OnOk result (self.new ≡ record self.old { sent = with_name self.old.sent (proxy, ticket) }) }
    {
        self.sent.insert((proxy, ticket))?;
        Ok(())
    }

    fn note_asked(&mut self, proxy: u64, ticket: u64, request: &Request) -> Result<(), NoMemory>
        ensures { OnOk result (self.new ≡ asked_first (is_in self.old.asks (proxy, ticket)) (record self.old { asked = self.old.asked + 1 }) (proxy, ticket) request.now) }
    {
        let name = (proxy, ticket);
        self.asked = self.asked.checked_add(1).ok_or(NoMemory)?;
        if self.asks.contains(&name) {
            return Ok(());
        }
        self.asks.insert(name)?;
        if is_plain_read(request) {
            self.reads.insert(name)?;
        }
        Ok(())
    }

    /// How many replies are those of plain reads that no call names.
    pub fn unsent(&self) -> u64
        ensures { result ≡ unsent_of self.now }
    {
        let replies = self.replies.as_slice();
        replies.iter().filter(|name| self.is_unsent(**name)).count() as u64
    }

    fn is_unsent(&self, name: (u64, u64)) -> bool
        ensures { result ≡ is_unsent_name self.now name }
    {
        self.reads.contains(&name) && !self.sent.contains(&name)
    }
}

/// Whether it reads one key as it is now, and shows the whole record.
fn is_plain_read(request: &Request) -> bool
    ensures { result ≡ is_plain_read (Some request.now) }
{
    match request {
        Request::Range(ask) => is_plain(ask),
        _ => false,
    }
}
