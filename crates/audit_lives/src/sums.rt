ghost use Rattle.std.specs.Prelude.{◌≡◌, ◌<◌, ◌^◌, ◌-◌, ◌+◌, ◌++◌, ◌∷◌, ◌&&◌, ℕ, [], not, List as Listed, None, Some, length, if◌then◌else◌, IfOk, OnOk};
ghost use Rattle.std.specs.Option.{option_copied};
ghost use Rattle.audit_lives.specs.Index.{TellsLives};
ghost use Rattle.audit_lives.specs.Keeps.{keeps};
ghost use Rattle.audit_lives.specs.Sums.{TellsSums, unsent_now as is_unsent_now};
ghost use Rattle.audit_lives.specs.SumSteps.{Closes, Opens};
ghost use Rattle.audit_model.specs.Summaries.{asks_watch as is_asking, is_read_of as is_a_read};
ghost use Rattle.first_places.specs.Places.{value_at};
ghost use Rattle.script_text.specs.declared.item.Item.{Item as Told};
ghost use Rattle.world_model.specs.Lives.{asked_as as first_asked, begins, is_named as has_call, life as last_life};

use crate::kept::Kept;
use crate::lives_told::LivesTold;
use crate::pairs::named;
use crate::tickets::is_watch;
use etcd_types::{Answer, NoMemory, Request};
use first_places::{Counts, Values};
use script_text::Item;
use std::alloc::Global;

/// No count is higher than this.
const LAST_COUNT: u64 = 0xffff_ffff_ffff_ffff;

/// What is reported of the items so far.
#[derive(Drop)]
pub(crate) struct Sums {
    /// How many reads were answered with no call of their own.
    pub(crate) unsent: u64,
    /// How many watches were asked.
    pub(crate) watches: u64,
    /// How many of those reads each ticket has, in the life of its proxy.
    pub(crate) reads: Counts,
}

impl Sums {
    /// Of no items. It takes no memory.
    pub(crate) fn new(alloc: Global) -> Sums
        ensures { (start : ℕ → ℕ) → TellsSums result start [] }
    {
        Sums {
            unsent: 0,
            watches: 0,
            reads: Counts::new(alloc),
        }
    }

    /// With the next item, which has this place, behind these.
    pub(crate) fn follow(
        &mut self,
        lives: &LivesTold,
        kept: &[Kept],
        item: &Item,
        place: u64,
    ) -> Result<(), NoMemory>
        ensures { OnOk result ((items : Listed Told) → kept.now ≡ keeps items → place ≡ length items → TellsLives lives.now items → TellsSums self.old (value_at lives.now.starts) items
            → (next : ℕ → ℕ) → ((p : ℕ) → next p ≡ (if begins p item.now then place + 1 else value_at lives.now.starts p))
            → TellsSums self.new next (items ++ item.now ∷ [])) }
    {
        self.take_named(&lives.starts, named(item), place)?;
        let unsent = unsent_now(lives, kept, item);
        self.take_unsent(&lives.starts, unsent, place)?;
        self.watches = counted(self.watches, asks_watch(item))?;
        Ok(())
    }

    /// A call names the ticket, where there is one.
    fn take_named(
        &mut self,
        starts: &Values,
        ticket: Option<(u64, u64)>,
        place: u64,
    ) -> Result<(), NoMemory>
        ensures { OnOk result (Closes ticket (value_at starts.now) place self.old self.new) }
    {
        match ticket {
            Some((proxy, number)) => Ok(self.take_name(starts, proxy, number, place)?),
            None => Ok(()),
        }
    }

    fn take_name(
        &mut self,
        starts: &Values,
        proxy: u64,
        number: u64,
        place: u64,
    ) -> Result<(), NoMemory>
        ensures { OnOk result (Closes (Some (proxy, number)) (value_at starts.now) place self.old self.new) }
    {
        let count = self.reads.clear(starts, proxy, number, place)?;
        self.unsent = self.unsent.saturating_sub(count);
        Ok(())
    }

    /// A read of the ticket, where there is one, is answered with no call.
    fn take_unsent(
        &mut self,
        starts: &Values,
        ticket: Option<(u64, u64)>,
        place: u64,
    ) -> Result<(), NoMemory>
        ensures { OnOk result (Opens ticket (value_at starts.now) place self.old self.new) }
    {
        match ticket {
            Some((proxy, number)) => Ok(self.take_read(starts, proxy, number, place)?),
            None => Ok(()),
        }
    }

    fn take_read(
        &mut self,
        starts: &Values,
        proxy: u64,
        number: u64,
        place: u64,
    ) -> Result<(), NoMemory>
        ensures { OnOk result (Opens (Some (proxy, number)) (value_at starts.now) place self.old self.new) }
    {
        self.reads.raise(starts, proxy, number, place)?;
        self.unsent = counted(self.unsent, true)?;
        Ok(())
    }
}

/// One more where it is one.
fn counted(count: u64, is_one: bool) -> Result<u64, NoMemory>
    ensures { IfOk result (λ next. next ≡ (if is_one then count + 1 else count)) }
{
    if !is_one {
        return Ok(count);
    }
    if count == LAST_COUNT {
        return Err(NoMemory);
    }
    Ok(count + 1)
}

fn asks_watch(item: &Item) -> bool
    ensures { result ≡ is_asking item.now }
{
    match item {
        Item::Asked { request, .. } => is_watch(request),
        _ => false,
    }
}

fn is_read(request: &Request) -> bool
    ensures { result ≡ is_a_read (Some request.now) }
{
    match request {
        Request::Range(_) => true,
        _ => false,
    }
}

fn is_read_of(request: Option<&Request>) -> bool
    ensures { result ≡ is_a_read (option_copied request.entry) }
{
    match request {
        Some(request) => is_read(request),
        None => false,
    }
}

/// Whether a read was asked under the ticket, and no call of its life names it so far.
fn is_unsent(lives: &LivesTold, kept: &[Kept], proxy: u64, ticket: u64) -> bool
    ensures { (items : Listed Told) → kept.now ≡ keeps items → TellsLives lives.now items
        → result ≡ (is_a_read (first_asked proxy ticket (last_life proxy items)) && not (has_call proxy ticket (last_life proxy items))) }
{
    is_read_of(lives.asked_as(proxy, ticket, kept)) && !lives.is_named(proxy, ticket)
}

fn ticket_if(is_one: bool, proxy: u64, ticket: u64) -> Option<(u64, u64)>
    ensures { result ≡ (if is_one then Some (proxy, ticket) else None) }
{
    if is_one { Some((proxy, ticket)) } else { None }
}

/// The ticket of an ok reply to a read that no call of its life names so far.
fn unsent_now(lives: &LivesTold, kept: &[Kept], item: &Item) -> Option<(u64, u64)>
    ensures { (items : Listed Told) → kept.now ≡ keeps items → TellsLives lives.now items → result ≡ is_unsent_now items item.now }
{
    match item {
        Item::Reply {
            proxy,
            ticket,
            answer,
        } => match answer {
            Answer::Done(_) => ticket_if(is_unsent(lives, kept, *proxy, *ticket), *proxy, *ticket),
            Answer::Refused(_) => None,
        },
        _ => None,
    }
}
