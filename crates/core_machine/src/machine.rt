ghost use Rattle.std.specs.Prelude.{◌≡◌, ◌≤◌, ◌<◌, ◌+◌, ◌^◌, Some, IfOk};
ghost use Rattle.proxy_model.specs.Prefixes.{leasing_range};
ghost use Rattle.core_model.specs.State.{first_core};
ghost use Rattle.core_model.specs.Heard.{header_taken};
ghost use Rattle.core_model.specs.Lookups.{moment, leases, is_known};
ghost use Rattle.core_model.specs.Step.{is_worn};
ghost use Rattle.core_machine.specs.Keeping.{on};

use calls_out::Calls;
use core_model::Settings;
use core_parts::{Opening, Seat, live_number, raise_header, stands_created};
use etcd_types::{Bytes, Header, KeyRange, NoMemory};
use member_order::Members;
use namespace_keys::{Namespace, prefix_end};
use read_steps::{Moment, Reads};
use std::alloc::Global;
use std::marker::Model;
use watch_merge::Broadcasts;

/// So many steps are made, and so many stream numbers given, before a proxy is worn.
const LAST_NUMBER: u64 = 0x4000_0000_0000_0000;

/// What a proxy keeps.
#[derive(Drop)]
pub struct Machine {
    pub alloc: Global,
    /// How many members the cluster has.
    pub count: u32,
    pub namespace: Namespace,
    /// The leasing prefix that it was started with.
    pub prefix: Bytes,
    /// The time to live of a session, in seconds.
    pub ttl: u64,
    pub members: Members,
    /// The one of the highest revision that was delivered.
    pub header: Header,
    pub seat: Option<Seat>,
    pub leasing: Option<Opening>,
    /// The range of the ownership keys.
    pub range: KeyRange,
    /// The same, for the leasing stream, until that is first to be opened: a tick takes no memory.
    pub first: Option<KeyRange>,
    pub reads: Reads,
    pub out: Calls,
    /// How many calls were sent.
    pub calls: u64,
    /// How many steps were made that gave an outcome.
    pub steps: u64,
    pub watches: Broadcasts,
}

impl Model for Machine {
    ghost use Rattle.std.specs.Coded.{codes};
    ghost use Rattle.etcd_types.specs.contracts.operation.Op as operation;
    ghost use Rattle.etcd_types.specs.contracts.answer.Body as body;
    ghost use Rattle.core_machine.specs.Keeping.{Kept};

    ghost Value = { Kept };

    ghost coded = { Prim.hlevel (codes, operation.the_row.coded, body.the_row.coded) };

    ghost view = { λ m. record {
      core = record {
        settings = record {
          members = m.count;
          namespace = m.namespace;
          leasing = m.prefix;
          ttl = m.ttl;
        };
        members = m.members;
        header = m.header;
        seat = m.seat;
        leasing = m.leasing;
        own = m.reads.own;
        acquires = m.reads.acquires;
        asks = m.reads.asks;
        out = m.out;
        calls = m.calls;
        steps = m.steps;
        watches = m.watches;
      };
      ranges = record { leasing = m.range; first = m.first };
    } };
}

impl Machine {
    /// Nothing is asked, owned or due. `NoMemory` where memory was wanting.
    pub fn new(alloc: Global, settings: Settings) -> Result<Machine, NoMemory>
        requires { 1 ≤ settings.members }
        ensures core { IfOk result (λ m. m.core ≡ first_core settings) }
        ensures ranges { IfOk result (λ m. m.ranges ≡ record { leasing = leasing_range settings.leasing; first = Some (leasing_range settings.leasing) }) }
    {
        let range = leasing_range(alloc, &settings.leasing)?;
        let first = leasing_range(alloc, &settings.leasing)?;
        let prefix = settings.leasing.copy(alloc)?;
        Ok(Machine {
            alloc,
            count: settings.members,
            namespace: Namespace::new(settings.namespace),
            prefix: settings.leasing,
            ttl: settings.ttl,
            members: Members::new(settings.members),
            header: Header {
                cluster: 0,
                member: 0,
                revision: 0,
                term: 0,
            },
            seat: None,
            leasing: None,
            range,
            first: Some(first),
            reads: Reads::new(alloc, prefix),
            out: Calls::new(alloc),
            calls: 0,
            steps: 0,
            watches: Broadcasts::new(alloc),
        })
    }

    /// Whether the numbers of steps or of streams are used up.
    pub fn is_worn(&self) -> bool
        ensures { result ≡ is_worn self.now.core }
    {
        self.steps >= LAST_NUMBER || self.watches.given() >= LAST_NUMBER
    }

    /// One more step was made that gave an outcome.
    pub fn count(&mut self)
        requires { self.old.core.steps < 2 ^ 63 }
        ensures { self.new ≡ on self.old (record self.old.core { steps = self.old.core.steps + 1 }) }
    {
        self.steps += 1;
    }

    /// Whether leasing is on.
    pub fn leases(&self) -> bool
        ensures { result ≡ leases self.now.core }
    {
        !self.reads.prefix().is_empty()
    }

    /// What a step on reads is told beside them, at this reading of the clock.
    pub fn moment(&self, now: u64) -> Moment
        ensures { result ≡ moment self.now.core now }
    {
        Moment {
            now,
            session: live_number(&self.seat, now),
            created: stands_created(&self.leasing),
            header: self.header,
        }
    }

    /// Whether the ticket is that of a request whose reply wasn't taken, or of a watch. It takes no memory.
    pub fn knows(&self, ticket: u64) -> bool
        ensures { result ≡ is_known ticket self.now.core }
    {
        self.reads.find(ticket).is_some() || self.watches.is_known(ticket)
    }

    /// A header was delivered.
    pub fn take_header(&mut self, delivered: Header)
        ensures { self.new ≡ on self.old (header_taken delivered self.old.core) }
    {
        self.members.take_seen(delivered.revision);
        raise_header(&mut self.header, delivered);
    }
}

/// The keys behind the leasing prefix. `NoMemory` where memory was wanting.
fn leasing_range(alloc: Global, prefix: &Bytes) -> Result<KeyRange, NoMemory>
    ensures { IfOk result (λ range. range ≡ leasing_range prefix.now) }
{
    Ok(KeyRange {
        key: prefix.copy(alloc)?,
        end: prefix_end(alloc, prefix)?,
    })
}
