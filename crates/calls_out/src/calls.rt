ghost use Rattle.std.specs.Prelude.{◌≡◌, ◌++◌, ◌∷◌, [], true, OnOk, OnErr};
ghost use Rattle.std.specs.Option.{option_copied};
ghost use Rattle.core_model.specs.Groups.{is_out_for};
ghost use Rattle.core_model.specs.Lookups.{out_at, without_out};
ghost use Rattle.calls_out.specs.Calls.{all_below};
ghost use Rattle.calls_out.specs.Counts.{job_added, job_taken};

use crate::counts::Counts;
use core_model::{OutCall, OutJob};
use etcd_types::NoMemory;
use numbered_rows::place;
use std::alloc::Global;
use std::marker::Model;

/// The calls that are out, the last one sent last.
#[derive(Debug, Drop)]
pub struct Calls {
    /// Each under its own number; numbers rise as calls are sent.
    rows: Vec<(u64, OutCall)>,
    /// Those that are keepalives for clients, by lease.
    groups: Counts,
}

impl Model for Calls {
    ghost use Rattle.std.specs.Prelude.{map, List};
    ghost use Rattle.core_model.specs.declared.out_call.OutCall.{OutCall as Call};
    ghost use Rattle.calls_out.specs.Calls.{AreKept};

    ghost Value = { List Call };

    ghost view = { λ c. map (λ r. r.1) c.rows.items };

    ghost invariant = { λ c. AreKept c.rows.items c.groups };
}

impl Calls {
    /// None. It takes no memory.
    pub fn new(alloc: Global) -> Calls
        ensures { result ≡ [] }
    {
        Calls {
            rows: Vec::new(alloc),
            groups: Counts::new(alloc),
        }
    }

    /// The one of this number.
    pub fn find(&self, call: u64) -> Option<&OutCall>
        ensures { option_copied result ≡ out_at call self.now }
    {
        match place(&self.rows, call) {
            Ok(at) => Some(&self.rows[at].1),
            Err(_) => None,
        }
    }

    /// One more, whose number is above all. Where memory is wanting all is as before.
    pub fn push(&mut self, out: OutCall) -> Result<(), NoMemory>
        requires { all_below out.call self.old ≡ true }
        ensures ok { OnOk result (self.new ≡ self.old ++ out ∷ []) }
        ensures err { OnErr result (self.new ≡ self.old) }
    {
        self.rows.reserve(1)?;
        add_job(&mut self.groups, &out.job)?;
        self.rows.push((out.call, out)).unwrap();
        Ok(())
    }

    /// The one of this number is out no more. It takes no memory.
    pub fn remove(&mut self, call: u64) -> Option<OutCall>
        ensures found { result ≡ out_at call self.old }
        ensures rest { self.new ≡ without_out call self.old }
    {
        match place(&self.rows, call) {
            Ok(at) => {
                let out = self.rows.remove(at).1;
                take_job(&mut self.groups, &out.job);
                Some(out)
            }
            Err(_) => None,
        }
    }

    /// Whether a keepalive of the lease is out for clients. It takes logarithmic time.
    pub fn has_group(&self, lease: u64) -> bool
        ensures { result ≡ is_out_for lease self.now }
    {
        self.groups.has(lease)
    }
}

/// A keepalive for clients counts for its lease. Where memory is wanting all is as before.
fn add_job(groups: &mut Counts, job: &OutJob) -> Result<(), NoMemory>
    ensures ok { OnOk result (groups.new ≡ job_added job.now groups.old) }
    ensures err { OnErr result (groups.new ≡ groups.old) }
{
    match job {
        OutJob::Group { lease } => Ok(groups.add(*lease)?),
        _ => Ok(()),
    }
}

/// A keepalive for clients counts no more. It takes no memory.
fn take_job(groups: &mut Counts, job: &OutJob)
    ensures { groups.new ≡ job_taken job.now groups.old }
{
    match job {
        OutJob::Group { lease } => groups.take(*lease),
        _ => {}
    }
}
