ghost use Rattle.std.specs.Prelude.{◌≡◌, true, IfOk, OnErr};
ghost use Rattle.std.specs.Option.{option_copied};
ghost use Rattle.watch_model.specs.Due.{first_due, next_job};
ghost use Rattle.watch_model.specs.Lookups.{numbered};

use super::Broadcasts;
use etcd_types::NoMemory;
use watch_model::{Stream, StreamJob, StreamPhase};
use watch_streams::{begin, copy_range, drop_stream, first_due, next_of, none_due};

impl Broadcasts {
    /// The stream whose closing or opening is due first, or none where none is due.
    pub fn first_due(&self) -> Option<&Stream>
        ensures due { option_copied result ≡ first_due self.now.streams }
        ensures in_order { numbered 0 self.now.given self.now.streams ≡ true }
    {
        if self.idle {
            return None;
        }
        first_due(&self.streams)
    }

    /// The first due closing or opening, which is then sent, or none where none is due. Where memory was wanting it is
    /// still due.
    pub fn next_job(&mut self) -> Result<Option<StreamJob>, NoMemory>
        ensures ok { IfOk result (λ job. next_job self.old (first_due self.old.streams) ≡ (self.new, job)) }
        ensures err { OnErr result (self.new ≡ self.old) }
    {
        let Some(found) = first_due(&self.streams) else {
            return Ok(None);
        };
        let stream = found.number;
        match found.phase {
            StreamPhase::Begun => Ok(None),
            StreamPhase::Closing { .. } => {
                self.index.dropped(stream);
                drop_stream(stream, &mut self.streams);
                self.idle = none_due(&self.streams);
                Ok(Some(StreamJob::Close { stream }))
            }
            StreamPhase::Due { .. } => {
                let range = copy_range(self.alloc, found)?;
                let start = next_of(found);
                begin(stream, &mut self.streams);
                self.idle = none_due(&self.streams);
                Ok(Some(StreamJob::Open {
                    stream,
                    range,
                    start,
                }))
            }
        }
    }
}
