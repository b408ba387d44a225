ghost use Rattle.std.specs.Prelude.{◌≡◌, OnErr};
ghost use Rattle.read_model.specs.WriteAnswers.{wait_answered};
ghost use Rattle.read_steps.specs.Steps.{FitTogether, GivesWrite};

use crate::moment::Moment;
use crate::reads::Reads;
use etcd_types::Answer;
use lease_txn::NotShape;
use write_answers::{Told, When, answer_call};

impl Reads {
    /// The call of this number, of a write or of an entry, was answered: what it settles is replied, and each read that waited for an
    /// owner write that is over is decided again. `Shape` comes exactly where the answer can't be one to the call, which then counts as
    /// lost; then, and where memory was wanting, all is as before.
    pub fn answer_write(&mut self, m: &Moment, call: u64, answer: Answer) -> Result<(), NotShape>
        requires { FitTogether self.old }
        ensures after { GivesWrite result self.new (wait_answered m.entry.now call answer self.old) }
        ensures err { OnErr result (self.new ≡ self.old) }
    {
        let when = When {
            now: m.now,
            session: m.session,
            header: m.header,
            step: self.waits.step(),
        };
        let told = Told { call, answer, when };
        answer_call(
            self.alloc,
            told,
            &mut self.asks,
            &mut self.waits,
            &mut self.table,
            &self.acquires,
        )
    }
}
