ghost use Rattle.std.specs.Prelude.{◌≡◌, ℕ, List, Option, IfOk};
ghost use Rattle.http_wire.specs.declared.message.Head.{Head};
ghost use Rattle.http_talk.specs.declared.ready.Ready.{Ready};
ghost use Rattle.http_talk.specs.Direct.{GivesNone};

use crate::form::RefusalForm;
use crate::ready::Ready;
use etcd_types::NoMemory;
use http_wire::Head;

/// What answers requests with no step, of those that the JSON mapping doesn't know: its word decides whether such a request is refused.
pub trait Answers {
    /// What it knows for good, whatever it is asked.
    type Known;

    // what it knows for good
    ghost known: { Self → Self.Known };

    // which answers it may give to a request with this head and this body: none, or these
    ghost gives: { Self.Known → Head → List ℕ → Option Ready → Type 0 };

    /// The answer to a request that was read whole, or none; a refusal is in this form. It may wait for others, for a time that it bounds itself.
    fn answer(
        &mut self,
        form: RefusalForm,
        head: &Head,
        body: &[u8],
    ) -> Result<Option<Ready>, NoMemory>
        ensures gives { IfOk result (λ given. gives (known self.old) head.now body.now given) }
        ensures known { known self.new ≡ known self.old };
}

/// It gives no answer to any request.
#[derive(Clone, Copy, Debug, Drop)]
pub struct NoAnswers;

impl Answers for NoAnswers {
    type Known = ();

    ghost known = { λ answers. tt };

    ghost gives = { λ known head body given. GivesNone head body given };

    fn answer(
        &mut self,
        _form: RefusalForm,
        _head: &Head,
        _body: &[u8],
    ) -> Result<Option<Ready>, NoMemory> {
        Ok(None)
    }
}
