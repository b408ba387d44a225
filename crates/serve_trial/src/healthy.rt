ghost use Rattle.http_talk.specs.Probes.{GivesProbes};

use etcd_types::NoMemory;
use http_talk::{Answers, Ready, RefusalForm, probe_of, probed};
use http_wire::Head;
use std::alloc::Global;

/// What answers probes as a server does whose cluster answers, or doesn't.
#[derive(Drop)]
pub struct Healthy {
    pub alloc: Global,
    pub answers: bool,
}

impl Answers for Healthy {
    type Known = ();

    ghost known = { λ healthy. tt };

    ghost gives = { λ known head body given. GivesProbes head body given };

    fn answer(
        &mut self,
        _form: RefusalForm,
        head: &Head,
        _body: &[u8],
    ) -> Result<Option<Ready>, NoMemory> {
        match probe_of(head) {
            Some(probe) => Ok(Some(probed(self.alloc, probe, self.answers)?)),
            None => Ok(None),
        }
    }
}
