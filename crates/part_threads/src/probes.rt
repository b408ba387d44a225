ghost use Rattle.std.specs.Prelude.{IfOk, None, Some};
ghost use Rattle.std.specs.Arc.{arc_value};
ghost use Rattle.http_talk.specs.Cluster.{GivesFor, GivesOwn};

use crate::ends::Ends;
use etcd_types::NoMemory;
use http_talk::{
    Answers, ClusterAsk, OwnMember, Probe, Ready, RefusalForm, cluster_ask_of, members_reply,
    probe_of, probed, unanswered_reply,
};
use http_wire::Head;
use std::alloc::Global;
use std::sync::Arc;

/// What answers the requests of a connection's client that are of the server itself: its version, whether some member answers, itself as
/// the one member of its cluster, and how a member is, which that member says.
#[derive(Drop)]
pub(crate) struct Probes<E> {
    pub(crate) alloc: Global,
    pub(crate) ends: E,
    pub(crate) own: Arc<OwnMember, Global>,
}

impl<E: Ends> Probes<E> {
    fn probed(&self, probe: Probe) -> Result<Ready, NoMemory>
        ensures { IfOk result (λ ready. GivesFor (arc_value self.now.own) (Some probe) None (Some ready)) }
    {
        let answers = match probe {
            Probe::Version => true,
            Probe::Health => self.ends.one_answers(),
        };
        Ok(probed(self.alloc, probe, answers)?)
    }

    fn answered(&self, form: RefusalForm, ask: ClusterAsk, body: &[u8]) -> Result<Ready, NoMemory>
        ensures { IfOk result (λ ready. GivesFor (arc_value self.now.own) None (Some ask) (Some ready)) }
    {
        match ask {
            ClusterAsk::Members => Ok(members_reply(self.alloc, &self.own, self.ends.newest())?),
            ClusterAsk::Status => match self.ends.status(body)? {
                Some(ready) => Ok(ready),
                None => Ok(unanswered_reply(self.alloc, form)?),
            },
        }
    }
}

impl<E: Ends> Answers for Probes<E> {
    type Known = OwnMember;

    ghost known = { λ probes. arc_value probes.own };

    ghost gives = { λ own head body given. GivesOwn own head body given };

    fn answer(
        &mut self,
        form: RefusalForm,
        head: &Head,
        body: &[u8],
    ) -> Result<Option<Ready>, NoMemory> {
        match probe_of(head) {
            Some(probe) => Ok(Some(self.probed(probe)?)),
            None => match cluster_ask_of(self.alloc, head)? {
                Some(ask) => Ok(Some(self.answered(form, ask, body)?)),
                None => Ok(None),
            },
        }
    }
}
