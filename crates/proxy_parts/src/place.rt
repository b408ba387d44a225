ghost use Rattle.std.specs.Prelude.{◌≡◌, length};
ghost use Rattle.std.specs.Arc.{arc_value};
ghost use Rattle.turn_hub.specs.Known.{opening_of};

use etcd_types::{Bytes, List};
use http_talk::RefusalForm;
use proxy_core::Core;
use std::alloc::Global;
use std::sync::Arc;
use turn_hub::{Hub, Pass};

/// What a part of a server carries: the hub of the proxy's core, the hosts of the members, that of member 1 first, how many bytes
/// a message of a watch may have that a member sends, how refusals are written, and a pass of the hub. The core was opened with as many members as there are hosts.
#[derive(Drop)]
pub struct Place {
    pub hub: Arc<Hub<Core>, Global>,
    pub hosts: Arc<List<Bytes>, Global>,
    pub message_limit: usize,
    pub form: RefusalForm,
    pub pass: Pass<Core>,
    ghost mine: { pass.hub ≡ arc_value hub },
    ghost numbered: { (opening_of (arc_value hub)).settings.members ≡ length (arc_value hosts) },
}
