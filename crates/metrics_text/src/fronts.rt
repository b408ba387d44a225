// Texts that stand as they are.
ghost use Rattle.std.specs.Prelude.{◌≡◌};
ghost use Rattle.metrics_text.specs.Fronts as spec;

/// What stands before the path of a request.
#[tactic(auto, unfolding(crate::specs::Fronts::reply_front))]
pub(crate) fn reply_front() -> &'static [u8]
    ensures { result.now ≡ spec.reply_front }
{
    b"etcd_proxy_requests_total{path=\""
}

/// What stands before the version.
#[tactic(auto, unfolding(crate::specs::Fronts::build_front))]
pub(crate) fn build_front() -> &'static [u8]
    ensures { result.now ≡ spec.build_front }
{
    b"etcd_proxy_build_info{version=\""
}

/// What stands before the number of a member.
#[tactic(auto, unfolding(crate::specs::Fronts::up_front))]
pub(crate) fn up_front() -> &'static [u8]
    ensures { result.now ≡ spec.up_front }
{
    b"etcd_proxy_member_up{member=\""
}

/// What stands before the address of a member.
#[tactic(auto, unfolding(crate::specs::Fronts::endpoint_front))]
pub(crate) fn endpoint_front() -> &'static [u8]
    ensures { result.now ≡ spec.endpoint_front }
{
    b"\",endpoint=\""
}

/// What stands before the type of a reply.
#[tactic(auto, unfolding(crate::specs::Fronts::type_front))]
pub(crate) fn type_front() -> &'static [u8]
    ensures { result.now ≡ spec.type_front }
{
    b"\r\nContent-Type: "
}

/// What stands before the length of a reply.
#[tactic(auto, unfolding(crate::specs::Fronts::length_front))]
pub(crate) fn length_front() -> &'static [u8]
    ensures { result.now ≡ spec.length_front }
{
    b"\r\nContent-Length: "
}

/// What stands behind it.
#[tactic(auto, unfolding(crate::specs::Fronts::head_end))]
pub(crate) fn head_end() -> &'static [u8]
    ensures { result.now ≡ spec.head_end }
{
    b"\r\nCache-Control: no-store\r\nConnection: close\r\n\r\n"
}

/// How the figures of the page begin.
#[tactic(auto, unfolding(crate::specs::Fronts::tiles_front))]
pub(crate) fn tiles_front() -> &'static [u8]
    ensures { result.now ≡ spec.tiles_front }
{
    b"<div class=\"all\">\n"
}

/// How the cell with a member's address begins.
#[tactic(auto, unfolding(crate::specs::Fronts::host_front))]
pub(crate) fn host_front() -> &'static [u8]
    ensures { result.now ≡ spec.host_front }
{
    b"<td class=\"t\">"
}

/// What stands before a member's state.
#[tactic(auto, unfolding(crate::specs::Fronts::state_front))]
pub(crate) fn state_front() -> &'static [u8]
    ensures { result.now ≡ spec.state_front }
{
    b"</td><td class=\"t "
}

/// How the table of members begins.
#[tactic(auto, unfolding(crate::specs::Fronts::members_front))]
pub(crate) fn members_front() -> &'static [u8]
    ensures { result.now ≡ spec.members_front }
{
    b"\
<h2>Members</h2><table><tr><th>Member</th><th class=\"t\">Endpoint</th><th class=\"t\">State</th>\
<th>Calls</th><th>Lost</th><th>Mean, ms</th></tr>
"
}

/// How the table of replies begins.
#[tactic(auto, unfolding(crate::specs::Fronts::replies_front))]
pub(crate) fn replies_front() -> &'static [u8]
    ensures { result.now ≡ spec.replies_front }
{
    b"<h2>Requests</h2><table><tr><th>Path</th><th>Status</th><th>Replies</th></tr>\n"
}

/// How the table of ranges begins.
#[tactic(auto, unfolding(crate::specs::Fronts::ranges_front))]
pub(crate) fn ranges_front() -> &'static [u8]
    ensures { result.now ≡ spec.ranges_front }
{
    b"<h2>Busiest ranges</h2><table><tr><th>First key</th><th class=\"t\">End</th><th>Messages</th></tr>\n"
}

/// How the page begins, and how it looks.
#[tactic(auto, unfolding(crate::specs::Fronts::page_front))]
pub(crate) fn page_front() -> &'static [u8]
    ensures { result.now ≡ spec.page_front }
{
    b"\
<!DOCTYPE html>
<html lang=\"en\"><head><meta charset=\"utf-8\"><meta http-equiv=\"refresh\" content=\"2\">
<meta name=\"viewport\" content=\"width=device-width\"><title>etcd_proxy</title>
<style>
body{font:15px/1.45 system-ui,sans-serif;margin:1.5rem;background:#f6f7f9;color:#1c2330}h1{font-size:1.3rem;margin:0 0 1rem}
h2{font-size:1rem;margin:1.4rem 0 .5rem}.all{display:grid;grid-template-columns:repeat(auto-fill,minmax(11rem,1fr));gap:.7rem}
.all div,table{background:#fff;border:1px solid #d9dee6;border-radius:6px}.all div{padding:.6rem .8rem;color:#5b6577}
.all b{display:block;font-size:1.35rem;color:#1c2330}table{border-collapse:collapse;min-width:32rem}
td,th{padding:.35rem .8rem;text-align:right;border-top:1px solid #e8ebf0}th{color:#5b6577;font-weight:500;border-top:0}
td:first-child,th:first-child,.t{text-align:left}.up{color:#14783c}.suspect{color:#9a6700}.down,.barred{color:#b42318}
@media(prefers-color-scheme:dark){body{background:#14181f;color:#e6e9ef}.all div,table{background:#1d232d;border-color:#323a48}
.all b{color:#fff}.all div,th{color:#9aa5b8}td,th{border-color:#2a313d}.up{color:#4ac27a}.suspect{color:#e0b040}
.down,.barred{color:#ff7b6b}}
</style></head><body><h1>etcd_proxy "
}
