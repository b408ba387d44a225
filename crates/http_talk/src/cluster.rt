ghost use Rattle.std.specs.Prelude.{◌≡◌, ◌++◌, IfOk, OnOk};
ghost use Rattle.std.specs.Fmt.{decimal};
ghost use Rattle.http_talk.specs.Cluster as spec;
ghost use Rattle.http_talk.specs.Forms.{string_text};

use crate::aliases::v3_path;
use crate::ask::is_post;
use crate::form::{RefusalForm, encode_by, string_text};
use crate::ready::Ready;
use etcd_types::code::UNAVAILABLE;
use etcd_types::{Answer, Bytes, Header, NoMemory, Refusal};
use http_wire::Head;
use std::alloc::Global;

/// What a client asks of the cluster itself.
#[derive(Clone, Copy, Debug, PartialEq, Eq)]
pub enum ClusterAsk {
    /// `/v3/cluster/member/list`: the members.
    Members,
    /// `/v3/maintenance/status`: how a member is.
    Status,
}

/// What a server tells of itself as the one member of its cluster.
#[derive(Debug, Drop)]
pub struct OwnMember {
    pub name: Bytes,
    /// Where clients come to it.
    pub url: Bytes,
}

/// Which of these a path is, if one.
fn named(path: &[u8]) -> Option<ClusterAsk>
    ensures { result ≡ spec.named path.now }
{
    if path == b"/v3/cluster/member/list".as_slice() {
        Some(ClusterAsk::Members)
    } else if path == b"/v3/maintenance/status".as_slice() {
        Some(ClusterAsk::Status)
    } else {
        None
    }
}

/// Which of these a request is, if one.
pub fn cluster_ask_of(alloc: Global, head: &Head) -> Result<Option<ClusterAsk>, NoMemory>
    ensures { IfOk result (λ ask. ask ≡ spec.cluster_ask_of head.now) }
{
    if !is_post(&head.method) || head.encoded {
        return Ok(None);
    }
    let path = v3_path(alloc, head.path.as_slice())?;
    Ok(named(path.as_slice()))
}

/// Adds a text as a JSON string behind these bytes.
fn push_string(
    alloc: Global,
    text: &mut Vec<u8>,
    front: &[u8],
    content: &Bytes,
) -> Result<(), NoMemory>
    ensures { OnOk result (text.new.items ≡ text.old.items ++ front.now ++ string_text content.now) }
{
    let content = string_text(alloc, content.as_slice())?;
    text.extend_from_slice(front)?;
    text.extend_from_slice(content.as_slice())?;
    Ok(())
}

/// Adds a number as decimal behind these bytes.
fn push_number(alloc: Global, text: &mut Vec<u8>, front: &[u8], number: u64) -> Result<(), NoMemory>
    ensures { OnOk result (text.new.items ≡ text.old.items ++ front.now ++ decimal number) }
{
    let number = format!(in alloc; "{number}")?;
    text.extend_from_slice(front)?;
    text.extend_from_slice(number.as_bytes())?;
    Ok(())
}

fn header_text(alloc: Global, header: Option<Header>) -> Result<Vec<u8>, NoMemory>
    ensures { IfOk result (λ text. text.items ≡ spec.header_text header) }
{
    let mut text = Vec::new(alloc);
    match header {
        None => text.extend_from_slice(b"{}")?,
        Some(header) => {
            push_number(alloc, &mut text, b"{\"cluster_id\":\"", header.cluster)?;
            push_number(alloc, &mut text, b"\",\"member_id\":\"", header.member)?;
            push_number(alloc, &mut text, b"\",\"raft_term\":\"", header.term)?;
            text.extend_from_slice(b"\"}")?;
        }
    }
    Ok(text)
}

#[tactic(auto, unfolding(crate::specs::Cluster::member_text))]
fn member_text(alloc: Global, own: &OwnMember) -> Result<Vec<u8>, NoMemory>
    ensures { IfOk result (λ text. text.items ≡ spec.member_text own.now) }
{
    let mut text = Vec::new(alloc);
    push_string(alloc, &mut text, b"{\"name\":", &own.name)?;
    push_string(alloc, &mut text, b",\"peerURLs\":[", &own.url)?;
    push_string(alloc, &mut text, b"],\"clientURLs\":[", &own.url)?;
    text.extend_from_slice(b"]}")?;
    Ok(text)
}

#[tactic(auto, unfolding(crate::specs::Cluster::members_text))]
fn members_text(alloc: Global, own: &OwnMember, header: Option<Header>) -> Result<Vec<u8>, NoMemory>
    ensures { IfOk result (λ text. text.items ≡ spec.members_text own.now header) }
{
    let header = header_text(alloc, header)?;
    let member = member_text(alloc, own)?;
    let mut text = Vec::from_slice(alloc, b"{\"header\":")?;
    text.extend_from_slice(header.as_slice())?;
    text.extend_from_slice(b",\"members\":[")?;
    text.extend_from_slice(member.as_slice())?;
    text.extend_from_slice(b"]}")?;
    Ok(text)
}

/// The list of members, of which this is the one, with the header of a member's reply.
pub fn members_reply(
    alloc: Global,
    own: &OwnMember,
    header: Option<Header>,
) -> Result<Ready, NoMemory>
    ensures { IfOk result (λ ready. ready ≡ spec.members_reply own.now header) }
{
    let text = members_text(alloc, own, header)?;
    Ok(Ready {
        status: 200,
        body: Bytes::from_vec(text),
    })
}

/// The refusal of a call that is passed on, where no member answers it.
pub fn unanswered_reply(alloc: Global, form: RefusalForm) -> Result<Ready, NoMemory>
    ensures { IfOk result (λ ready. ready ≡ spec.unanswered_reply form) }
{
    let answer = Answer::Refused(Refusal {
        code: UNAVAILABLE,
        text: Bytes::from_slice(alloc, b"proxy: no member answers")?,
    });
    let (_, body) = encode_by(alloc, form, &answer)?;
    Ok(Ready { status: 503, body })
}
