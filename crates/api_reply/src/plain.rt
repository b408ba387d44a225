//! The answer to a put, read without a JSON value where it stands in the form in which etcd writes it.
ghost use Rattle.std.specs.Prelude.{◌≡◌, ◌++◌, Ok, codes, decimal, IfSome};
ghost use Rattle.json_model.specs.Answers.{answer_of};
ghost use Rattle.json_model.specs.FitReplies.{HeaderFits};
ghost use Rattle.api_reply.specs.PlainAnswers.{plain_reply, plain_text};

use etcd_types::{Answer, Body, Header, Reply, Request};
use itoa::Buffer;
use json_model::NUMBER_MAX;
use memchr::memchr;
use std::str;

/// The number whose digits these are. Written again it is the same text, so it has no sign and no leading zero.
fn number_of(digits: &[u8]) -> Option<u64>
    ensures { IfSome result (λ n. digits.now ≡ decimal n) }
{
    let number = str::from_utf8(digits).ok()?.parse::<u64>().ok()?;
    let mut buffer = Buffer::new();
    if buffer.format(number).as_bytes() == digits {
        Some(number)
    } else {
        None
    }
}

/// What stands behind the piece with which the text begins.
pub(crate) fn after<'a>(text: &'a [u8], piece: &[u8]) -> Option<&'a [u8]>
    ensures { IfSome result (λ rest. text.now ≡ piece.now ++ rest.now) }
{
    text.strip_prefix(piece)
}

/// The number with which the text begins, and what stands behind the piece that follows it. A quotation mark ends the digits.
pub(crate) fn number_before<'a>(text: &'a [u8], piece: &[u8]) -> Option<(u64, &'a [u8])>
    ensures { IfSome result (λ parts. text.now ≡ decimal parts.0 ++ (piece.now ++ parts.1.now)) }
{
    let end = memchr(b'"', text)?;
    let (digits, rest) = text.split_at(end);
    let number = number_of(digits)?;
    let rest = after(rest, piece)?;
    Some((number, rest))
}

fn last_number(text: &[u8]) -> Option<u64>
    ensures { IfSome result (λ n. text.now ≡ decimal n ++ codes "\"}}") }
{
    match number_before(text, b"\"}}") {
        Some((number, [])) => Some(number),
        _ => None,
    }
}

/// The header that the whole body tells.
fn header_of(body: &[u8]) -> Option<Header>
    ensures text { IfSome result (λ h. body.now ≡ plain_text h) }
    ensures fits { IfSome result (λ h. HeaderFits h) }
{
    let rest = after(body, b"{\"header\":{\"cluster_id\":\"")?;
    let (cluster, rest) = number_before(rest, b"\",\"member_id\":\"")?;
    let (member, rest) = number_before(rest, b"\",\"revision\":\"")?;
    let (revision, rest) = number_before(rest, b"\",\"raft_term\":\"")?;
    let term = last_number(rest)?;
    if revision > NUMBER_MAX || term > NUMBER_MAX {
        return None;
    }
    Some(Header {
        cluster,
        member,
        revision,
        term,
    })
}

fn reply_of(header: Header) -> Reply
    ensures { result ≡ plain_reply header }
{
    Reply {
        header,
        body: Body::Put { prev: None },
    }
}

/// The answer to a put whose body tells a header alone, in the form in which etcd writes it.
pub(crate) fn plain_answer(request: &Request, status: u16, body: &[u8]) -> Option<Answer>
    ensures { IfSome result (λ answer. answer_of request.now status body.now ≡ Ok answer) }
{
    match request {
        Request::Put(_) if status == 200 => {
            let header = header_of(body)?;
            Some(Answer::Done(reply_of(header)))
        }
        _ => None,
    }
}
