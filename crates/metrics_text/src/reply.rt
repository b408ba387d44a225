ghost use Rattle.std.specs.Prelude.{◌≡◌, ◌++◌, OnOk, IfOk, codes};
ghost use Rattle.std.specs.Fmt.{decimal};
ghost use Rattle.metrics_text.specs.Reply as spec;

use crate::fronts::{head_end, length_front, type_front};
use crate::pieces::{push, push_number};
use etcd_types::NoMemory;
use std::alloc::Global;

/// What a reply carries.
#[derive(Clone, Copy, Debug, PartialEq, Eq)]
pub enum Content {
    /// Figures in the text format of Prometheus.
    Metrics,
    /// A page.
    Page,
    Json,
}

#[tactic(auto, unfolding(crate::specs::Reply::type_text))]
fn type_text(content: Content) -> &'static [u8]
    ensures { result.now ≡ spec.type_text content }
{
    match content {
        Content::Metrics => b"text/plain; version=0.0.4; charset=utf-8",
        Content::Page => b"text/html; charset=utf-8",
        Content::Json => b"application/json",
    }
}

#[tactic(auto, unfolding(crate::specs::Reply::phrase))]
fn phrase(status: u16) -> &'static [u8]
    ensures { result.now ≡ spec.phrase status }
{
    match status {
        200 => b"OK",
        404 => b"Not Found",
        405 => b"Method Not Allowed",
        _ => b"Service Unavailable",
    }
}

#[tactic(auto, unfolding(crate::specs::Reply::status_line))]
fn push_status(alloc: Global, text: &mut Vec<u8>, status: u16) -> Result<(), NoMemory>
    ensures { OnOk result (text.new.items ≡ text.old.items ++ spec.status_line status) }
{
    push(text, b"HTTP/1.1 ")?;
    push_number(alloc, text, status as u64)?;
    push(text, b" ")?;
    push(text, phrase(status))
}

#[tactic(auto, unfolding(crate::specs::Reply::head_text))]
fn push_head(
    alloc: Global,
    text: &mut Vec<u8>,
    status: u16,
    content: Content,
    size: usize,
) -> Result<(), NoMemory>
    ensures { OnOk result (text.new.items ≡ text.old.items ++ spec.head_text status content size) }
{
    push_status(alloc, text, status)?;
    push(text, type_front())?;
    push(text, type_text(content))?;
    push(text, length_front())?;
    push_number(alloc, text, size as u64)?;
    push(text, head_end())
}

/// A reply with this body, behind which its connection ends; `bodiless` where it is one to a HEAD.
pub fn reply_text(
    alloc: Global,
    bodiless: bool,
    status: u16,
    content: Content,
    body: &[u8],
) -> Result<Vec<u8>, NoMemory>
    ensures { IfOk result (λ text. text.items ≡ spec.reply_text bodiless status content body.now) }
{
    let mut text = Vec::new(alloc);
    push_head(alloc, &mut text, status, content, body.len())?;
    if !bodiless {
        push(&mut text, body)?;
    }
    Ok(text)
}
