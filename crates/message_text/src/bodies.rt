ghost use Rattle.std.specs.Prelude.{◌≡◌, ◌++◌, OnOk, string_bytes};
ghost use Rattle.text_model.specs.Forms.{listed, read_several};
ghost use Rattle.text_model.specs.Words.{number};
ghost use Rattle.text_model.specs.Texts.{written};
ghost use Rattle.text_words.specs.Reading.{Gives};
ghost use Rattle.message_text.specs.Answers.{body_words, body_list, txn_body_words, one_body, body_form, body as body_text, txn_body};

use crate::body_parts::{
    branch_name, push_delete_body, push_leases_body, push_range_body, push_timetolive_body,
    push_two_numbers, read_branch, read_delete_body, read_leases_body, read_range_body,
    read_timetolive_body, read_two_numbers,
};
use crate::text::Text;
use etcd_types::{Body, Kv, List, NoMemory};
use std::alloc::Global;
use text_words::{ReadError, Words, is_word, push_number, push_word, read_number};

/// A transaction's body nests at most so many transactions, itself counted.
const MAX_NESTING: u64 = 128;

/// A word for the kind of body, and its fields.
impl Text for Body {
    ghost form = { body_text };

    #[tactic(auto, unfolding(crate::specs::Answers::body))]
    fn read(alloc: Global, words: &mut Words) -> Result<Body, ReadError> {
        Ok(read_body(alloc, words, MAX_NESTING)?)
    }

    #[tactic(auto, using(crate::proofs::AnswerLaws::body_written))]
    fn push(&self, out: &mut String) -> Result<(), NoMemory> {
        push_body(out, self)?;
        Ok(())
    }
}

/// Reads a body in which at most `depth` transactions nest.
#[cycle(body_read)]
fn read_body(alloc: Global, words: &mut Words, depth: u64) -> Result<Body, ReadError>
    ensures { Gives (λ b. (b, words.new)) result ((body_form depth).read words.old) }
{
    Ok(read_body_at(alloc, words, depth > 0, depth.saturating_sub(1))?)
}

#[cycle(body_read)]
#[tactic(auto, using(crate::proofs::Rolled::rolled_bodies))]
fn read_body_at(
    alloc: Global,
    words: &mut Words,
    nests: bool,
    inner: u64,
) -> Result<Body, ReadError>
    ensures { Gives (λ b. (b, words.new)) result ((one_body nests (body_form inner)).read words.old) }
{
    let name = words.take()?;
    if is_word(name, "range") {
        let (count, more, kvs) = read_range_body(alloc, words)?;
        Ok(Body::Range { count, more, kvs })
    } else if is_word(name, "put") {
        let prev = Option::<Kv>::read(alloc, words)?;
        Ok(Body::Put { prev })
    } else if is_word(name, "delete") {
        let (deleted, prevs) = read_delete_body(alloc, words)?;
        Ok(Body::Delete { deleted, prevs })
    } else if is_word(name, "compact") {
        Ok(Body::Compact)
    } else if is_word(name, "grant") {
        let (lease, ttl) = read_two_numbers(words)?;
        Ok(Body::Grant { lease, ttl })
    } else if is_word(name, "revoke") {
        Ok(Body::Revoke)
    } else if is_word(name, "keepalive") {
        let (lease, ttl) = read_two_numbers(words)?;
        Ok(Body::KeepAlive { lease, ttl })
    } else if is_word(name, "timetolive") {
        let times = read_timetolive_body(alloc, words)?;
        Ok(Body::TimeToLive {
            lease: times.lease,
            ttl: times.ttl,
            granted: times.granted,
            keys: times.keys,
        })
    } else if is_word(name, "leases") {
        let leases = read_leases_body(alloc, words)?;
        Ok(Body::Leases { leases })
    } else if nests && is_word(name, "txn") {
        let (succeeded, bodies) = read_txn_body(alloc, words, inner)?;
        Ok(Body::Txn { succeeded, bodies })
    } else {
        Err(words.wrong())
    }
}

#[cycle(body_read)]
fn read_txn_body(
    alloc: Global,
    words: &mut Words,
    depth: u64,
) -> Result<(bool, List<Body>), ReadError>
    ensures { Gives (λ x. (x, words.new)) result ((txn_body (body_form depth)).read words.old) }
{
    let succeeded = read_branch(words)?;
    let bodies = read_bodies(alloc, words, depth)?;
    Ok((succeeded, bodies))
}

#[cycle(body_read)]
fn read_bodies(alloc: Global, words: &mut Words, depth: u64) -> Result<List<Body>, ReadError>
    ensures { Gives (λ bs. (bs, words.new)) result ((listed number (body_form depth)).read words.old) }
{
    let count = read_number(words)?;
    Ok(read_bodies_in_turn(alloc, words, depth, count)?)
}

#[cycle(body_read)]
fn read_bodies_in_turn(
    alloc: Global,
    words: &mut Words,
    depth: u64,
    count: u64,
) -> Result<List<Body>, ReadError>
    ensures { Gives (λ bs. (bs, words.new)) result (read_several (body_form depth).read count words.old) }
{
    let mut bodies = List::new(alloc);
    for _ in 0..count {
        bodies.push(read_body(alloc, words, depth)?)?;
    }
    Ok(bodies)
}

/// Appends a body with its name.
#[cycle(body_write)]
#[tactic(auto, using(text_model::proofs::TextLaws::in_turn, crate::proofs::AnswerLaws::txn_body_written))]
fn push_body(out: &mut String, body: &Body) -> Result<(), NoMemory>
    ensures { OnOk result (string_bytes out.new ≡ string_bytes out.old ++ written 32 (body_words body.now)) }
{
    match body {
        Body::Range { count, more, kvs } => {
            push_word(out, "range")?;
            push_range_body(out, *count, *more, kvs)?;
        }
        Body::Put { prev } => {
            push_word(out, "put")?;
            prev.push(out)?;
        }
        Body::Delete { deleted, prevs } => {
            push_word(out, "delete")?;
            push_delete_body(out, *deleted, prevs)?;
        }
        Body::Txn { succeeded, bodies } => {
            push_word(out, "txn")?;
            push_txn_body(out, *succeeded, bodies)?;
        }
        Body::Compact => push_word(out, "compact")?,
        Body::Grant { lease, ttl } => {
            push_word(out, "grant")?;
            push_two_numbers(out, *lease, *ttl)?;
        }
        Body::Revoke => push_word(out, "revoke")?,
        Body::KeepAlive { lease, ttl } => {
            push_word(out, "keepalive")?;
            push_two_numbers(out, *lease, *ttl)?;
        }
        Body::TimeToLive {
            lease,
            ttl,
            granted,
            keys,
        } => {
            push_word(out, "timetolive")?;
            push_timetolive_body(out, *lease, *ttl, *granted, keys)?;
        }
        Body::Leases { leases } => {
            push_word(out, "leases")?;
            push_leases_body(out, leases)?;
        }
    }
    Ok(())
}

#[cycle(body_write)]
#[tactic(auto, using(text_model::proofs::TextLaws::in_turn))]
fn push_txn_body(out: &mut String, succeeded: bool, bodies: &List<Body>) -> Result<(), NoMemory>
    ensures { OnOk result (string_bytes out.new ≡ string_bytes out.old ++ written 32 (txn_body_words (succeeded, bodies.now))) }
{
    push_word(out, branch_name(succeeded))?;
    push_bodies(out, bodies)?;
    Ok(())
}

#[cycle(body_write)]
#[tactic(auto, using(text_model::proofs::TextLaws::in_turn))]
fn push_bodies(out: &mut String, bodies: &List<Body>) -> Result<(), NoMemory>
    ensures { OnOk result (string_bytes out.new ≡ string_bytes out.old ++ written 32 (body_list bodies.now)) }
{
    push_number(out, bodies.len() as u64)?;
    for body in bodies.as_slice() {
        push_body(out, body)?;
    }
    Ok(())
}
