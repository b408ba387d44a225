ghost use Rattle.std.specs.Prelude.{◌≡◌, ◌++◌, OnOk, string_bytes};
ghost use Rattle.text_model.specs.Forms.{listed, read_several};
ghost use Rattle.text_model.specs.Words.{number};
ghost use Rattle.text_model.specs.Texts.{written};
ghost use Rattle.text_words.specs.Reading.{Gives};
ghost use Rattle.message_text.specs.Requests.{op_words, op_list, txn_words, one_op, op_form, txn};

use crate::ranges::{PlainRange, UNSORTED};
use crate::sorts::{push_range_ask, read_sort};
use crate::text::{Text, push_list, read_list};
use etcd_types::{DeleteAsk, List, NoMemory, Op, PutAsk, TxnAsk};
use std::alloc::Global;
use text_words::{ReadError, Words, is_word, push_number, push_word, read_number};

/// Reads an operation in which at most `depth` transactions nest.
#[cycle(operation_read)]
fn read_op(alloc: Global, words: &mut Words, depth: u64) -> Result<Op, ReadError>
    ensures { Gives (λ op. (op, words.new)) result ((op_form depth).read words.old) }
{
    Ok(read_op_at(alloc, words, depth > 0, depth.saturating_sub(1))?)
}

#[cycle(operation_read)]
#[tactic(auto, using(crate::proofs::Rolled::rolled))]
fn read_op_at(alloc: Global, words: &mut Words, nests: bool, inner: u64) -> Result<Op, ReadError>
    ensures { Gives (λ op. (op, words.new)) result ((one_op nests (op_form inner)).read words.old) }
{
    let name = words.take()?;
    if is_word(name, "range") {
        Ok(Op::Range(PlainRange::read(alloc, words)?.sorted(UNSORTED)))
    } else if is_word(name, "rangex") {
        let range = PlainRange::read(alloc, words)?;
        let sort = read_sort(words)?;
        Ok(Op::Range(range.sorted(sort)))
    } else if is_word(name, "put") {
        Ok(Op::Put(PutAsk::read(alloc, words)?))
    } else if is_word(name, "delete") {
        Ok(Op::Delete(DeleteAsk::read(alloc, words)?))
    } else if nests && is_word(name, "txn") {
        Ok(Op::Txn(read_txn(alloc, words, inner)?))
    } else {
        Err(words.wrong())
    }
}

/// Reads a transaction, in whose operations at most `depth` transactions nest.
#[cycle(operation_read)]
pub(crate) fn read_txn(alloc: Global, words: &mut Words, depth: u64) -> Result<TxnAsk, ReadError>
    ensures { Gives (λ t. (t, words.new)) result ((txn (op_form depth)).read words.old) }
{
    let compare = read_list(alloc, words)?;
    let success = read_ops(alloc, words, depth)?;
    let failure = read_ops(alloc, words, depth)?;
    Ok(TxnAsk {
        compare,
        success,
        failure,
    })
}

#[cycle(operation_read)]
fn read_ops(alloc: Global, words: &mut Words, depth: u64) -> Result<List<Op>, ReadError>
    ensures { Gives (λ ops. (ops, words.new)) result ((listed number (op_form depth)).read words.old) }
{
    let count = read_number(words)?;
    Ok(read_ops_in_turn(alloc, words, depth, count)?)
}

#[cycle(operation_read)]
fn read_ops_in_turn(
    alloc: Global,
    words: &mut Words,
    depth: u64,
    count: u64,
) -> Result<List<Op>, ReadError>
    ensures { Gives (λ ops. (ops, words.new)) result (read_several (op_form depth).read count words.old) }
{
    let mut ops = List::new(alloc);
    for _ in 0..count {
        ops.push(read_op(alloc, words, depth)?)?;
    }
    Ok(ops)
}

/// Appends an operation with its name.
#[cycle(operation_write)]
#[tactic(auto, using(text_model::proofs::TextLaws::in_turn, crate::proofs::RequestLaws::txn_written))]
fn push_op(out: &mut String, op: &Op) -> Result<(), NoMemory>
    ensures { OnOk result (string_bytes out.new ≡ string_bytes out.old ++ written 32 (op_words op.now)) }
{
    match op {
        Op::Range(ask) => push_range_ask(out, ask)?,
        Op::Put(ask) => {
            push_word(out, "put")?;
            ask.push(out)?;
        }
        Op::Delete(ask) => {
            push_word(out, "delete")?;
            ask.push(out)?;
        }
        Op::Txn(ask) => {
            push_word(out, "txn")?;
            push_txn(out, ask)?;
        }
    }
    Ok(())
}

#[cycle(operation_write)]
#[tactic(auto, using(text_model::proofs::TextLaws::in_turn))]
pub(crate) fn push_txn(out: &mut String, ask: &TxnAsk) -> Result<(), NoMemory>
    ensures { OnOk result (string_bytes out.new ≡ string_bytes out.old ++ written 32 (txn_words ask.now)) }
{
    push_list(out, &ask.compare)?;
    push_ops(out, &ask.success)?;
    push_ops(out, &ask.failure)?;
    Ok(())
}

#[cycle(operation_write)]
#[tactic(auto, using(text_model::proofs::TextLaws::in_turn))]
fn push_ops(out: &mut String, ops: &List<Op>) -> Result<(), NoMemory>
    ensures { OnOk result (string_bytes out.new ≡ string_bytes out.old ++ written 32 (op_list ops.now)) }
{
    push_number(out, ops.len() as u64)?;
    for op in ops.as_slice() {
        push_op(out, op)?;
    }
    Ok(())
}
