ghost use Rattle.std.specs.Prelude.{◌≡◌, ◌≢◌, IfOk, codes};
ghost use Rattle.audit_model.specs.Texts.{summary_text as text_of_summary};
ghost use Rattle.audit_input.specs.Audits.{IsKeptTranscript};
ghost use Rattle.etcd_proxy.specs.Audit.{AuditEnds, refused_status as status_of_refused, refused_text as text_of_refused};
ghost use Rattle.outside.specs.Faults.{Rose};
ghost use Rattle.etcd_proxy.specs.Run.{Tells};

use crate::told::{print, tell};
use audit_input::{AuditEnding, AuditRefusal, AuditStop, Summary, audit_source};
use etcd_types::NoMemory;
use outside::{Sink, Source};
use std::alloc::Global;

/// Audits the transcript that the input gives, and answers the exit status.
///
/// 0: it is the texts of items that keep the rules, and their counts are written. 1: a line isn't the text of an item. 9: an item breaks
/// a rule. 6: a line passes a limit. 3, 4, 5: the input failed, the output did, or memory was wanting.
pub(crate) fn audit<S: Source, K: Sink, E: Sink>(
    alloc: Global,
    input: &mut S,
    output: &mut K,
    errors: &mut E,
) -> u8
    ensures ends { AuditEnds (S.left input.old) (S.left input.new) (K.written output.old) (K.written output.new) (K.faults output.old) (K.faults output.new)
        (E.written errors.old) (E.written errors.new) (E.faults errors.old) (E.faults errors.new) result }
    ensures complete { IsKeptTranscript (S.left input.old) → (result ≢ 1) × (result ≢ 9) × (result ≢ 6) }
    ensures no_usage { result ≢ 2 }
    ensures read_fault { result ≡ 3 → Rose (S.faults input.old) (S.faults input.new) }
    ensures write_fault { result ≡ 4 → Rose (K.faults output.old) (K.faults output.new) }
{
    match audit_source(alloc, input) {
        Ok((AuditEnding::Open, counts)) => match summary_text(alloc, &counts) {
            Ok(text) => print(output, errors, text.as_slice()),
            Err(NoMemory) => no_memory(errors),
        },
        Ok((AuditEnding::Refused { number, refusal }, _)) => {
            match refused_text(alloc, number, &refusal) {
                Ok(text) => {
                    tell(errors, text.as_slice());
                    refused_status(&refusal)
                }
                Err(NoMemory) => no_memory(errors),
            }
        }
        Ok((AuditEnding::PastLimit, _)) => {
            tell(errors, b"limit\n");
            6
        }
        Err(AuditStop::ReadFault) => {
            tell(errors, b"read fault\n");
            3
        }
        Err(AuditStop::NoMemory) => no_memory(errors),
    }
}

pub(crate) fn no_memory<E: Sink>(errors: &mut E) -> u8
    ensures status { result ≡ 5 }
    ensures tells { Tells (E.written errors.old) (E.written errors.new) (E.faults errors.old) (E.faults errors.new) (codes "no memory\n") }
{
    tell(errors, b"no memory\n");
    5
}

pub(crate) fn refused_status(refusal: &AuditRefusal) -> u8
    ensures { result ≡ status_of_refused refusal.now }
{
    match refusal {
        AuditRefusal::BadLine { .. } => 1,
        AuditRefusal::Breaks(_) => 9,
    }
}

pub(crate) fn refused_text(
    alloc: Global,
    number: u64,
    refusal: &AuditRefusal,
) -> Result<Vec<u8>, NoMemory>
    ensures { IfOk result (λ text. text.items ≡ text_of_refused number refusal.now) }
{
    let text = format!(in alloc; "line {number}: {refusal}\n")?;
    Ok(text.into_bytes())
}

pub(crate) fn summary_text(alloc: Global, counts: &Summary) -> Result<Vec<u8>, NoMemory>
    ensures { IfOk result (λ text. text.items ≡ text_of_summary counts.now) }
{
    let Summary {
        items,
        unsent,
        watches,
    } = *counts;
    let text = format!(in alloc; "items {items}\nunsent {unsent}\nwatches {watches}\n")?;
    Ok(text.into_bytes())
}
