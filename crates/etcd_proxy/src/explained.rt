// `audit --explain`: as `audit`, and behind the fault of a refused line it says more of it.
ghost use Rattle.std.specs.Prelude.{◌≡◌, ◌≢◌, IfOk};
ghost use Rattle.audit_input.specs.Audits.{IsKeptTranscript};
ghost use Rattle.etcd_proxy.specs.Audit.{refused_text as text_of_refused};
ghost use Rattle.etcd_proxy.specs.Explained.{AuditExplains, BeginsWith};
ghost use Rattle.outside.specs.Faults.{Rose};

use crate::audited::{no_memory, refused_status, refused_text, summary_text};
use crate::told::{print, tell};
use audit_explained::explanation;
use audit_input::{AuditEnding, AuditRefusal, AuditStop, audit_kept};
use etcd_types::NoMemory;
use outside::{Sink, Source};
use std::alloc::Global;

/// Audits the transcript that the input gives, explains the line that is refused, and answers the exit status: that of `audit`.
pub(crate) fn explain<S: Source, K: Sink, E: Sink>(
    alloc: Global,
    input: &mut S,
    output: &mut K,
    errors: &mut E,
) -> u8
    ensures ends { AuditExplains (S.left input.old) (S.left input.new) (K.written output.old) (K.written output.new) (K.faults output.old) (K.faults output.new)
        (E.written errors.old) (E.written errors.new) (E.faults errors.old) (E.faults errors.new) result }
    ensures complete { IsKeptTranscript (S.left input.old) → (result ≢ 1) × (result ≢ 9) × (result ≢ 6) }
    ensures no_usage { result ≢ 2 }
    ensures read_fault { result ≡ 3 → Rose (S.faults input.old) (S.faults input.new) }
    ensures write_fault { result ≡ 4 → Rose (K.faults output.old) (K.faults output.new) }
{
    let mut read = Some(Vec::new(alloc));
    explain_kept(alloc, input, &mut read, output, errors)
}

/// The same, and it keeps what it reads.
fn explain_kept<S: Source, K: Sink, E: Sink>(
    alloc: Global,
    input: &mut S,
    read: &mut Option<Vec<u8>>,
    output: &mut K,
    errors: &mut E,
) -> u8
    ensures ends { AuditExplains (S.left input.old) (S.left input.new) (K.written output.old) (K.written output.new)
        (K.faults output.old) (K.faults output.new)
        (E.written errors.old) (E.written errors.new) (E.faults errors.old) (E.faults errors.new) result }
    ensures complete { IsKeptTranscript (S.left input.old) → (result ≢ 1) × (result ≢ 9) × (result ≢ 6) }
    ensures no_usage { result ≢ 2 }
    ensures read_fault { result ≡ 3 → Rose (S.faults input.old) (S.faults input.new) }
    ensures write_fault { result ≡ 4 → Rose (K.faults output.old) (K.faults output.new) }
{
    match audit_kept(alloc, input, read) {
        Ok((AuditEnding::Open, counts)) => match summary_text(alloc, &counts) {
            Ok(text) => print(output, errors, text.as_slice()),
            Err(NoMemory) => no_memory(errors),
        },
        Ok((AuditEnding::Refused { number, refusal }, _)) => {
            match explained_text(alloc, number, &refusal, read) {
                Ok(text) => {
                    tell(errors, text.as_slice());
                    refused_status(&refusal)
                }
                Err(NoMemory) => no_memory(errors),
            }
        }
        Ok((AuditEnding::PastLimit, _)) => {
            tell(errors, b"limit\n");
            6
        }
        Err(AuditStop::ReadFault) => {
            tell(errors, b"read fault\n");
            3
        }
        Err(AuditStop::NoMemory) => no_memory(errors),
    }
}

/// The line of the fault, and behind it what is said of it. Where memory was wanting for that, it is the line alone.
fn explained_text(
    alloc: Global,
    number: u64,
    refusal: &AuditRefusal,
    read: &Option<Vec<u8>>,
) -> Result<Vec<u8>, NoMemory>
    ensures { IfOk result (λ text. BeginsWith text.items (text_of_refused number refusal.now)) }
{
    let mut text = refused_text(alloc, number, refusal)?;
    if let Some(read) = read {
        if let Ok(more) = explanation(alloc, read.as_slice(), number, refusal) {
            push_explanation(&mut text, more.as_slice());
        }
    }
    Ok(text)
}

/// Puts what is said of it behind the fault's line, where there is memory for that.
fn push_explanation(text: &mut Vec<u8>, explanation: &[u8])
    ensures { BeginsWith text.new.items text.old.items }
{
    match text.extend_from_slice(explanation) {
        Ok(()) | Err(_) => {}
    }
}
