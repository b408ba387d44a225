// What words do that serve nobody. An unproved build that serves alone has a shorter text in its place (tools/one_crate.py).
ghost use Rattle.std.specs.Prelude.{◌≡◌, ◌≢◌, ◌≤◌, ◌↔◌, ℕ, Some, None, Err, IfOk, codes};
ghost use Rattle.std.specs.Io.KnownBytes.{Appends};
ghost use Rattle.outside.specs.Faults.{Rose};
ghost use Rattle.outside.specs.Streams.{WritesFront};
ghost use Rattle.replay_generated.specs.declared.summary.Summary.{Summary as Counts};
ghost use Rattle.replay_input.specs.Reads.{ReadsInTurn};
ghost use Rattle.audit_input.specs.Audits.{IsKeptTranscript};
ghost use Rattle.etcd_proxy.specs.Audit.{AuditEnds};
ghost use Rattle.etcd_proxy.specs.Explained.{AuditExplains};
ghost use Rattle.etcd_proxy.specs.Generated.{Generates, IsSummaryOf, summary_text};
ghost use Rattle.etcd_proxy.specs.Run.{Runs, Tells, Prints, IsWholeScript, status_of, text_of_status, refused_text};
ghost use Rattle.etcd_proxy.specs.Texts.{usage_text, help_text, version_text};
ghost use Rattle.etcd_proxy.specs.Words.{command_of};

use crate::audited::audit;
use crate::explained::explain;
use crate::told::{USAGE, print, tell};
use crate::words::{Command, NoWords, command_of};
use etcd_types::NoMemory;
use outside::{Sink, Source};
use proxy_core::Core;
use replay_generated::{Summary, generated};
use replay_input::{Ending, LineRefusal, Stop, replay_script};
use std::alloc::Global;

const HELP: &[u8] = b"\
etcd_proxy serves clients of an etcd cluster, and replays scripted schedules of such proxies over a small store.

usage: etcd_proxy replay < SCRIPT
       etcd_proxy replay --generate N
       etcd_proxy audit < TRANSCRIPT
       etcd_proxy store ADDRESS
       etcd_proxy grpc-proxy start OPTIONS

  replay             reads a script from the input and writes its transcript to the output
  --generate N       replays the script that is generated from N, 1 to 20000, and writes counts of its transcript
  audit              reads a transcript from the input, says whether it keeps the rules of one, and writes its counts
  --explain          behind audit: explains the line that is refused
  store ADDRESS      serves a store of one member with nothing in it, at host:port; nothing is kept at its end
  grpc-proxy start   serves; with --help it shows its options
  --help             shows this
  --version          shows the version
";

const VERSION: &[u8] = b"etcd_proxy 0.1.0\n";

/// Does what words ask for that serve nobody, and answers the exit status.
///
/// 0: the script was read to its end and its transcript is written. 1: a line is refused. 2: the words are none of the
/// forms. 3: the input failed. 4: the output failed. 5: memory was wanting. 6: a line passes a limit. 9: under `audit`, an
/// item breaks a rule. The words are those of the command line after the program's name.
pub fn run_ending<S: Source, K: Sink, E: Sink>(
    alloc: Global,
    words: &[String],
    input: &mut S,
    output: &mut K,
    errors: &mut E,
) -> u8
    // Status 2 comes exactly where the words are none of the forms, and then the usage is told and nothing is written.
    ensures usage { (result ≡ 2) ↔ (command_of words.now ≡ None) }
    ensures tells_usage { command_of words.now ≡ None
        → Tells (E.written errors.old) (E.written errors.new) (E.faults errors.old) (E.faults errors.new) usage_text }
    ensures unwritten { command_of words.now ≡ None → output.new ≡ output.old }

    // The texts are written to the output, and without `replay` or `audit` nothing is read.
    ensures help { command_of words.now ≡ Some Command.Help
        → Prints (K.written output.old) (K.written output.new) (K.faults output.old) (K.faults output.new)
        (E.written errors.old) (E.written errors.new) (E.faults errors.old) (E.faults errors.new) help_text result }
    ensures version { command_of words.now ≡ Some Command.Version
        → Prints (K.written output.old) (K.written output.new) (K.faults output.old) (K.faults output.new)
        (E.written errors.old) (E.written errors.new) (E.faults errors.old) (E.faults errors.new) version_text result }
    ensures unread { command_of words.now ≢ Some Command.Replay → command_of words.now ≢ Some Command.Audit → command_of words.now ≢ Some Command.Explain → input.new ≡ input.old }

    // A script's transcript is written; each of its answers is the store's, so is each message of a stream, each watch has received a
    // front of the history's events, and each ok reply to a keepalive is the answer of one that was sent behind it.
    ensures replays { command_of words.now ≡ Some Command.Replay
        → Runs (S.left input.old) (S.left input.new) (K.written output.old) (K.written output.new)
        (E.written errors.old) (E.written errors.new) (E.faults errors.old) (E.faults errors.new) result }

    // It is read in pieces, each only where no line of the bytes before it is refused.
    ensures in_turn { command_of words.now ≡ Some Command.Replay → ReadsInTurn S.reads S.left input.old input.new }

    // A script within the limits whose lines can all be taken is never refused: nothing but a stream that fails or want of memory keeps
    // it from its end.
    ensures complete { command_of words.now ≡ Some Command.Replay → IsWholeScript (S.left input.old) → (result ≢ 1) × (result ≢ 6) }

    // A transcript is audited: where each line is the text of an item and no item breaks a rule, its counts are written, and it has what a
    // replay's transcript has; else the first line with a refusal is told.
    ensures audits { command_of words.now ≡ Some Command.Audit
        → AuditEnds (S.left input.old) (S.left input.new) (K.written output.old) (K.written output.new) (K.faults output.old) (K.faults output.new)
        (E.written errors.old) (E.written errors.new) (E.faults errors.old) (E.faults errors.new) result }

    // With `--explain` it is the same, but that behind the fault of a refused line more is told of it.
    ensures explains { command_of words.now ≡ Some Command.Explain
        → AuditExplains (S.left input.old) (S.left input.new) (K.written output.old) (K.written output.new) (K.faults output.old) (K.faults output.new)
        (E.written errors.old) (E.written errors.new) (E.faults errors.old) (E.faults errors.new) result }

    // The texts of items that keep the rules are never refused, within the limits.
    ensures audits_all { command_of words.now ≡ Some Command.Audit → IsKeptTranscript (S.left input.old) → (result ≢ 1) × (result ≢ 9) × (result ≢ 6) }
    ensures explains_all { command_of words.now ≡ Some Command.Explain → IsKeptTranscript (S.left input.old) → (result ≢ 1) × (result ≢ 9) × (result ≢ 6) }

    // The counts of a generated script's transcript are written.
    ensures generates { (number : ℕ) → command_of words.now ≡ Some (Command.Generate number)
        → Generates (K.written output.old) (K.written output.new) (K.faults output.old) (K.faults output.new)
        (E.written errors.old) (E.written errors.new) (E.faults errors.old) (E.faults errors.new) number result }

    ensures read_fault { result ≡ 3 → Rose (S.faults input.old) (S.faults input.new) }
    ensures write_fault { result ≡ 4 → Rose (K.faults output.old) (K.faults output.new) }
{
    match command_of(words) {
        None => {
            tell(errors, USAGE);
            2
        }
        Some(Command::Help) => print(output, errors, HELP),
        Some(Command::Version) => print(output, errors, VERSION),
        Some(Command::Replay) => replay(alloc, input, output, errors),
        Some(Command::Audit) => audit(alloc, input, output, errors),
        Some(Command::Explain) => explain(alloc, input, output, errors),
        Some(Command::Generate(number)) => generate(alloc, number, output, errors),
    }
}

/// Tells why the words of the command line can't be had, and answers the exit status: 2 where one of them isn't UTF-8, which
/// is none of the forms, and 5 where memory was wanting.
pub fn tell_no_words<E: Sink>(why: NoWords, errors: &mut E) -> u8
    ensures usage { why ≡ NoWords.NotText → (result ≡ 2)
        × Tells (E.written errors.old) (E.written errors.new) (E.faults errors.old) (E.faults errors.new) usage_text }
    ensures memory { why ≡ NoWords.NoMemory → (result ≡ 5)
        × Tells (E.written errors.old) (E.written errors.new) (E.faults errors.old) (E.faults errors.new) (text_of_status (Err Stop.NoMemory)) }
{
    match why {
        NoWords::NotText => {
            tell(errors, USAGE);
            2
        }
        NoWords::NoMemory => {
            tell(errors, b"no memory\n");
            5
        }
    }
}

fn replay<S: Source, K: Sink, E: Sink>(
    alloc: Global,
    input: &mut S,
    output: &mut K,
    errors: &mut E,
) -> u8
    ensures runs { Runs (S.left input.old) (S.left input.new) (K.written output.old) (K.written output.new)
        (E.written errors.old) (E.written errors.new) (E.faults errors.old) (E.faults errors.new) result }
    ensures in_turn { ReadsInTurn S.reads S.left input.old input.new }
    ensures complete { IsWholeScript (S.left input.old) → (result ≢ 1) × (result ≢ 6) }
    ensures no_usage { result ≢ 2 }
    ensures read_fault { result ≡ 3 → Rose (S.faults input.old) (S.faults input.new) }
    ensures write_fault { result ≡ 4 → Rose (K.faults output.old) (K.faults output.new) }
{
    let outcome = replay_script::<Core, S, K>(alloc, input, output);
    match text_of(alloc, &outcome) {
        Ok(text) => {
            tell(errors, text.as_slice());
            status_of(&outcome)
        }
        Err(NoMemory) => {
            tell(errors, b"no memory\n");
            5
        }
    }
}

/// Writes the counts of the script that is generated from this number.
fn generate<K: Sink, E: Sink>(alloc: Global, number: u64, output: &mut K, errors: &mut E) -> u8
    requires { number ≤ 20000 }
    ensures generates { Generates (K.written output.old) (K.written output.new) (K.faults output.old) (K.faults output.new)
        (E.written errors.old) (E.written errors.new) (E.faults errors.old) (E.faults errors.new) number result }
    ensures no_usage { result ≢ 2 }
    ensures no_read_fault { result ≢ 3 }
    ensures write_fault { result ≡ 4 → Rose (K.faults output.old) (K.faults output.new) }
{
    match counted(alloc, number) {
        Ok(text) => print(output, errors, text.as_slice()),
        Err(NoMemory) => {
            tell(errors, b"no memory\n");
            5
        }
    }
}

fn counted(alloc: Global, number: u64) -> Result<Vec<u8>, NoMemory>
    requires { number ≤ 20000 }
    ensures { IfOk result (λ text. (counts : Counts) × IsSummaryOf number counts × (text.items ≡ summary_text counts)) }
{
    let summary = generated::<Core>(alloc, number)?;
    Ok(summary_text(alloc, &summary)?)
}

fn summary_text(alloc: Global, summary: &Summary) -> Result<Vec<u8>, NoMemory>
    ensures { IfOk result (λ text. text.items ≡ summary_text summary.now) }
{
    let Summary {
        asked,
        replied,
        unsent,
        revision,
    } = *summary;
    let text = format!(in alloc;
        "asked {asked}\nreplied {replied}\nunsent {unsent}\nrevision {revision}\n"
    )?;
    Ok(text.into_bytes())
}

fn status_of(outcome: &Result<Ending, Stop>) -> u8
    ensures { result ≡ status_of outcome.now }
{
    match outcome {
        Ok(Ending::Open) => 0,
        Ok(Ending::Refused { .. }) => 1,
        Ok(Ending::PastLimit) => 6,
        Err(Stop::ReadFault) => 3,
        Err(Stop::WriteFault) => 4,
        Err(Stop::NoMemory) => 5,
    }
}

/// The text of a status.
fn text_of(alloc: Global, outcome: &Result<Ending, Stop>) -> Result<Vec<u8>, NoMemory>
    ensures { IfOk result (λ text. text.items ≡ text_of_status outcome.now) }
{
    match outcome {
        Ok(Ending::Open) => Ok(Vec::new(alloc)),
        Ok(Ending::Refused { number, refusal }) => Ok(refused_text(alloc, *number, refusal)?),
        Ok(Ending::PastLimit) => Ok(Vec::from_slice(alloc, b"limit\n")?),
        Err(Stop::ReadFault) => Ok(Vec::from_slice(alloc, b"read fault\n")?),
        Err(Stop::WriteFault) => Ok(Vec::from_slice(alloc, b"write fault\n")?),
        Err(Stop::NoMemory) => Ok(Vec::from_slice(alloc, b"no memory\n")?),
    }
}

fn refused_text(alloc: Global, number: u64, refusal: &LineRefusal) -> Result<Vec<u8>, NoMemory>
    ensures { IfOk result (λ text. text.items ≡ refused_text number refusal.now) }
{
    let text = format!(in alloc; "line {number}: {refusal}\n")?;
    Ok(text.into_bytes())
}
