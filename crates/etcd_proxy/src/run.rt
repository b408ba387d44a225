ghost use Rattle.std.specs.Prelude.{◌≡◌, ◌≢◌, ◌↔◌, ℕ, List, String, Some, None, map};
ghost use Rattle.std.specs.String.{string_bytes};
ghost use Rattle.std.specs.declared.alloc.Global.{Global as Heap};
ghost use Rattle.outside.specs.Faults.{Rose};
ghost use Rattle.proxy_service.specs.Service.{seen};
ghost use Rattle.shop_service.specs.Service.{seen as shop_seen};
ghost use Rattle.replay_input.specs.Reads.{ReadsInTurn};
ghost use Rattle.audit_input.specs.Audits.{IsKeptTranscript};
ghost use Rattle.etcd_proxy.specs.Audit.{AuditEnds};
ghost use Rattle.etcd_proxy.specs.Explained.{AuditExplains};
ghost use Rattle.etcd_proxy.specs.Generated.{Generates};
ghost use Rattle.etcd_proxy.specs.Run.{Runs, Tells, Prints, IsWholeScript};
ghost use Rattle.etcd_proxy.specs.Start.{Starts, moment, options_of};
ghost use Rattle.etcd_proxy.specs.Store.{Stores, address_of};
ghost use Rattle.etcd_proxy.specs.Texts.{usage_text, help_text, version_text};
ghost use Rattle.etcd_proxy.specs.Words.{command_of};

use crate::ending::run_ending;
use crate::start::start;
use crate::store::store;
use crate::words::{Command, address_of, options_of};
use outside::{Host, Sink, Source, Spawner};
use proxy_parts::Place;
use std::alloc::Global;
use std::sync::Wait;
use store_serve::StorePlace;

/// Does what the words ask for, and answers the exit status. Under `grpc-proxy start` and `store ADDRESS` it serves, and may wait; all other
/// words are those of `run_ending`.
///
/// The statuses are those of `run_ending`, and two under these words alone. 7: it can't listen, or no further client can come. 8, under
/// `grpc-proxy start` alone: a worker or the ticker wasn't started.
#[tactic(auto, using(crate::proofs::Stored::stored_is_no_command))]
pub fn run<
    R: Wait,
    S: Source,
    K: Sink,
    E: Sink,
    H: Host,
    P: Spawner<Pass = Place, Conn = H::Conn>,
    Q: Spawner<Pass = StorePlace, Conn = H::Conn>,
>(
    rt: &R,
    alloc: Global,
    words: &[String],
    input: &mut S,
    output: &mut K,
    errors: &mut E,
    host: &mut H,
    spawner: &mut P,
    shops: &mut Q,
) -> u8
    // Under `grpc-proxy start` the settings that the options name are served, or it is told why not.
    ensures starts { (options : List (String Heap)) → options_of words.now ≡ Some options → Starts (map string_bytes options)
        (moment (K.written output.old) (K.faults output.old) (E.written errors.old) (E.faults errors.old) (seen (H.made host.old) (H.faults host.old) (P.handed spawner.old) (P.faults spawner.old)))
        (moment (K.written output.new) (K.faults output.new) (E.written errors.new) (E.faults errors.new) (seen (H.made host.new) (H.faults host.new) (P.handed spawner.new) (P.faults spawner.new))) result }

    // Under `store ADDRESS` a store with nothing in it is served at the address, each client by a connection of its own at one hub, and the
    // parts of a proxy aren't started; nor are connections to a store under other words.
    ensures stores { (address : List ℕ) → address_of words.now ≡ Some address → Stores address
        (E.written errors.old) (E.written errors.new) (E.faults errors.old) (E.faults errors.new)
        (shop_seen (H.made host.old) (H.faults host.old) (Q.handed shops.old)) (shop_seen (H.made host.new) (H.faults host.new) (Q.handed shops.new)) result }
    ensures stores_alone { options_of words.now ≡ None → spawner.new ≡ spawner.old }
    ensures starts_alone { address_of words.now ≡ None → shops.new ≡ shops.old }

    // Under all other words nobody is served, and it is as with `run_ending`.
    ensures unserved { options_of words.now ≡ None → address_of words.now ≡ None → host.new ≡ host.old }
    ensures usage { options_of words.now ≡ None → address_of words.now ≡ None → ((result ≡ 2) ↔ (command_of words.now ≡ None)) }
    ensures tells_usage { options_of words.now ≡ None → address_of words.now ≡ None → command_of words.now ≡ None
        → Tells (E.written errors.old) (E.written errors.new) (E.faults errors.old) (E.faults errors.new) usage_text }
    ensures unwritten { options_of words.now ≡ None → command_of words.now ≡ None → output.new ≡ output.old }

    // The texts are written to the output, and without `replay` or `audit` nothing is read.
    ensures help { command_of words.now ≡ Some Command.Help
        → Prints (K.written output.old) (K.written output.new) (K.faults output.old) (K.faults output.new)
        (E.written errors.old) (E.written errors.new) (E.faults errors.old) (E.faults errors.new) help_text result }
    ensures version { command_of words.now ≡ Some Command.Version
        → Prints (K.written output.old) (K.written output.new) (K.faults output.old) (K.faults output.new)
        (E.written errors.old) (E.written errors.new) (E.faults errors.old) (E.faults errors.new) version_text result }
    ensures unread { command_of words.now ≢ Some Command.Replay → command_of words.now ≢ Some Command.Audit → command_of words.now ≢ Some Command.Explain → input.new ≡ input.old }

    // A script's transcript is written; each of its answers is the store's, so is each message of a stream, each watch has received a
    // front of the history's events, and each ok reply to a keepalive is the answer of one that was sent behind it.
    ensures replays { command_of words.now ≡ Some Command.Replay
        → Runs (S.left input.old) (S.left input.new) (K.written output.old) (K.written output.new)
        (E.written errors.old) (E.written errors.new) (E.faults errors.old) (E.faults errors.new) result }

    // It is read in pieces, each only where no line of the bytes before it is refused.
    ensures in_turn { command_of words.now ≡ Some Command.Replay → ReadsInTurn S.reads S.left input.old input.new }

    // A script within the limits whose lines can all be taken is never refused: nothing but a stream that fails or want of memory keeps
    // it from its end.
    ensures complete { command_of words.now ≡ Some Command.Replay → IsWholeScript (S.left input.old) → (result ≢ 1) × (result ≢ 6) }

    // A transcript is audited: where each line is the text of an item and no item breaks a rule, its counts are written, and it has what a
    // replay's transcript has; else the first line with a refusal is told.
    ensures audits { command_of words.now ≡ Some Command.Audit
        → AuditEnds (S.left input.old) (S.left input.new) (K.written output.old) (K.written output.new) (K.faults output.old) (K.faults output.new)
        (E.written errors.old) (E.written errors.new) (E.faults errors.old) (E.faults errors.new) result }

    // With `--explain` it is the same, but that behind the fault of a refused line more is told of it.
    ensures explains { command_of words.now ≡ Some Command.Explain
        → AuditExplains (S.left input.old) (S.left input.new) (K.written output.old) (K.written output.new) (K.faults output.old) (K.faults output.new)
        (E.written errors.old) (E.written errors.new) (E.faults errors.old) (E.faults errors.new) result }

    // The texts of items that keep the rules are never refused, within the limits.
    ensures audits_all { command_of words.now ≡ Some Command.Audit → IsKeptTranscript (S.left input.old) → (result ≢ 1) × (result ≢ 9) × (result ≢ 6) }
    ensures explains_all { command_of words.now ≡ Some Command.Explain → IsKeptTranscript (S.left input.old) → (result ≢ 1) × (result ≢ 9) × (result ≢ 6) }

    // The counts of a generated script's transcript are written.
    ensures generates { (number : ℕ) → command_of words.now ≡ Some (Command.Generate number)
        → Generates (K.written output.old) (K.written output.new) (K.faults output.old) (K.faults output.new)
        (E.written errors.old) (E.written errors.new) (E.faults errors.old) (E.faults errors.new) number result }

    ensures read_fault { result ≡ 3 → Rose (S.faults input.old) (S.faults input.new) }
    ensures write_fault { result ≡ 4 → Rose (K.faults output.old) (K.faults output.new) }
{
    match options_of(words) {
        Some(options) => start(rt, alloc, options, output, errors, host, spawner),
        None => match address_of(words) {
            Some(address) => store(rt, alloc, address, errors, host, shops),
            None => run_ending(alloc, words, input, output, errors),
        },
    }
}
