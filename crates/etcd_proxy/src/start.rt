// What `grpc-proxy start` does with its options.
ghost use Rattle.std.specs.Prelude.{◌≡◌, ◌++◌, ◌⊎◌, map, true, IfOk, MatchResult};
ghost use Rattle.std.specs.String.{string_bytes};
ghost use Rattle.start_words.specs.Start.{Within};
ghost use Rattle.proxy_service.specs.Service.{seen};
ghost use Rattle.etcd_proxy.specs.Run.{Tells};
ghost use Rattle.etcd_proxy.specs.Start.{is_one, IsLine, Refuses, ServesAs, Starts, Wants, form_of, moment, service_of, status_of_end, text_of_end};
ghost use Rattle.etcd_proxy.specs.Texts.{usage_text};

use crate::told::{USAGE, print, tell};
use core_model::Settings;
use etcd_types::NoMemory;
use outside::{Host, Sink, Spawner};
use proxy_parts::{Place, RefusalForm};
use proxy_service::{ServeEnd, Service, serve};
use start_words::{StartFault, StartSettings, read_start, serving_line, wrong_line};
use std::alloc::Global;
use std::sync::Wait;

/// So many bytes have a MiB.
const MIB: usize = 1_048_576;

/// Serves as the options say, and answers the exit status.
pub(crate) fn start<R: Wait, K: Sink, E: Sink, H: Host, P: Spawner<Pass = Place, Conn = H::Conn>>(
    rt: &R,
    alloc: Global,
    options: &[String],
    output: &mut K,
    errors: &mut E,
    host: &mut H,
    spawner: &mut P,
) -> u8
    ensures { Starts (map string_bytes options.now)
        (moment (K.written output.old) (K.faults output.old) (E.written errors.old) (E.faults errors.old) (seen (H.made host.old) (H.faults host.old) (P.handed spawner.old) (P.faults spawner.old)))
        (moment (K.written output.new) (K.faults output.new) (E.written errors.new) (E.faults errors.new) (seen (H.made host.new) (H.faults host.new) (P.handed spawner.new) (P.faults spawner.new))) result }
{
    match read_start(alloc, options) {
        Ok(settings) => serve_as(rt, alloc, settings, errors, host, spawner),
        Err(StartFault::Help(text)) => print(output, errors, text.as_bytes()),
        Err(StartFault::Usage(text)) => refuse(errors, one_line(alloc, text.as_bytes())),
        Err(StartFault::Wrong(wrong)) => refuse(errors, wrong_line(alloc, &wrong)),
        Err(StartFault::NoMemory) => want(errors),
    }
}

/// Serves with these settings, and says what is served where once it listens.
fn serve_as<R: Wait, E: Sink, H: Host, P: Spawner<Pass = Place, Conn = H::Conn>>(
    rt: &R,
    alloc: Global,
    settings: StartSettings,
    errors: &mut E,
    host: &mut H,
    spawner: &mut P,
) -> u8
    requires { Within settings }
    ensures { ServesAs settings (E.written errors.old) (E.written errors.new) (E.faults errors.old) (E.faults errors.new)
        (seen (H.made host.old) (H.faults host.old) (P.handed spawner.old) (P.faults spawner.old))
        (seen (H.made host.new) (H.faults host.new) (P.handed spawner.new) (P.faults spawner.new)) result
        ⊎ (Wants (E.written errors.old) (E.written errors.new) (E.faults errors.old) (E.faults errors.new) result
        × (seen (H.made host.new) (H.faults host.new) (P.handed spawner.new) (P.faults spawner.new) ≡ seen (H.made host.old) (H.faults host.old) (P.handed spawner.old) (P.faults spawner.old))) }
{
    let Ok(line) = serving_line(alloc, &settings) else {
        return want(errors);
    };
    let end = serve(
        rt,
        alloc,
        service_of(settings),
        host,
        spawner,
        line.as_slice(),
        errors,
    );
    end_with(errors, end)
}

/// How refusals are written.
fn form_of(etcd_errors: bool) -> RefusalForm
    ensures { result ≡ form_of etcd_errors }
{
    if etcd_errors {
        RefusalForm::Etcd
    } else {
        RefusalForm::Mapping
    }
}

/// What is served with these settings.
fn service_of(settings: StartSettings) -> Service
    requires { Within settings }
    ensures { result ≡ service_of settings }
{
    let StartSettings {
        endpoints,
        listen,
        namespace,
        leasing,
        workers,
        session_ttl,
        message_limit,
        state_file: _,
        stop_at_end: _,
        max_connections: _,
        advertise: _,
        etcd_errors,
        metrics: _,
    } = settings;
    Service {
        core: Settings {
            members: endpoints.as_slice().len() as u32,
            namespace,
            leasing,
            ttl: session_ttl,
        },
        hosts: endpoints,
        listen,
        workers: workers as u32,
        message_limit: message_limit as usize * MIB,
        form: form_of(etcd_errors),
    }
}

/// Tells why a server ended, and answers the status for it.
pub(crate) fn end_with<E: Sink>(errors: &mut E, end: ServeEnd) -> u8
    ensures status { result ≡ status_of_end end }
    ensures tells { Tells (E.written errors.old) (E.written errors.new) (E.faults errors.old) (E.faults errors.new) (text_of_end end) }
{
    match end {
        ServeEnd::Stopped => {
            tell(errors, b"");
            0
        }
        ServeEnd::NoMemory => want(errors),
        ServeEnd::ListenerFault => {
            tell(errors, b"listener fault\n");
            7
        }
        ServeEnd::SpawnerFault => {
            tell(errors, b"spawner fault\n");
            8
        }
    }
}

/// Tells why the options are refused, and how the command is used. Memory may have been wanting for the line.
fn refuse<E: Sink>(errors: &mut E, line: Result<Vec<u8>, NoMemory>) -> u8
    ensures { MatchResult line
        (λ why. Refuses (E.written errors.old) (E.written errors.new) (E.faults errors.old) (E.faults errors.new) why.items result
        ⊎ Wants (E.written errors.old) (E.written errors.new) (E.faults errors.old) (E.faults errors.new) result)
        (λ _. Wants (E.written errors.old) (E.written errors.new) (E.faults errors.old) (E.faults errors.new) result) }
{
    match line {
        Ok(why) => match with_usage(why) {
            Ok(text) => {
                tell(errors, text.as_slice());
                2
            }
            Err(NoMemory) => want(errors),
        },
        Err(NoMemory) => want(errors),
    }
}

/// The line, and the usage behind it.
fn with_usage(line: Vec<u8>) -> Result<Vec<u8>, NoMemory>
    ensures { IfOk result (λ text. text.items ≡ line.items ++ usage_text) }
{
    let mut text = line;
    text.extend_from_slice(USAGE)?;
    Ok(text)
}

/// The first paragraph of a text, as one line. What stands behind it in a refusal of options is how they are used.
fn one_line(alloc: Global, text: &[u8]) -> Result<Vec<u8>, NoMemory>
    ensures { IfOk result (λ line. IsLine line.items) }
{
    let mut line = first_paragraph(alloc, text)?;
    line.push(b'\n')?;
    Ok(line)
}

/// The bytes up to the first empty line, with one blank for each line feed and the blanks behind it.
#[tactic(auto, using(crate::proofs::Lines::still_one))]
fn first_paragraph(alloc: Global, text: &[u8]) -> Result<Vec<u8>, NoMemory>
    ensures { IfOk result (λ line. is_one line.items ≡ true) }
{
    let mut line = Vec::new(alloc);
    let mut is_broken = false;
    for byte in text {
        if *byte == b'\n' {
            if is_broken {
                break;
            }
            is_broken = true;
        } else if !is_broken {
            line.push(*byte)?;
        } else if *byte != b' ' {
            line.extend_from_slice(&[b' ', *byte])?;
            is_broken = false;
        }
    }
    Ok(line)
}

/// Memory was wanting.
pub(crate) fn want<E: Sink>(errors: &mut E) -> u8
    ensures { Wants (E.written errors.old) (E.written errors.new) (E.faults errors.old) (E.faults errors.new) result }
{
    tell(errors, b"no memory\n");
    5
}
