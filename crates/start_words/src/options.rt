ghost use Rattle.std.specs.Prelude.{◌≡◌, ◌∷◌, [], IfOk, false, true};
ghost use Rattle.clap.specs.Simple.{app_of, with_rule};
ghost use Rattle.clap.specs.Walk.{rule_of};
ghost use Rattle.start_words.specs.Start as spec;

use clap::{Arg, ArgAction, Command};
use std::alloc::{AllocError, Global};

/// An option with one value.
fn option<'a>(alloc: Global, name: &'a str, placeholder: &'a str, help: &'a str) -> Arg<'a>
    ensures rule { rule_of result ≡ spec.option_rule name.entry.now }
    ensures own { result.global ≡ false }
{
    Arg::new(alloc, name)
        .long(name)
        .value_name(placeholder)
        .help(help)
        .action(ArgAction::Set)
}

/// An option that has to be given.
fn required<'a>(alloc: Global, name: &'a str, placeholder: &'a str, help: &'a str) -> Arg<'a>
    ensures rule { rule_of result ≡ spec.required_rule name.entry.now }
    ensures own { result.global ≡ false }
{
    option(alloc, name, placeholder, help).required(true)
}

/// An option that has a value where it isn't given.
fn with_default<'a>(arg: Arg<'a>, value: &'a str) -> Arg<'a>
    ensures rule { rule_of result ≡ record (rule_of arg.entry) { defaults = value.entry.now ∷ [] } }
    ensures own { result.global ≡ arg.entry.global }
{
    arg.default_value(value)
}

/// The command without options. Its words begin with no program's name.
fn bare<'a>(alloc: Global) -> Command<'a>
    ensures { app_of result ≡ spec.bare_app }
{
    Command::new(alloc, "start").no_binary_name(true)
}

/// The command with an option more.
fn with_option<'a>(command: Command<'a>, arg: Arg<'a>) -> Result<Command<'a>, AllocError>
    requires { arg.global ≡ false }
    ensures { IfOk result (λ more. app_of more ≡ with_rule (app_of command.entry) (rule_of arg.entry)) }
{
    Ok(command.arg(arg)?)
}

/// An option without a value.
fn flag<'a>(alloc: Global, name: &'a str, help: &'a str) -> Arg<'a>
    ensures rule { rule_of result ≡ spec.flag_rule name.entry.now }
    ensures own { result.global ≡ false }
{
    Arg::new(alloc, name)
        .long(name)
        .help(help)
        .action(ArgAction::SetTrue)
}

/// The members of the cluster, where clients are served, and what stands before keys.
fn with_places<'a>(alloc: Global) -> Result<Command<'a>, AllocError>
    ensures { IfOk result (λ command. app_of command ≡ spec.with_rules spec.bare_app spec.place_rules) }
{
    let endpoints = required(
        alloc,
        "endpoints",
        "HOST:PORT,..",
        "The members of the cluster, 1 to 9",
    );
    let listen = option(
        alloc,
        "listen-addr",
        "HOST:PORT",
        "Where clients are served",
    );
    let listen = with_default(listen, "127.0.0.1:23790");
    let namespace = option(
        alloc,
        "namespace",
        "TEXT",
        "What stands before each key in the cluster",
    );
    let namespace = with_default(namespace, "");
    let command = with_option(bare(alloc), endpoints)?;
    let command = with_option(command, listen)?;
    Ok(with_option(command, namespace)?)
}

/// The same, with what stands before the keys of ownership, and how calls are made.
fn with_calls<'a>(alloc: Global) -> Result<Command<'a>, AllocError>
    ensures { IfOk result (λ command. app_of command ≡ spec.with_rules (spec.with_rules spec.bare_app spec.place_rules) spec.more_rules) }
{
    let leasing = option(
        alloc,
        "leasing-prefix",
        "TEXT",
        "What stands before the keys of ownership; none: no leasing",
    );
    let leasing = with_default(leasing, "");
    let workers = option(
        alloc,
        "workers",
        "NUMBER",
        "How many calls are out at once, 1 to 64",
    );
    let workers = with_default(workers, "8");
    let ttl = option(
        alloc,
        "session-ttl",
        "SECONDS",
        "How long a session lives that isn't renewed, 5 to 3600",
    );
    let ttl = with_default(ttl, "60");
    let message = option(
        alloc,
        "message-limit",
        "MIB",
        "How long a message of a watch may be that a member sends, 8 to 64",
    );
    let message = with_default(message, "64");
    let command = with_places(alloc)?;
    let command = with_option(command, leasing)?;
    let command = with_option(command, workers)?;
    let command = with_option(command, ttl)?;
    Ok(with_option(command, message)?)
}

/// The same, with how sessions and the server end.
fn with_ends<'a>(alloc: Global) -> Result<Command<'a>, AllocError>
    ensures { IfOk result (λ command. app_of command ≡ spec.with_rules (spec.with_rules (spec.with_rules spec.bare_app spec.place_rules) spec.more_rules) spec.end_rules) }
{
    let state = option(
        alloc,
        "state-file",
        "PATH",
        "Keeps the numbers of sessions, so that the next start ends them; none: no file",
    );
    let state = with_default(state, "");
    let stop = flag(
        alloc,
        "stop-at-end",
        "Stops in order once the standard input has ended",
    );
    let command = with_calls(alloc)?;
    let command = with_option(command, state)?;
    Ok(with_option(command, stop)?)
}

/// The same, with how many clients there may be, and what they are told.
fn with_clients<'a>(alloc: Global) -> Result<Command<'a>, AllocError>
    ensures { IfOk result (λ command. app_of command ≡ spec.with_rules (spec.with_rules (spec.with_rules (spec.with_rules spec.bare_app spec.place_rules) spec.more_rules) spec.end_rules) spec.client_rules) }
{
    let connections = option(
        alloc,
        "max-connections",
        "NUMBER",
        "How many clients are connected at once, 1 to 16384",
    );
    let connections = with_default(connections, "4096");
    let advertise = option(
        alloc,
        "advertise-client-url",
        "URL",
        "Where clients are told to come; none: where they are served",
    );
    let advertise = with_default(advertise, "");
    let errors = flag(
        alloc,
        "etcd-errors",
        "Writes refusals as etcd does, with a field `error`",
    );
    let command = with_ends(alloc)?;
    let command = with_option(command, connections)?;
    let command = with_option(command, advertise)?;
    Ok(with_option(command, errors)?)
}

/// The command behind the word `start`.
pub(crate) fn start_command<'a>(alloc: Global) -> Result<Command<'a>, AllocError>
    ensures { IfOk result (λ command. app_of command ≡ spec.start_app) }
{
    let metrics = option(
        alloc,
        "metrics-addr",
        "HOST:PORT",
        "Where figures of the proxy are shown; none: nowhere",
    );
    let metrics = with_default(metrics, "");
    let command = with_clients(alloc)?;
    Ok(with_option(command, metrics)?)
}
