ghost use Rattle.std.specs.Prelude.{◌≡◌, [], map, IfOk, IfErr, OnOk};
ghost use Rattle.clap.specs.Faults.{fault_of};
ghost use Rattle.clap.specs.Kinds.{HasKind};
ghost use Rattle.clap.specs.Simple.{matches_of};
ghost use Rattle.clap.specs.Walk.{rows_of};
ghost use Rattle.clap.specs.Matches.{found_of};
ghost use Rattle.clap.specs.Values.{kind_of};
ghost use Rattle.start_words.specs.Start.{Gives, Within, is_set, settings_of, start_app, value_of};
ghost use Rattle.start_words.specs.Reads.{Reads, IsRefusal};

use crate::fault::StartOption;
use crate::metrics::metrics_of;
use crate::options::start_command;
use crate::settings::StartSettings;
use crate::start_fault::StartFault;
use crate::values::{endpoints_of, listen_of, number_of};
use crate::wrong::ValueFault;
use clap::error::ErrorKind;
use clap::{ArgMatches, Error};
use etcd_types::Bytes;
use std::alloc::Global;
use std::convert::AsStr;

/// The value of an option.
#[tactic(auto, using(crate::proofs::ValueLemmas::value_rows))]
fn value<'a>(matches: &ArgMatches<'a>, name: &str) -> &'a [u8]
    ensures { result.now ≡ value_of name.now (rows_of (found_of matches.now)) }
{
    match matches.get_str(name) {
        Some(text) => text.as_bytes(),
        None => &[],
    }
}

/// Whether an option without a value is given.
fn is_set(matches: &ArgMatches, name: &str) -> bool
    ensures { result ≡ is_set name.now (rows_of (found_of matches.now)) }
{
    value(matches, name) == b"true".as_slice()
}

/// The settings that the values of the options are.
fn settings(alloc: Global, matches: &ArgMatches) -> Result<StartSettings, ValueFault>
    ensures within { IfOk result Within }
    ensures value { Gives result (settings_of (rows_of (found_of matches.now))) }
{
    let endpoints = endpoints_of(alloc, value(matches, "endpoints"))?;
    let listen = listen_of(alloc, value(matches, "listen-addr"))?;
    let workers = number_of(
        alloc,
        StartOption::Workers,
        1,
        64,
        value(matches, "workers"),
    )?;
    let session_ttl = number_of(
        alloc,
        StartOption::SessionTtl,
        5,
        3_600,
        value(matches, "session-ttl"),
    )?;
    let message_limit = number_of(
        alloc,
        StartOption::MessageLimit,
        8,
        64,
        value(matches, "message-limit"),
    )?;
    let max_connections = number_of(
        alloc,
        StartOption::MaxConnections,
        1,
        16_384,
        value(matches, "max-connections"),
    )?;
    let metrics = metrics_of(alloc, value(matches, "metrics-addr"))?;
    let namespace = Bytes::from_slice(alloc, value(matches, "namespace"))?;
    let leasing = Bytes::from_slice(alloc, value(matches, "leasing-prefix"))?;
    let state_file = Bytes::from_slice(alloc, value(matches, "state-file"))?;
    let advertise = Bytes::from_slice(alloc, value(matches, "advertise-client-url"))?;
    Ok(StartSettings {
        endpoints,
        listen,
        namespace,
        leasing,
        workers,
        session_ttl,
        message_limit,
        state_file,
        stop_at_end: is_set(matches, "stop-at-end"),
        max_connections,
        advertise,
        etcd_errors: is_set(matches, "etcd-errors"),
        metrics,
    })
}

/// What clap's refusal of the words is.
fn refused(alloc: Global, error: &Error) -> StartFault
    ensures { IsRefusal (kind_of error.now) result }
{
    let Ok(text) = format!(in alloc; "{error}") else {
        return StartFault::NoMemory;
    };
    match error.kind() {
        ErrorKind::OutOfMemory => StartFault::NoMemory,
        ErrorKind::DisplayHelp => StartFault::Help(text),
        _ => StartFault::Usage(text),
    }
}

/// The values that clap finds in the words.
fn parsed<'a, S: AsStr>(alloc: Global, words: &'a [S]) -> Result<ArgMatches<'a>, Error>
    ensures taken { OnOk result (fault_of start_app (map S.text words.entry.now) ≡ []) }
    ensures rows { IfOk result (λ matches. rows_of (found_of matches) ≡ matches_of start_app (map S.text words.entry.now)) }
    ensures fault { IfErr result (HasKind (fault_of start_app (map S.text words.entry.now))) }
{
    let command = start_command(alloc)?;
    Ok(command.try_get_matches_from(words)?)
}

/// Reads the words behind `grpc-proxy start`: the settings that they name.
#[tactic(auto, using(crate::proofs::Refusals::refusal_reads))]
pub fn read_start<S: AsStr>(alloc: Global, words: &[S]) -> Result<StartSettings, StartFault>
    ensures within { IfOk result Within }
    ensures reads { Reads (map S.text words.now) result }
{
    match parsed(alloc, words) {
        Ok(matches) => Ok(settings(alloc, &matches)?),
        Err(error) => Err(refused(alloc, &error)),
    }
}
