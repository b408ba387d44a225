//! The command `etcd_proxy`: `grpc-proxy start`, which serves clients of a cluster, `store`, which serves a small store, and `replay`, which
//! runs a script over proxies and a small store, and writes what happened.
#![tactic(auto)]

mod asker;
mod audited;
mod busiest;
mod door;
mod ending;
mod explained;
mod newest;
mod own;
mod revoke;
mod run;
mod shop;
mod shown;
mod start;
mod stop;
mod store;
mod system;
mod told;
mod words;

use crate::asker::{Asker, askers_of, begin_all, revokers_of};
use crate::door::door_of;
use crate::shop::{CONNECTIONS, ShopSystem};
use crate::shown::{Teller, pages_of};
use crate::stop::{Ender, Leaving};
use crate::system::System;
use crate::words::{NoWords, address_of, options_of};
use etcd_types::NoMemory;
use metrics_pages::Pages;
use outside::{Reading, Writing};
use part_threads::{Nothing, spawner_of};
use shop_threads::{NoShops, shops_of};
use sockets::{Halt, SocketHost};
use start_words::{StartSettings, read_start};
use state_file::Sessions;
use std::alloc::Global;
use std::fs::{File, Files};
use std::net::{Net, TcpListener, TcpStream};
use std::process::ExitCode;
use std::rt::Clock as Times;
use std::sync::{Arc, Wait};
use std::{env, io, str};

/// What the parts of a server meet outside, who asks the members whether they answer, and what is done at a stop: calls and askings go to
/// the members that the words name.
#[derive(Drop)]
struct Outfit<R: Drop> {
    system: System<R>,
    askers: Vec<Asker<R>>,
    leaving: Leaving<R>,
    /// Who shows what it counts, where it is to.
    pages: Vec<Pages<R, Teller<R>>>,
    /// Whether it stops at the end of the standard input.
    stops: bool,
}

/// The outfit of a server with these settings.
fn make_outfit<
    R: Net<Listener = TcpListener, Stream = TcpStream> + Times + Wait + Eprint + Copy + Drop,
>(
    rt: R,
    alloc: Global,
    settings: &StartSettings,
    sessions: &Arc<Sessions, Global>,
    halt: &Arc<Halt, Global>,
) -> Result<Outfit<R>, NoMemory> {
    let endpoints = &settings.endpoints;
    let mut system = System::new(rt, alloc, settings, sessions, halt)?;
    if !settings.metrics.is_empty() {
        system = system.counting()?;
    }
    let shared = Arc::new(alloc, system.asked()?)?;
    let leaving = Leaving {
        rt,
        halt: Arc::try_clone(halt)?,
        clock: system.further_clock()?,
        sessions: Arc::try_clone(sessions)?,
        revokers: revokers_of(rt, alloc, endpoints, &shared)?,
    };
    let askers = askers_of(rt, alloc, endpoints, &shared)?;
    let pages = pages_of(rt, alloc, &system, &settings.metrics)?;
    Ok(Outfit {
        system,
        askers,
        leaving,
        pages,
        stops: settings.stop_at_end,
    })
}

/// Keeps sessions in the file that the settings name, where they name one.
fn open_state<R: Files<File = File> + Wait>(rt: &R, sessions: &Sessions, settings: &StartSettings) {
    if !settings.state_file.is_empty() {
        sessions.open(
            rt,
            str::from_utf8(settings.state_file.as_slice()).unwrap_or(""),
        );
    }
}

/// The outfit of a server with these settings. Nothing where memory is wanting for it.
fn outfit_of<
    R: Net<Listener = TcpListener, Stream = TcpStream>
        + Times
        + Wait
        + Files<File = File>
        + Eprint
        + Copy
        + Drop,
>(
    rt: R,
    alloc: Global,
    settings: &StartSettings,
    sessions: &Arc<Sessions, Global>,
    halt: &Arc<Halt, Global>,
) -> Option<Outfit<R>> {
    open_state(&rt, sessions, settings);
    make_outfit(rt, alloc, settings, sessions, halt).ok()
}

/// The settings that these words name, where they ask for a server.
fn settings_of(alloc: Global, words: &[String]) -> Option<StartSettings> {
    read_start(alloc, options_of(words)?).ok()
}

/// Who has the server stop at the end of this input, where it is to stop then.
fn enders_of<R: Drop, I: Drop>(
    rt: R,
    alloc: Global,
    outfit: &Outfit<R>,
    input: I,
) -> Result<Vec<Ender<R, I>>, NoMemory> {
    let mut enders = Vec::new(alloc);
    if outfit.stops {
        let halt = Arc::try_clone(&outfit.leaving.halt)?;
        enders.push(Ender { rt, input, halt })?;
    }
    Ok(enders)
}

fn main(rt: HostRuntime) -> ExitCode {
    let mut errors = Writing::new(rt.stderr());
    let all = match env::args(&rt) {
        Ok(all) => all,
        Err(error) if error.kind() == io::ErrorKind::InvalidData => {
            return ExitCode::from(ending::tell_no_words(NoWords::NotText, &mut errors));
        }
        Err(_) => return ExitCode::from(ending::tell_no_words(NoWords::NoMemory, &mut errors)),
    };
    let mut words = Vec::new(rt.alloc());
    for word in all.skip(1) {
        if words.push(word).is_err() {
            return ExitCode::from(ending::tell_no_words(NoWords::NoMemory, &mut errors));
        }
    }
    let mut input = Reading::new(rt.stdin());
    let mut output = Writing::new(rt.stdout());
    let words = words.as_slice();
    let settings = settings_of(rt.alloc(), words);
    let (most_connections, has_error_field) = match &settings {
        Some(settings) => (settings.max_connections, settings.etcd_errors),
        None => (CONNECTIONS, false),
    };
    let (Ok(halt), Ok(sessions), Ok(door)) = (
        Arc::new(rt.alloc(), Halt::new()),
        Arc::new(rt.alloc(), Sessions::new(rt.alloc())),
        door_of(rt.alloc(), most_connections, has_error_field),
    ) else {
        return ExitCode::from(ending::tell_no_words(NoWords::NoMemory, &mut errors));
    };
    // A store that nothing can start a connection for ends at once.
    let shops = match address_of(words) {
        Some(_) => match ShopSystem::new(rt, rt.alloc()) {
            Ok(system) => shops_of(rt, rt.alloc(), system, CONNECTIONS),
            Err(NoMemory) => None,
        },
        None => None,
    };
    if shops.is_none() && address_of(words).is_some() {
        return ExitCode::from(ending::tell_no_words(NoWords::NoMemory, &mut errors));
    }
    // Words that serve nobody start no thread. A server that nothing can start a part for ends as one whose first worker can't be started.
    let outfit = match &settings {
        Some(settings) => outfit_of(rt, rt.alloc(), settings, &sessions, &halt),
        None => None,
    };
    let server = match outfit {
        Some(outfit) => match enders_of(rt, rt.alloc(), &outfit, rt.stdin()) {
            Ok(enders) => {
                let Outfit {
                    system,
                    askers,
                    leaving,
                    pages,
                    ..
                } = outfit;
                match (
                    begin_all(&rt, askers),
                    begin_all(&rt, enders),
                    begin_all(&rt, pages),
                ) {
                    (Ok(()), Ok(()), Ok(())) => {
                        match spawner_of(rt, rt.alloc(), system, most_connections) {
                            Some(spawner) => Some((spawner, leaving)),
                            None => None,
                        }
                    }
                    _ => None,
                }
            }
            Err(NoMemory) => None,
        },
        None => None,
    };
    let mut host = SocketHost::new(rt)
        .until(halt)
        .keeping(sessions)
        .through(door);
    match (server, shops) {
        (Some((mut spawner, leaving)), _) => {
            let status = run::run(
                &rt,
                rt.alloc(),
                words,
                &mut input,
                &mut output,
                &mut errors,
                &mut host,
                &mut spawner,
                &mut NoShops::new(),
            );
            // a server has this status where it was to stop
            if status == 0 {
                let (revokers, revoking) = leaving.finish();
                if begin_all(&rt, revokers).is_ok() {
                    revoking.wait();
                }
            }
            ExitCode::from(status)
        }
        (None, Some(mut shops)) => {
            let status = run::run(
                &rt,
                rt.alloc(),
                words,
                &mut input,
                &mut output,
                &mut errors,
                &mut host,
                &mut Nothing::new(),
                &mut shops,
            );
            ExitCode::from(status)
        }
        (None, None) => {
            let status = run::run(
                &rt,
                rt.alloc(),
                words,
                &mut input,
                &mut output,
                &mut errors,
                &mut host,
                &mut Nothing::new(),
                &mut NoShops::new(),
            );
            ExitCode::from(status)
        }
    }
}
