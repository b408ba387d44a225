//! A started server with the clients of a plan, and how a server ends that can't start.

use crate::board::Board;
use crate::ends::TrialEnds;
use crate::plan::Plan;
use crate::settings::{clients, service};
use crate::starts::{Fails, started};
use etcd_types::NoMemory;
use outside::{MemHost, MemSink, Spawner};
use proxy_parts::Place;
use proxy_service::serve;
use std::alloc::Global;
use std::rt::Clock as Times;
use std::sync::{Arc, Wait};
use std::time::Duration;
use std::{str, thread};
use table_rows::Wrong;

/// How often it is looked whether a plan is over, and the time between two looks.
const LOOKS: u32 = 3_000;

const LOOK_MS: u64 = 10;

/// Serves the clients of a plan, and waits until it is over.
pub(crate) fn serve_clients<R: Wait + Times, P: Spawner<Pass = Place, Conn = u32>>(
    rt: &R,
    alloc: Global,
    board: &Board,
    spawner: &mut P,
) -> Result<(), NoMemory> {
    let clients = clients(alloc, board.plan.clients())?;
    let mut host = MemHost::new(alloc, clients, Vec::new(alloc));
    let mut errors = MemSink::new(alloc, usize::MAX, Vec::new(alloc));
    let _ = serve(
        rt,
        alloc,
        service(alloc)?,
        &mut host,
        spawner,
        b"",
        &mut errors,
    );
    for _ in 0..LOOKS {
        if board.is_over(rt) {
            break;
        }
        thread::sleep(rt, Duration::from_millis(LOOK_MS));
    }
    Ok(())
}

/// Shows what clients of a plan were told, and how often members were called.
pub(crate) fn show<R: Wait + Print>(rt: &R, alloc: Global, board: &Board) -> Result<(), Wrong> {
    let plan = board.plan;
    let calls = board.calls();
    println!(rt; "{plan:?}: {calls} calls")?;
    for client in 0..plan.clients() {
        let told = board.told(rt, alloc, client)?;
        println!(rt; "{}", str::from_utf8(told.as_slice()).unwrap_or("no text"))?;
    }
    Ok(())
}

/// What the parts of a plan's server meet, and what they and its clients share.
pub(crate) fn ends_of<R: Wait + Times + Copy + Drop>(
    rt: R,
    alloc: Global,
    plan: Plan,
) -> Result<(TrialEnds<R>, Arc<Board, Global>), NoMemory> {
    let board = Arc::new(alloc, Board::new(alloc, plan))?;
    let ends = TrialEnds::new(rt, alloc, Arc::try_clone(&board)?)?;
    Ok((ends, board))
}

/// Shows how a server ends where each start of a part, and then each call of the host, fails, and where the host is told to stop.
pub(crate) fn show_starts<R: Wait + Print>(rt: &R, alloc: Global) -> Result<(), Wrong> {
    for number in 1..=5u64 {
        if let Ok((end, parts)) = started(rt, alloc, Fails::Start(number)) {
            println!(rt; "start {number} fails: {end}, {parts} parts")?;
        }
    }
    for number in 1..=4u64 {
        if let Ok((end, parts)) = started(rt, alloc, Fails::Host(number)) {
            println!(rt; "call {number} fails: {end}, {parts} parts")?;
        }
    }
    if let Ok((end, parts)) = started(rt, alloc, Fails::Nothing) {
        println!(rt; "no call fails: {end}, {parts} parts")?;
    }
    Ok(())
}
