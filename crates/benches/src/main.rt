//! Measures parts of the program by themselves: the first word says which, and the others what of it. With no words it says
//! which there are.
#![tactic(auto)]

mod calls;
mod hub;
mod json;
mod machines;
mod requests;
mod spread;
mod store;
mod watches;
mod wire;

use std::alloc::Global;
use std::{env, io};

fn main(rt: HostRuntime) -> io::Result<()> {
    let alloc: Global = rt.alloc();
    let mut words = Vec::new(alloc);
    for word in env::args(&rt)?.skip(1) {
        words.push(word)?;
    }
    let [part, words @ ..] = words.as_slice() else {
        println!(rt; "{}", hub::USAGE)?;
        println!(rt; "{}", json::USAGE)?;
        println!(rt; "{}", store::USAGE)?;
        println!(rt; "{}", watches::USAGE)?;
        return println!(rt; "{}", wire::USAGE);
    };
    match part.as_str() {
        "hub" => hub::run(rt, alloc, words),
        "json" => json::run(&rt, alloc, words),
        "store" => store::run(&rt, alloc, words),
        "watches" => watches::run(&rt, alloc, words),
        "wire" => wire::run(&rt, alloc, words),
        _ => println!(rt; "no such part"),
    }
}
