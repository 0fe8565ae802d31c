//! Plays scenarios, each a file, and prints what a desk answers.
#![tactic(auto)]

mod play;
mod scenario;

use play::play;
use scenario::Scenario;
use std::io::Write;
use std::rt::{Env, Files};
use std::{env, fs, io};

/// Plays the scenario of a file.
fn tell<R: Files + Print + AllocGlobal>(rt: &R, name: &str) -> anyhow::Result<()> {
    let text = fs::read_to_string(rt, name)?;
    let scenario = Scenario::read(rt.alloc(), text.as_str())?;
    let told = play(rt.alloc(), &scenario)?;
    println!(rt; "== {name}")?;
    io::writer(rt).write_all(told.as_slice())?;
    Ok(())
}

/// Plays the scenarios of all the files that are named.
fn tell_all<R: Files + Env + Print + AllocGlobal>(rt: &R) -> anyhow::Result<()> {
    for name in env::args(rt)?.skip(1) {
        tell(rt, name.as_str())?;
    }
    Ok(())
}

fn main(rt: HostRuntime) -> anyhow::Result<()> {
    tell_all(&rt)
}
