//! `w4`: the WASM-4 console without a window, run on recordings that a script edits.
//!
//! `w4_run` does all that the program does, over a house that stands for files and streams; `main` passes it
//! the system's. Its result for given arguments and files is defined in `w4_defs`.
#![tactic(auto)]

mod run;
#[cfg(test)]
mod tests;

use crate::run::{report, w4_run};
use std::io::{ErrorKind, Lock};
use std::process::ExitCode;
use std::rt::Env;
use std::{env, io};
use w4_commands::{Status, number};
use w4_house::RealHouse;

/// The arguments after the program's name.
fn words_of<R: Env + AllocGlobal>(rt: &R) -> io::Result<Vec<String>> {
    let mut words = Vec::new(rt.alloc());
    for word in env::args(rt)?.skip(1) {
        words.push(word)?;
    }
    Ok(words)
}

fn main(rt: HostRuntime) -> ExitCode {
    let mut house = RealHouse::new(&rt, rt.stdin().lock(), rt.stdout(), rt.stderr());
    let status = match words_of(&rt) {
        Ok(words) => w4_run(&rt, rt.alloc(), words.as_slice(), &mut house),
        Err(refusal) if refusal.kind() == ErrorKind::OutOfMemory => {
            report(rt.alloc(), &mut house, Status::OutOfMemory)
        }
        // A word that isn't UTF-8 is in no command: no words are, either.
        Err(_) => w4_run(&rt, rt.alloc(), &[], &mut house),
    };
    ExitCode::from(number(status))
}
