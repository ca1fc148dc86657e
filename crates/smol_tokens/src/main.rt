//! Reads text from standard input and writes, for each line, where a `SmolStr` would keep it; or how often each line occurs.
//!
//! `main` gathers the words, calls [`run`] or [`run_with_hasher`] and reports the fault. The promise of the whole program is
//! their contract.
#![tactic(auto)]

use smol_tokens_core::fault::RunFault;
use smol_tokens_core::mode::{Mode, mode_of};
use smol_tokens_core::run::{run, run_with_hasher};
use std::hash::RandomState;
use std::process::ExitCode;
use std::{env, io};

/// The words after the program's name.
fn words(rt: &HostRuntime) -> Result<Vec<String>, RunFault> {
    let args = match env::args(rt) {
        Ok(args) => args,
        Err(e) if e.kind() == io::ErrorKind::OutOfMemory => return Err(RunFault::OutOfMemory),
        Err(e) => return Err(RunFault::Io(e)),
    };
    Ok(args.skip(1).collect(rt.alloc())?)
}

/// Reports a fault in one line, and returns the status of a failed run.
fn failed(rt: &HostRuntime, fault: &RunFault) -> ExitCode {
    let _ = rt.eprintln(fault);
    ExitCode::from(1)
}

fn main(rt: HostRuntime) -> ExitCode {
    let words = match words(&rt) {
        Ok(words) => words,
        Err(fault) => return failed(&rt, &fault),
    };
    let Some(mode) = mode_of(words) else {
        let _ = rt.eprintln("usage");
        return ExitCode::from(2);
    };
    let (mut input, mut output) = (rt.stdin(), rt.stdout());
    let ended = if matches!(&mode, Mode::Tokens | Mode::Merge) {
        // Keys of the system: whoever writes the input cannot pick lines that all have one hash.
        match RandomState::new(&rt) {
            Ok(state) => run_with_hasher(rt.alloc(), state, mode, &mut input, &mut output),
            Err(error) => Err(RunFault::Io(error)),
        }
    } else {
        run(rt.alloc(), mode, &mut input, &mut output)
    };
    match ended {
        Ok(()) => ExitCode::SUCCESS,
        Err(fault) => failed(&rt, &fault),
    }
}
