//! The program: a rehearsal over the runtime's words, files and streams.
#![tactic(auto)]

mod program;
#[cfg(test)]
mod tests;

use fsw_outside::{FileShelf, OpenGate, StdSink};
use program::run_program;
use std::env;
use std::process::ExitCode;

fn main(rt: HostRuntime) -> ExitCode {
    ExitCode::from(run_program(
        &rt,
        rt.alloc(),
        env::args(&rt),
        &mut FileShelf::new(&rt),
        &mut StdSink::new(rt.stdout()),
        &mut StdSink::new(rt.stderr()),
        &OpenGate,
    ))
}
