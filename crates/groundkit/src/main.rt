//! groundkit: what vigil reads and writes, in words.
#![tactic(auto)]

use fsw_outside::FileShelf;
use ground_files::SystemFiles;
use ground_verbs::groundkit;
use std::process::ExitCode;
use std::{env, io};

fn main(rt: HostRuntime) -> io::Result<ExitCode> {
    let words: Vec<String> = env::args(&rt)?.collect(rt.alloc())?;
    let mut files = SystemFiles::new(&rt);
    let shelf = FileShelf::new(&rt);
    let status = groundkit(&rt, &mut files, shelf, words.as_slice());
    Ok(ExitCode::from(status as u8))
}
