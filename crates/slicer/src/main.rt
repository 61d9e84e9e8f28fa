//! The program: runs the command that its words spell over real files and standard output.
#![tactic(auto)]

use desk_io::RealDesk;
use solve_cli::run;
use std::alloc::{AllocFailed, Global};
use std::process::ExitCode;
use std::rt::Files;
use std::{env, fs, io};

/// The system refused the words, or the null device.
const REFUSED: u8 = 10;

// An opened file without bytes, which takes none.
fn nothing<R: Files>(rt: &R) -> io::Result<R::File> {
    fs::open(rt, "/dev/null")
}

// The words behind the program's own name. The system refuses them where one is not UTF-8, and for other reasons.
fn words(rt: &(impl env::Env + AllocGlobal)) -> io::Result<Vec<String>> {
    let mut words = Vec::new(rt.alloc());
    for word in env::args(rt)?.skip(1) {
        words.push(word)?;
    }
    Ok(words)
}

fn main(rt: HostRuntime) -> ExitCode {
    // Where a standard descriptor was closed, one of these stands in its place until the end. So no file that is opened later is
    // written to as if it were standard output.
    let (Ok(_first), Ok(_second), Ok(_third)) = (nothing(&rt), nothing(&rt), nothing(&rt)) else {
        return ExitCode::from(REFUSED);
    };
    let Ok(words) = words(&rt) else {
        return ExitCode::from(REFUSED);
    };
    let alloc = rt.alloc();
    let mut desk = RealDesk::new(rt);
    let status = run(alloc, &words, &mut desk);
    ExitCode::from(status.code())
}
