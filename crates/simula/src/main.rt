//! Runs a Simula program: `simula run FILE`, with options before or behind FILE.
#![tactic(auto)]

use sim_driver::{Status, simula};
use sim_ends::{Input, Output, RealFiles};
use std::alloc::AllocError;
use std::env;
use std::io::ErrorKind;
use std::process::ExitCode;

fn main(rt: HostRuntime) -> ExitCode {
    let status = match words(&rt) {
        Ok(words) => simula(
            rt.alloc(),
            &words,
            &mut RealFiles::new(&rt),
            &mut Input::new(rt.stdin()),
            &mut Output::new(rt.stdout()),
            &mut Output::new(rt.stderr()),
        ),
        Err(AllocError) => {
            // The line is tried once.
            let _ = eprintln!(rt; "{}", Status::Memory);
            Status::Memory
        }
    };
    ExitCode::from(status.number())
}

// The words after the program's name. Where one of them is no text there are none, since such words are no command.
fn words(rt: &HostRuntime) -> Result<Vec<String>, AllocError> {
    match env::args(rt) {
        Ok(args) => args.skip(1).collect(rt.alloc()),
        Err(error) if error.kind() == ErrorKind::OutOfMemory => Err(AllocError),
        Err(_) => Ok(Vec::new(rt.alloc())),
    }
}
