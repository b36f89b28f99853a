//! Translates a compiled compute shader, a DXBC container, into a SPIR-V module, or shows what it is made of.
#![tactic(auto)]

use dx_outside::{HostFiles, HostSink};
pub use dx_run::{Status, run};
use std::env;
use std::io::{self, ErrorKind};
use std::process::ExitCode;

/// The exit status where the host doesn't give the words, and not for want of memory.
const NO_WORDS: u8 = 8;

/// The words after the program's name.
fn words_of(rt: &HostRuntime) -> io::Result<Vec<String>> {
    let words = env::args(rt)?.skip(1).collect(rt.alloc())?;
    Ok(words)
}

fn main(rt: HostRuntime) -> ExitCode {
    let words = match words_of(&rt) {
        Ok(words) => words,
        Err(error) if error.kind() == ErrorKind::OutOfMemory => {
            return ExitCode::from(Status::OutOfMemory.code());
        }
        Err(_) => return ExitCode::from(NO_WORDS),
    };
    let mut files = HostFiles::new(&rt);
    let mut out = HostSink::new(&rt);
    let status = run(rt.alloc(), words.as_slice(), &mut files, &mut out);
    ExitCode::from(status.code())
}
