//! The program over the system: `europa(rt.alloc(), words, &mut shelf, &mut input, &mut out)` is the one call of `main`.
//! Words, files and input of the system come in; output goes out, and the number of the status with which the process ends.
//! The system calls it, and no crate does.
//! It knows nothing of commands, models and the database. How the system's words are read may change.
#![tactic(auto)]

use eu_io::adapters::file_shelf::FileShelf;
use eu_io::adapters::std_sink::StdSink;
use eu_io::adapters::std_source::StdSource;
use eu_name::text::Text;
use europa_run::{Status, europa};
use std::io::ErrorKind;
use std::process::ExitCode;
use std::{env, io};

fn main(rt: HostRuntime) -> ExitCode {
    let status = match words(&rt) {
        Ok(words) => run(&rt, words.as_slice()),
        Err(error) if error.kind() == ErrorKind::OutOfMemory => Status::Memory,
        // Words that are no text are no command line, and neither are no words at all.
        Err(_) => run(&rt, &[]),
    };
    ExitCode::from(status.number())
}

// The words after the program's name.
fn words(rt: &HostRuntime) -> io::Result<Vec<Text>> {
    let words = env::args(rt)?
        .skip(1)
        .map(Text::from_string)
        .collect(rt.alloc())?;
    Ok(words)
}

fn run(rt: &HostRuntime, words: &[Text]) -> Status {
    let mut shelf = FileShelf::new(rt);
    let mut input = StdSource::new(rt.stdin());
    let mut out = StdSink::new(rt.stdout());
    europa(rt.alloc(), words, &mut shelf, &mut input, &mut out)
}
