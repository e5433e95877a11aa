//! The workbench on the command line: `patr GRAMMAR LEXICON`. It answers each line of the standard input on
//! the standard output, and ends with the exit status of the run. Where a file or the input could not be read, the
//! output not written, or memory was short, a line on standard error says so.
#![tactic(auto)]

use patr_io::{FileShelf, StdSink, StdSource};
use patr_shell::{OpenGate, Status, run};
use std::process::ExitCode;
use std::{env, io};

/// The words of the command line behind the program's name. Where one is not UTF-8 there are none, which is of no
/// form either.
fn command_words(rt: &HostRuntime) -> io::Result<Vec<String>> {
    match env::args(rt) {
        Ok(words) => Ok(words.skip(1).collect(rt.alloc())?),
        Err(error) if error.kind() == io::ErrorKind::InvalidData => Ok(Vec::new(rt.alloc())),
        Err(error) => Err(error),
    }
}

/// Says on standard error why a run ended, where the run itself says nothing. `failed_file` is the name of the file
/// that could not be read, if it was a file.
fn complain(rt: &HostRuntime, status: Status, failed_file: Option<&str>) {
    let _ = match (status, failed_file) {
        (Status::ReadFault, Some(name)) => eprintln!(rt; "error: cannot read {name}"),
        (Status::ReadFault, None) => eprintln!(rt; "error: cannot read the input"),
        (Status::WriteFault, _) => eprintln!(rt; "error: cannot write the output"),
        (Status::Memory, _) => eprintln!(rt; "error: out of memory"),
        _ => Ok(()),
    };
}

fn main(rt: HostRuntime) -> ExitCode {
    let mut shelf = FileShelf::new(&rt);
    let status = match command_words(&rt) {
        Ok(words) => run(
            &rt,
            rt.alloc(),
            &words,
            &mut shelf,
            &mut StdSource::new(rt.stdin()),
            &mut StdSink::new(rt.stdout()),
            &OpenGate,
        ),
        Err(_) => Status::Memory,
    };
    complain(&rt, status, shelf.failed_name());
    ExitCode::from(status.code())
}
