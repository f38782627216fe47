//! The program: its words, standard input and standard output, the machine's files, and the status that it ends with.
#![tactic(auto)]

use sl_io::{ReadSource, WriteSink};
use sl_top::{Status, SystemDevices, run};
use std::alloc::Alloc;
use std::env::{self, Env};
use std::io::{self, IsTerminal};
use std::process::ExitCode;

/// The words of the command line, without the program's name.
fn words<R: Env + Alloc>(rt: &R) -> io::Result<Vec<String<R::A>, R::A>> {
    let mut words = Vec::new(rt.alloc());
    for word in env::args(rt)?.skip(1) {
        words.push(word)?;
    }
    Ok(words)
}

fn main(rt: HostRuntime) -> ExitCode {
    let words = match words(&rt) {
        Ok(words) => words,
        Err(error) if error.kind() == io::ErrorKind::OutOfMemory => {
            return ExitCode::from(Status::NoMemory.code());
        }
        // A word that is not UTF-8 is a word of no command, as no words are.
        Err(_) => Vec::new(rt.alloc()),
    };
    let input = rt.stdin();
    let at_terminal = input.is_terminal();
    let source = ReadSource::new(input);
    let sink = WriteSink::new(rt.stdout());
    let devices = SystemDevices::new(rt, rt.alloc());
    let (status, _source, sink, _devices, _watchdog) = run(
        &rt,
        rt.alloc(),
        &words,
        at_terminal,
        source,
        sink,
        devices,
    );
    let mut sink = sink;
    let status = match sink.flush() {
        Ok(()) => status,
        Err(_) => Status::WriteFault,
    };
    ExitCode::from(status.code())
}
