//! A child program, and the guard that ends it where this program ends first.
//!
//! The guard is a shell that reads words from a pipe whose other end this program alone has: first the child's number of the system, then
//! signals to be sent to it. Where the pipe ends, however this program has ended, the guard kills the child. It ignores what a terminal or a
//! `kill` of the program sends to all its processes, and stays until the child has exited: only then is it ended itself.
//!
//! A term is asked of the guard, so that nothing waits for it to be sent; a kill is sent by this program.
ghost use Rattle.std.specs.Prelude.{◌≡◌};

use sl_trace::Signal;
use std::alloc::Global;
use std::io;
use std::io::Write;
use std::marker::Model;
use std::process::{Child, Command, Processes, Stdio, SystemProcess};

/// What a guard's shell does.
const GUARD: &str = "trap '' HUP INT QUIT TERM
read -r child || exit 0
while read -r word; do kill -s \"$word\" \"$child\"; done
kill -s KILL \"$child\"";

/// How many words a guard is given at most: fewer than its pipe has room for, so that none is waited for.
const MOST_WORDS: u32 = 1000;

/// A child program that was started, with its guard.
#[derive(Drop)]
pub struct Program {
    child: Child,
    guard: Child,
    words: u32,
}

/// Gives a guard a line.
fn tell(guard: &mut Child, line: &str) -> io::Result<()> {
    match &mut guard.stdin {
        Some(pipe) => pipe.write_all(line.as_bytes()),
        None => Err(io::Error::from(io::ErrorKind::BrokenPipe)),
    }
}

/// Ends a process, whatever it is doing, and waits for its end.
fn end(process: &mut Child) -> io::Result<()> {
    process.kill()?;
    process.wait()?;
    Ok(())
}

impl Program {
    /// Tells the guard whom it guards.
    fn begin(&mut self, alloc: Global) -> io::Result<()> {
        let number = self.child.id();
        let line = format!(in alloc; "{number}\n")?;
        tell(&mut self.guard, line.as_str())
    }

    /// Ends it, and its guard.
    fn end(&mut self) -> io::Result<()> {
        end(&mut self.child)?;
        end(&mut self.guard)
    }

    /// Kills it. It may go on for a moment.
    pub(crate) fn kill(&mut self) -> io::Result<()> {
        self.child.kill()
    }

    /// Asks the guard to send it a term.
    fn term(&mut self) -> io::Result<()> {
        if self.words >= MOST_WORDS {
            return Err(io::Error::from(io::ErrorKind::WouldBlock));
        }
        self.words += 1;
        tell(&mut self.guard, "TERM\n")
    }

    /// Whether it has exited, and its guard has gone. One of which the system says that it is no child any more has exited too.
    fn has_exited(&mut self) -> bool {
        if matches!(self.child.try_wait(), Ok(None)) {
            return false;
        }
        let _killed = self.guard.kill();
        !matches!(self.guard.try_wait(), Ok(None))
    }
}

/// A child under its process number, which was not yet told as exited. Contracts see its number alone.
#[derive(Drop)]
pub struct Running {
    process: u32,
    program: Program,
}

impl Model for Running {
    ghost use Rattle.std.specs.Prelude.{ℕ};

    ghost Value = { ℕ };

    ghost view = { λ r. r.process };
}

impl Running {
    /// A program that runs, with the machine's number of it.
    pub(crate) fn new(process: u32, program: Program) -> Running
        ensures { result ≡ process }
    {
        Running { process, program }
    }

    /// The machine's number of the child.
    pub(crate) fn process(&self) -> u32
        ensures { result ≡ self.now }
    {
        self.process
    }

    /// Whether the program has exited; it is asked of the system.
    pub(crate) fn has_exited(&mut self) -> bool
        ensures { self.new ≡ self.old }
    {
        self.program.has_exited()
    }

    /// Sends it a signal. Until it is told as exited nobody waits for it, so its system number is no other's.
    pub(crate) fn send(&mut self, signal: Signal) -> io::Result<()>
        ensures { self.new ≡ self.old }
    {
        match signal {
            Signal::Term => self.program.term(),
            Signal::Kill => self.program.kill(),
        }
    }
}

/// Starts a guard. Its standard output is empty, since that of this program is its own.
fn start_guard<R: Processes<Started = SystemProcess>>(rt: &R, alloc: Global) -> io::Result<Child> {
    let mut shell = Command::new(alloc, "/bin/sh")?;
    shell.arg("-c")?.arg(GUARD)?;
    shell
        .stdin(Stdio::piped())
        .stdout(Stdio::null())
        .stderr(Stdio::null())
        .spawn(rt)
}

/// Starts the program at a path, with no argument. Its standard input and output are empty, since those of this program are its own; what
/// it writes to standard error goes where this program's goes.
fn start_child<R: Processes<Started = SystemProcess>>(
    rt: &R,
    alloc: Global,
    path: &str,
) -> io::Result<Child> {
    Command::new(alloc, path)?
        .stdin(Stdio::null())
        .stdout(Stdio::null())
        .spawn(rt)
}

/// Starts the program at a path, with a guard that is there before. Where either can't be started, neither is left.
pub(crate) fn start<R: Processes<Started = SystemProcess>>(
    rt: &R,
    alloc: Global,
    path: &str,
) -> io::Result<Program> {
    let mut guard = start_guard(rt, alloc)?;
    let child = match start_child(rt, alloc, path) {
        Ok(child) => child,
        Err(error) => {
            end(&mut guard)?;
            return Err(error);
        }
    };
    let mut program = Program {
        child,
        guard,
        words: 0,
    };
    if let Err(error) = program.begin(alloc) {
        program.end()?;
        return Err(error);
    }
    Ok(program)
}
