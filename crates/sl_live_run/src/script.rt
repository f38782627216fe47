//! The script's thread: it reads the lines one after another and gives each to its machine's post. A line that is refused it gives to none: it puts
//! its refusal out, and reads on.

ghost use Rattle.sl_reader.specs.declared.live_lines.LiveLine.{LiveLine as LineOf};
ghost use Rattle.sl_live_run.specs.Runs.{AreFirst, AreGiven, HasPutOut, HasTold, refusal_text};
ghost use Rattle.std.specs.Prelude.{List, OnOk, [], ◌++◌, ◌∷◌, ◌≡◌, ℕ};

use crate::script_lines::{given_by, refusal_text};
use sl_book::{Book, Ledger, Posted, Shelf};
use sl_io::Sink;
use sl_live_lines::GivenLine;
use sl_live_machine::{Mail, Post, Roll, fail_all};
use sl_output::{Output, Press, Seat as Writer};
use sl_reader::{LiveLine, LiveLines, NoLine};
use sl_text::Bytes;
use std::alloc::{AllocError, Global};
use std::sync::Wait;
use std::time::{Clock, Duration, Instant};

/// Where the script gives its lines: a post and a mail for each machine, and the book of all that it gave; and where it puts out which lines are
/// refused.
#[derive(Clone, Copy)]
pub struct Ways<'a, K: Sink, O: Press, T: Shelf> {
    pub posts: &'a [Post],
    pub mails: &'a [Mail<T>],
    pub book: &'a Book<T, GivenLine>,
    pub output: &'a Output<K, O>,
}

/// The post of the machine of this number, counted from 1, if there is one.
fn post_of(posts: &[Post], machine: u32) -> Option<&Post> {
    posts.get((machine as usize).checked_sub(1)?)
}

/// Gives a line to its machine, and waits as the line says. A line for no machine, or one that is refused, gives nothing. An `Err` is want of memory, here or of a machine.
fn give<R: Wait>(rt: &R, posts: &[Post], line: LiveLine) -> Result<(), AllocError> {
    match line {
        LiveLine::Command { machine, text } => match post_of(posts, machine) {
            Some(post) => post.command(rt, GivenLine::ForHost(text)),
            None => Ok(()),
        },
        LiveLine::Locks { machine, line } => match post_of(posts, machine) {
            Some(post) => post.command(rt, GivenLine::ForLocks(line)),
            None => Ok(()),
        },
        LiveLine::Post { machine, text } => match post_of(posts, machine) {
            Some(post) => post.put(rt, GivenLine::ForHost(text)),
            None => Ok(()),
        },
        LiveLine::Exits { machine, process } => match post_of(posts, machine) {
            Some(post) => post.exits(rt, process),
            None => Ok(()),
        },
        LiveLine::Refused { .. } => Ok(()),
    }
}

/// Whether there was no memory: then all posts say so.
pub(crate) fn has_failed<R: Wait>(rt: &R, posts: &[Post]) -> bool {
    posts.iter().any(|post| post.has_failed(rt))
}

/// Gives a line that was noted to the printer of the machine at this place. An `Err` is want of memory.
fn send<K: Sink, O: Press, T: Shelf, R: Wait>(
    rt: &R,
    ways: &Ways<'_, K, O, T>,
    place: u32,
    posted: Posted<T, GivenLine>,
) -> Result<(), AllocError> {
    match ways.mails.get(place as usize) {
        Some(mail) => mail.put(rt, posted),
        None => Ok(()),
    }
}

/// Notes what a line of the script gives, for the printer of its machine, before it is given. An `Err` is want of memory.
fn note<K: Sink, O: Press, T: Shelf, R: Wait>(
    rt: &R,
    alloc: Global,
    ways: &Ways<'_, K, O, T>,
    ledger: &mut Ledger<T, GivenLine>,
    line: &LiveLine,
) -> Result<(), AllocError>
    ensures given { (ls : List LineOf) → (machines : ℕ) → AreGiven ledger.old machines ls → OnOk result (AreGiven ledger.new machines (ls ++ line.now ∷ [])) }
    ensures first { (ls : List LineOf) → (machines : ℕ) → AreGiven ledger.old machines ls → AreFirst ledger.new machines (ls ++ line.now ∷ []) }
{
    let Some((machine, copy)) = given_by(alloc, line)? else {
        return Ok(());
    };
    if machine == 0 || ledger.places() < machine as usize {
        return Ok(());
    }
    match ledger.post(ways.book, machine - 1, copy) {
        Ok(posted) => send(rt, ways, machine - 1, posted),
        Err(_) => Err(AllocError),
    }
}

/// Puts a text out, if it is one. An `Err` is an output of which nobody knows any more what was put there.
fn put<K: Sink, O: Press, R: Wait>(
    rt: &R,
    output: &Output<K, O>,
    writer: &mut Writer<O>,
    text: Vec<u8>,
) -> Result<(), AllocError>
    ensures { (before : List ℕ) → HasPutOut writer.old before → OnOk result (HasPutOut writer.new (before ++ text.items)) }
{
    if text.is_empty() {
        return Ok(());
    }
    match output.put(rt, writer, Bytes::new(text)) {
        Ok(()) => Ok(()),
        Err(_) => Err(AllocError),
    }
}

/// Puts out what is told of a line of the script itself. An `Err` is want of memory, or an output of which nobody knows any more what was put there.
fn put_refusal<K: Sink, O: Press, T: Shelf, R: Wait>(
    rt: &R,
    alloc: Global,
    ways: &Ways<'_, K, O, T>,
    writer: &mut Writer<O>,
    line: &LiveLine,
) -> Result<(), AllocError>
    ensures { (before : List ℕ) → HasPutOut writer.old before → OnOk result (HasPutOut writer.new (before ++ refusal_text line.now)) }
{
    let text = refusal_text(alloc, line)?;
    put(rt, ways.output, writer, text)
}

/// Gives the lines, one after another: why they end, if it is not their end. An `Err` is want of memory, here or of a machine; then no line is
/// read any more.
fn give_all<L: LiveLines, K: Sink, O: Press, T: Shelf, R: Wait>(
    rt: &R,
    alloc: Global,
    ways: &Ways<'_, K, O, T>,
    lines: &mut L,
    ledger: &mut Ledger<T, GivenLine>,
    writer: &mut Writer<O>,
) -> Result<Option<NoLine>, AllocError>
    ensures { (machines : ℕ) → AreGiven ledger.old machines [] → HasPutOut writer.old []
        → HasTold machines (L.has_given lines.old) (L.has_given lines.new) ledger.new writer.new result }
{
    for _ in rt.forever() {
        if has_failed(rt, ways.posts) {
            return Err(AllocError);
        }
        match lines.next() {
            Ok(Some(line)) => {
                note(rt, alloc, ways, ledger, &line)?;
                put_refusal(rt, alloc, ways, writer, &line)?;
                give(rt, ways.posts, line)?;
            }
            Ok(None) => return Ok(None),
            Err(NoLine::NoMemory) => return Err(AllocError),
            Err(why) => return Ok(Some(why)),
        }
    }
    Ok(None)
}

/// No line comes any more.
fn close_all<R: Wait>(rt: &R, posts: &[Post]) {
    for post in posts {
        post.close(rt);
    }
}

/// The moment a second from now, if the clock tells it.
fn in_a_second<R: Clock>(rt: &R) -> Option<Instant> {
    Instant::now(rt).ok()?.checked_add(Duration::from_secs(1))
}

/// Waits until no machine has a child that runs, but not past this moment.
fn await_children<R: Wait + Clock>(rt: &R, posts: &[Post], until: Instant) {
    for post in posts {
        post.await_children(rt, until);
    }
}

/// Says on standard error for how many programs this machine waits, if it waits for any. Whether that could be said matters to nobody.
fn tell_wait<R: Wait + Eprint>(rt: &R, machine: usize, post: &Post) {
    let programs = post.children(rt);
    if programs == 1 {
        let _ = eprintln!(rt; "sanlock: machine {machine} waits for 1 program");
    } else if programs > 1 {
        let _ = eprintln!(rt; "sanlock: machine {machine} waits for {programs} programs");
    }
}

/// Says on standard error for which programs the run waits, which goes on behind the script's end, if some still run a second later.
fn tell_waits<R: Wait + Clock + Eprint>(rt: &R, posts: &[Post]) {
    let Some(until) = in_a_second(rt) else {
        return;
    };
    await_children(rt, posts, until);
    if has_failed(rt, posts) {
        return;
    }
    for place in 0..posts.len() {
        tell_wait(rt, place + 1, &posts[place]);
    }
}

/// The script's thread, which begins once all threads of the run are there. Where they are not, and where there is no memory, all machines end.
pub(crate) fn tell<L: LiveLines, K: Sink, O: Press, T: Shelf, R: Wait + Clock + Eprint>(
    rt: &R,
    alloc: Global,
    roll: &Roll,
    ways: &Ways<'_, K, O, T>,
    lines: &mut L,
    ledger: &mut Ledger<T, GivenLine>,
    writer: &mut Writer<O>,
) -> Result<Option<NoLine>, AllocError>
    ensures { (machines : ℕ) → AreGiven ledger.old machines [] → HasPutOut writer.old []
        → HasTold machines (L.has_given lines.old) (L.has_given lines.new) ledger.new writer.new result }
{
    if !roll.enter(rt) {
        roll.give_up(rt);
        fail_all(rt, ways.posts);
        return Err(AllocError);
    }
    let told = give_all(rt, alloc, ways, lines, ledger, writer);
    match &told {
        Ok(_) => {
            close_all(rt, ways.posts);
            tell_waits(rt, ways.posts);
        }
        Err(_) => fail_all(rt, ways.posts),
    }
    told
}
