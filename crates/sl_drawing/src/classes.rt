//! What an element looks like: its class, whose colours stand in the head, and the signs that the head defines.

ghost use Rattle.sl_drawing.specs.Classes as classes;
ghost use Rattle.std.specs.Prelude.{◌≡◌};

/// The class of a rectangle or a label.
#[derive(Clone, Copy)]
pub enum Class {
    /// The ground of the picture, and that of a machine.
    Ground,
    Lane,
    /// The place at which a reader points to see an event.
    Hit,
    /// The number of a machine.
    Number,
    /// A label; one on a dark bar; one of something that went wrong; one that stands back.
    Plain,
    Inside,
    Bad,
    Dim,
    /// The line of a moment, and a stretch in which time passes.
    Grid,
    Passing,
    /// A machine that is down, and one that has no daemon.
    Down,
    Idle,
    /// A command: answered ok, refused, not answered, answered nobody can tell how.
    Accepted,
    Refused,
    Waiting,
    Unclear,
    /// A call in flight; one that takes longer than a call may; a write whose daemon has ended.
    Flying,
    Late,
    Orphan,
    /// The beginning of a read, and of a write; a renewal.
    Read,
    Write,
    Renewed,
    /// A connection to the watchdog daemon: of a session that joins, of one that has joined, of a daemon that has crashed, and expired.
    Joining,
    Joined,
    Left,
    Expired,
    /// A resource that nobody holds, and one that somebody was refused meanwhile or whose last holder was reset.
    Gap,
    Wanted,
    /// A resource that is held, in one of eight colours, and the pattern over it where it is shared.
    Held { colour: u64 },
    Shared,
    /// The line of a reset, of a crash, and of a start.
    Reset,
    Crash,
    Up,
}

/// The class of a resource by its colour.
fn held_text(colour: u64) -> &'static [u8]
    ensures { result.now ≡ classes.held_text colour }
{
    match colour {
        0 => b"r0",
        1 => b"r1",
        2 => b"r2",
        3 => b"r3",
        4 => b"r4",
        5 => b"r5",
        6 => b"r6",
        _ => b"r7",
    }
}

/// The text of a class.
#[tactic(auto, unfolding(crate::specs::Classes::class_text))]
pub(crate) fn class_text(class: Class) -> &'static [u8]
    ensures { result.now ≡ classes.class_text class }
{
    match class {
        Class::Ground => b"bg",
        Class::Lane => b"lane",
        Class::Hit => b"hit",
        Class::Number => b"n",
        Class::Plain => b"m",
        Class::Inside => b"m in",
        Class::Bad => b"m bad",
        Class::Dim => b"m dim",
        Class::Grid => b"m grid",
        Class::Passing => b"pass",
        Class::Down => b"down",
        Class::Idle => b"idle",
        Class::Accepted => b"ok",
        Class::Refused => b"no",
        Class::Waiting => b"open",
        Class::Unclear => b"open",
        Class::Flying => b"air",
        Class::Late => b"late",
        Class::Orphan => b"late",
        Class::Read => b"m read",
        Class::Write => b"m write",
        Class::Renewed => b"m write",
        Class::Joining => b"joining",
        Class::Joined => b"joined",
        Class::Left => b"left",
        Class::Expired => b"failing",
        Class::Gap => b"gap",
        Class::Wanted => b"wanted",
        Class::Held { colour } => held_text(colour),
        Class::Shared => b"m shared",
        Class::Reset => b"m reset",
        Class::Crash => b"m crash",
        Class::Up => b"m up",
    }
}

/// A sign that the head defines.
#[derive(Clone, Copy)]
pub enum Symbol {
    /// A test that holds, and one that fails.
    Held,
    Failed,
    /// A write that is torn, or a call that is answered failed; a write that never lands.
    Torn,
    Dropped,
    /// A process is told to end, and killed.
    Term,
    Kill,
    /// A comment.
    Note,
}

/// The name of a sign.
#[tactic(auto, unfolding(crate::specs::Classes::symbol_text))]
pub(crate) fn symbol_text(symbol: Symbol) -> &'static [u8]
    ensures { result.now ≡ classes.symbol_text symbol }
{
    match symbol {
        Symbol::Held => b"held",
        Symbol::Failed => b"failed",
        Symbol::Torn => b"torn",
        Symbol::Dropped => b"dropped",
        Symbol::Term => b"term",
        Symbol::Kill => b"kill",
        Symbol::Note => b"note",
    }
}
