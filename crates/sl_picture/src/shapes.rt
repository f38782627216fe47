//! What a picture is made of: bars, marks, columns and notes, each at its place on the axis.

/// A place on the axis: how many events other than the passing of time came before, and the moment in milliseconds.
#[derive(Clone, Copy)]
pub struct Instant {
    pub events: u64,
    pub moment: u64,
}

/// A part of the texts that a picture keeps: where it begins, and how many bytes it has.
#[derive(Clone, Copy)]
pub struct Text {
    pub start: usize,
    pub len: usize,
}

/// What a bar stands for.
#[derive(Clone, Copy)]
pub enum Shape {
    /// Time passes.
    Passing,
    /// The machine is down.
    Down,
    /// It is up, and no daemon runs.
    Idle,
    /// A command that has no answer.
    Waiting,
    /// One that was answered ok.
    Accepted,
    /// One that was answered with a refusal.
    Refused,
    /// One of several, beside lvmlockd's lines, of which one was answered.
    Unclear,
    /// A read that is in flight.
    Read,
    /// A write.
    Write,
    /// A write whose daemon has ended.
    Orphan,
    /// A connection of a session that hasn't renewed yet.
    Joining,
    /// One of a session that has.
    Joined,
    /// One whose daemon has crashed.
    Left,
    /// One that has expired, so that the watchdog daemon's test fails.
    Expired,
    /// A resource is held, exclusively or shared.
    Exclusive,
    Shared,
    /// A resource is held by nobody any more.
    Gap,
    /// .. and somebody wanted it, or its last holder was reset.
    Wanted,
}

/// What lasts from one instant to another.
#[derive(Clone, Copy)]
pub struct Bar {
    /// 0 stands for all machines.
    pub machine: u64,
    pub shape: Shape,
    /// The number of a command or a call, the process of a holding.
    pub number: u64,
    /// The reading at which a connection expires, the instance of a holding.
    pub until: u64,
    /// The place of a resource in the header, which gives its colour.
    pub colour: u64,
    /// In which of the rows of its kind it stands.
    pub row: u64,
    pub from: Instant,
    /// Until when; of a bar that is open, the instant at which it began.
    pub to: Instant,
    /// What it is of: a resource, a lockspace, what a call does.
    pub name: Text,
    /// The text of a command, and that of its answer.
    pub text: Text,
    pub reply: Text,
}

/// What happens at an instant.
#[derive(Clone, Copy)]
pub enum Sign {
    /// The watchdog daemon's test holds, or fails.
    TestHeld,
    TestFailed,
    /// A write is torn, or a call is answered failed.
    Torn,
    CallFailed,
    /// A write never lands.
    Dropped,
    /// A process is told to end, or killed.
    Term,
    Kill,
    /// A daemon begins, or ends.
    Start,
    Crash,
    /// The machine goes down, or comes up.
    Reset,
    Restart,
}

/// A sign on a machine.
#[derive(Clone, Copy)]
pub struct Mark {
    pub machine: u64,
    pub sign: Sign,
    pub at: Instant,
}

/// An event: the number of its line, its line, and its lines of the report.
#[derive(Clone, Copy)]
pub struct Column {
    pub machine: u64,
    pub at: Instant,
    pub number: u64,
    pub line: Text,
    pub report: Text,
}

/// A comment of the schedule.
#[derive(Clone, Copy)]
pub struct Note {
    pub at: Instant,
    pub text: Text,
}

/// A machine: how many commands it was given, whether one of them was for lvmlockd, and what its clock shows, in thousandths of a millisecond.
#[derive(Clone, Copy)]
pub struct Lane {
    pub commands: u64,
    pub locks: bool,
    pub reading: u64,
}
