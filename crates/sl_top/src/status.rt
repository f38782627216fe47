//! What the program ends with.

ghost use Rattle.sl_top.specs.Statuses.{code, status_after, status_of, status_of_generated, status_of_live, status_of_told};
ghost use Rattle.std.specs.Prelude.{◌≡◌};

use sl_direct::Directed;
use sl_generate::Generated;
use sl_live_play::Lived;
use sl_play::Played;
use sl_story::Told;

/// How a run of the program ended.
#[derive(Clone, Copy, Debug, PartialEq, Eq)]
pub enum Status {
    /// The source was read to its end and each line was accepted, or each event of a seed happened, or is told, or an action was done; the output is whole.
    Done,
    /// A line can't be read, or isn't allowed; the output ends with its refusal.
    Refused,
    /// The words are of no command and no action.
    BadWords,
    /// Reading failed.
    ReadFault,
    /// Writing failed.
    WriteFault,
    /// There is no memory.
    NoMemory,
    /// A read or a write of an area failed, and the output ends with the line `area fault`; or the folder of live machines is in use, or a disk
    /// stands there that is not made anew, and the output is the line that says so.
    AreaFault,
    /// The sector that was to be a resource's leader holds none, or one of other names; the output says what it holds.
    NotTheLeader,
    /// What the threads of a live machine did differs from its history, or that from the script; the output says where.
    Differs,
}

impl Status {
    /// Its number, 0 to 8, which the process ends with.
    pub fn code(&self) -> u8
        ensures { result ≡ code self.now }
    {
        match self {
            Status::Done => 0,
            Status::Refused => 1,
            Status::BadWords => 2,
            Status::ReadFault => 3,
            Status::WriteFault => 4,
            Status::NoMemory => 5,
            Status::AreaFault => 6,
            Status::NotTheLeader => 7,
            Status::Differs => 8,
        }
    }
}

/// The status of a replay that ended so.
pub(crate) fn status_of(played: Played) -> Status
    ensures { result ≡ status_of played }
{
    match played {
        Played::Done => Status::Done,
        Played::Refused => Status::Refused,
        Played::ReadFault => Status::ReadFault,
        Played::WriteFault => Status::WriteFault,
        Played::NoMemory => Status::NoMemory,
    }
}

/// The status of an action that went so.
pub(crate) fn status_after(directed: Directed) -> Status
    ensures { result ≡ status_after directed }
{
    match directed {
        Directed::Done => Status::Done,
        Directed::WriteFault => Status::WriteFault,
        Directed::NoMemory => Status::NoMemory,
        Directed::AreaFault => Status::AreaFault,
        Directed::NotTheLeader => Status::NotTheLeader,
        Directed::TornBlock => Status::NotTheLeader,
    }
}

/// The status of a generation that ended so.
pub(crate) fn status_of_generated(generated: Generated) -> Status
    ensures { result ≡ status_of_generated generated }
{
    match generated {
        Generated::Done => Status::Done,
        Generated::WriteFault => Status::WriteFault,
        Generated::NoMemory => Status::NoMemory,
    }
}

/// The status of a story that ended so.
pub(crate) fn status_of_told(told: Told) -> Status
    ensures { result ≡ status_of_told told }
{
    match told {
        Told::Done => Status::Done,
        Told::Short => Status::Done,
        Told::WriteFault => Status::WriteFault,
        Told::NoMemory => Status::NoMemory,
    }
}

/// The status of a live run that ended so.
pub(crate) fn status_of_live(lived: Lived) -> Status
    ensures { result ≡ status_of_live lived }
{
    match lived {
        Lived::Done => Status::Done,
        Lived::Refused => Status::Refused,
        Lived::ReadFault => Status::ReadFault,
        Lived::WriteFault => Status::WriteFault,
        Lived::NoMemory => Status::NoMemory,
        Lived::AreaFault => Status::AreaFault,
        Lived::Differs => Status::Differs,
    }
}
