//! Replies: each by the name of its case here.

use crate::told::Told;
use sl_command::push_reply_text;
use sl_sector::Owner;
use sl_text::{Data, Name, Seq};
use sl_trace::{DeltaOwner, DeltaVersion, HostState, Limited, Reply, SessionOf, StateOf};

const FIRST: DeltaVersion = DeltaVersion {
    generation: 4,
    seq: 5,
};

const OWNER: Owner = Owner {
    id: 2,
    generation: 3,
};

/// Generation 6 of a host.
fn owned(name: Name) -> DeltaOwner {
    DeltaOwner {
        generation: 6,
        name,
    }
}

/// What is printed of a reply.
fn tell(told: &mut Told, reply: Reply) {
    let mut text = Vec::new(told.alloc);
    told.need(push_reply_text(&mut text, &reply).is_ok());
    told.bytes(&text);
}

/// What is printed of the reply of this name: one with numbers alone, or another.
pub fn reply(told: &mut Told, case: &str) {
    match case {
        "done" => tell(told, Reply::Done),
        "started" => tell(
            told,
            Reply::Started {
                lver: 7,
                process: 1_000_001,
            },
        ),
        "id_held" => tell(
            told,
            Reply::IdHeld {
                first: FIRST,
                later: Some(FIRST),
            },
        ),
        "id_held_torn" => tell(
            told,
            Reply::IdHeld {
                first: FIRST,
                later: None,
            },
        ),
        "held" => tell(
            told,
            Reply::Held {
                lver: 9,
                owner: OWNER,
            },
        ),
        "io_timeout" => tell(
            told,
            Reply::IoTimeout {
                call: 1,
                from: 2,
                to: 3,
            },
        ),
        "bad_command" => tell(told, Reply::BadCommand { column: 12 }),
        _ => refused(told, case),
    }
}

/// A reply that a request or a limit has, or another.
fn refused(told: &mut Told, case: &str) {
    match case {
        "request_old" => tell(
            told,
            Reply::RequestOld {
                held: 7,
                stored: Some(8),
            },
        ),
        "request_old_torn" => tell(
            told,
            Reply::RequestOld {
                held: 7,
                stored: None,
            },
        ),
        "limit_holders" => tell(
            told,
            Reply::Limit {
                which: Limited::Holders,
            },
        ),
        "limit_gen" => tell(
            told,
            Reply::Limit {
                which: Limited::Gen,
            },
        ),
        "value" => value(told, &[0, 255]),
        "value_of_no_bytes" => value(told, b""),
        _ => named(told, case),
    }
}

/// A reply with a value of these bytes.
fn value(told: &mut Told, bytes: &[u8]) {
    match Data::new(bytes) {
        Some(bytes) => tell(
            told,
            Reply::Value {
                lver: 1,
                seq: 2,
                bytes,
            },
        ),
        None => told.word("no bytes"),
    }
}

/// A reply with a name.
fn named(told: &mut Told, case: &str) {
    match Name::new(b"h1") {
        Some(name) => of_name(told, case, name),
        None => told.word("no name"),
    }
}

/// A reply with this name, or with a list.
fn of_name(told: &mut Told, case: &str, name: Name) {
    match case {
        "id_lost" => tell(
            told,
            Reply::IdLost {
                own: owned(name),
                found: Some(owned(name)),
            },
        ),
        "id_lost_torn" => tell(
            told,
            Reply::IdLost {
                own: owned(name),
                found: None,
            },
        ),
        "wrong_delta" => tell(
            told,
            Reply::WrongDelta {
                lockspace: name,
                id: 2,
            },
        ),
        "hosts" => hosts(told),
        "sessions" => sessions(told, name),
        "no_sessions" => tell(told, Reply::Sessions(Seq::new(Vec::new(told.alloc)))),
        _ => told.word("no reply"),
    }
}

/// A state of a host.
fn state(id: u32, state: HostState) -> StateOf {
    StateOf { id, state }
}

/// A reply with three hosts.
fn hosts(told: &mut Told) {
    let mut states = Vec::new(told.alloc);
    told.need(states.push(state(1, HostState::Live)).is_ok());
    told.need(states.push(state(2, HostState::Free)).is_ok());
    told.need(states.push(state(3, HostState::Dead)).is_ok());
    tell(told, Reply::Hosts(Seq::new(states)));
}

/// A session of generation 4.
fn session(lockspace: Name, id: u32) -> SessionOf {
    SessionOf {
        lockspace,
        id,
        generation: 4,
    }
}

/// A reply with two sessions.
fn sessions(told: &mut Told, name: Name) {
    let mut sessions = Vec::new(told.alloc);
    told.need(sessions.push(session(name, 1)).is_ok());
    told.need(sessions.push(session(name, 3)).is_ok());
    tell(told, Reply::Sessions(Seq::new(sessions)));
}
