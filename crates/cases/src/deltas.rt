//! A delta lease of id 1 of two, with io 100, fire 600, land 100 and rho 0.

use crate::told::Told;
use crate::watches::sector_named;
use crate::word_values::{number_of, part, word};
use sl_alone::{DeltaCall, DeltaIn, DeltaLease, DeltaOut, Outcome};
use sl_area::Geometry;
use sl_request::Bitmap;
use sl_sector::{DeltaRec, DeltaState};
use sl_text::{Bytes, Name};
use sl_time::Timing;
use sl_trace::{Answer, JoinStep, Move, Reply, Stage};

/// What each reading is below.
const MOMENTS: u64 = 1_000_000_000_000_000;

/// A lease that joins, or one that is joined by a renewal at this reading.
fn lease_of(word: &str) -> Option<DeltaLease> {
    let timing = Timing::new(100, 600, 100, 0).ok()?;
    let geometry = Geometry::new(512, 1_048_576, 2).ok()?;
    let lockspace = Name::new(b"ls")?;
    let host = Name::new(b"a")?;
    let renewed = number_of(part(word, ':', 1));
    if part(word, ':', 0) == "joined" && renewed < MOMENTS {
        return Some(DeltaLease::joined(&timing, &geometry, lockspace, 1, host, renewed));
    }
    Some(DeltaLease::start(&timing, &geometry, lockspace, 1, host))
}

/// The bytes of the sectors that these parts of a word name.
fn bytes_of(told: &mut Told, text: &str, names: &str) -> Bytes {
    let mut bytes = Vec::new(told.alloc);
    for name in names.split('+') {
        told.need(bytes.extend_from_slice(&sector_named(text, name)).is_ok());
    }
    Bytes::new(bytes)
}

/// An answer to the call of a lease.
fn answered(answer: Answer) -> DeltaIn {
    DeltaIn::Answered { call: 7, answer }
}

/// What a word brings.
fn input_of(told: &mut Told, text: &str, word: &str) -> DeltaIn {
    match part(word, ':', 0) {
        "wake" => DeltaIn::Wake(Bitmap::none()),
        "refused" => DeltaIn::Refused,
        "leave" => DeltaIn::Leave,
        "read" => answered(Answer::Read(bytes_of(told, text, part(word, ':', 2)))),
        "written" => answered(Answer::Written),
        _ => answered(Answer::Failed),
    }
}

/// A step of a joining.
fn step_text(step: JoinStep) -> &'static str {
    match step {
        JoinStep::FirstRead => "first",
        JoinStep::WatchRead => "watch",
        JoinStep::DecidingRead => "deciding",
        JoinStep::ClaimWrite => "claim",
        JoinStep::VerifyRead => "verify",
        JoinStep::FirstRenewal => "renewal",
    }
}

/// A state of a record.
fn state_text(state: DeltaState) -> &'static str {
    match state {
        DeltaState::Free => "free",
        DeltaState::Claimed => "claimed",
        DeltaState::Live => "live",
    }
}

/// What is done with a record: its state, generation, seq and stamp.
fn record_text(told: &mut Told, done: &str, record: &DeltaRec) {
    told.word(done);
    told.word(state_text(record.state));
    told.number(record.generation);
    told.number(record.seq);
    told.number(record.stamp);
}

/// The read of a step.
fn read_text(told: &mut Told, step: JoinStep) {
    told.word("read");
    told.word(step_text(step));
}

/// Tells the call that a step of a delta lease makes.
fn call_text(told: &mut Told, call: &DeltaCall) {
    match call {
        DeltaCall::ReadOwn(step) => read_text(told, *step),
        DeltaCall::WriteOwn { step: _, record } => record_text(told, "write", record),
        DeltaCall::RenewOwn(record) => record_text(told, "renew", record),
        DeltaCall::ReadAll => told.word("read all"),
        DeltaCall::FreeOwn(record) => record_text(told, "free", record),
    }
}

/// A move of the connection.
fn move_text(told: &mut Told, moved: &Move) {
    match moved {
        Move::Register {
            lockspace: _,
            expiry,
        } => told.said("register", *expiry),
        Move::Renew {
            lockspace: _,
            expiry,
        } => told.said("move", *expiry),
        Move::Unregister { lockspace: _ } => told.word("unregister"),
    }
}

/// A refusal, by its name.
fn reply_text(reply: &Reply) -> &'static str {
    match reply {
        Reply::Done => "done",
        Reply::IdHeld { first: _, later: _ } => "IdHeld",
        Reply::IdLost { own: _, found: _ } => "IdLost",
        Reply::IdLate { claimed: _, now: _ } => "IdLate",
        Reply::TornDelta => "TornDelta",
        Reply::WrongDelta {
            lockspace: _,
            id: _,
        } => "WrongDelta",
        Reply::IoFault { call: _ } => "IoFault",
        Reply::Limit { which: _ } => "Limit",
        _ => "another",
    }
}

/// A word and a refusal.
fn ended_text(told: &mut Told, word: &str, reply: &Reply) {
    told.word(word);
    told.word(reply_text(reply));
}

/// Tells what a step of a delta lease has come to.
fn outcome_text(told: &mut Told, outcome: &Outcome) {
    match outcome {
        Outcome::Joined { generation } => told.said("joined", *generation),
        Outcome::NotJoined(reply) => ended_text(told, "refused", reply),
        Outcome::Left(reply) => ended_text(told, "left", reply),
    }
}

/// What a step gives: whether recovery begins, its move, its call and its outcome, where it has them.
fn tell_out(told: &mut Told, out: &DeltaOut) {
    told.end(if out.recovers { " recovers" } else { "" });
    if let Some(moved) = &out.moved {
        move_text(told, moved);
    }
    if let Some(call) = &out.call {
        call_text(told, call);
    }
    if let Some(outcome) = &out.outcome {
        outcome_text(told, outcome);
    }
}

/// The word for a stage.
fn stage_text(stage: Stage) -> &'static str {
    match stage {
        Stage::Looking => "looking",
        Stage::Deciding => "deciding",
        Stage::Claiming => "claiming",
        Stage::Waiting => "waiting",
        Stage::Verifying => "verifying",
        Stage::FirstRenewing => "first renewing",
        Stage::Standing => "standing",
        Stage::Freeing => "freeing",
        Stage::Refused => "refused",
        Stage::Ended => "ended",
    }
}

/// What the lease gives at this reading for an input, if that fits.
fn tell_step(told: &mut Told, lease: &mut DeltaLease, now: u64, input: DeltaIn) {
    if !lease.fits(&input) || now >= MOMENTS {
        return told.word("unfit");
    }
    match lease.step(told.alloc, now, input) {
        Ok(out) => tell_out(told, &out),
        Err(_) => told.need(false),
    }
}

/// What the lease gives for an input `KIND:NOW..`.
fn tell_input(told: &mut Told, lease: &mut DeltaLease, text: &str, word: &str) {
    let now = number_of(part(word, ':', 1));
    let input = input_of(told, text, word);
    tell_step(told, lease, now, input);
}

/// What the lease tells at a word: `stage`, `last`, or an input.
fn tell(told: &mut Told, lease: &mut DeltaLease, text: &str, word: &str) {
    match word {
        "stage" => told.word(stage_text(lease.state())),
        "last" => told.number_or_none(lease.last_renewal()),
        _ => tell_input(told, lease, text, word),
    }
    told.end(";");
}

/// What the lease tells at each word behind the first that tells no sector.
fn tell_all(told: &mut Told, lease: &mut DeltaLease, text: &str) {
    told.end(" ");
    for word in text.split(' ').skip(1) {
        if part(word, '=', 1).is_empty() {
            tell(told, lease, text, word);
        }
    }
}

/// What a delta lease gives at these words: the first is `start` or `joined:NOW`; a word `NAME=..` tells a sector, in which later words name
/// what is read.
pub fn delta(told: &mut Told, text: &str) {
    match lease_of(word(text, 0)) {
        Some(mut lease) => tell_all(told, &mut lease, text),
        None => told.word("no run"),
    }
}
