//! What is printed of a reply.
//!
//! A reply is a word and what it tells, with one space between: numbers, names, states. What a later read should have told and
//! could not is `torn`.

ghost use Rattle.std.specs.Prelude.{OnErr, OnOk, codes, decimal, false, map, ◌++◌, ◌∷◌, ◌≡◌, []};
ghost use Rattle.sl_command.specs.OutputLines.{KeepsFronts, behind, counted, host_word, host_words, session_word};
ghost use Rattle.sl_sector.specs.RecordTexts.{dash_for_none};
ghost use Rattle.sl_text.specs.Forms.{spaced};
ghost use Rattle.sl_text.specs.Numbers.{hex_text};
ghost use Rattle.sl_trace.specs.EffectTexts as texts;

use crate::words::{
    push_behind, push_byte, push_counted, push_number_part, push_part, push_text, push_word,
};
use sl_sector::Owner;
use sl_text::hex::push_hex;
use sl_text::{Data, Name};
use sl_trace::{DeltaOwner, DeltaVersion, HostState, Limited, Reply, SessionOf, StateOf};
use std::alloc::AllocError;

/// Lockspaces of a machine, at most.
const MOST_LOCKSPACES: u64 = 8;

/// Resources of a machine, at most.
const MOST_RESOURCES: u64 = 256;

/// Holdings of a machine with the jobs that may become such, at most.
const MOST_HOLDERS: u64 = 1024;

/// Child numbers of a daemon, at most.
const MOST_CHILDREN: u64 = 1_000_000;

/// Processes of a daemon with a kill program, at most.
const MOST_KILLPATHS: u64 = 1024;

/// The greatest number that a record may carry.
const GREATEST_NUMBER: u64 = (1 << 63) - 1;

/// The word of a host's state.
fn state_word(state: HostState) -> &'static str
    ensures { result.now ≡ texts.state_word state }
{
    match state {
        HostState::Unknown => "UNKN",
        HostState::Free => "FREE",
        HostState::Dead => "DEAD",
        HostState::Failing => "FAIL",
        HostState::Live => "LIVE",
    }
}

/// Whether the id is free; such an id isn't told.
fn is_free(state: HostState) -> bool
    ensures { result ≡ texts.is_free_host state }
{
    matches!(state, HostState::Free)
}

/// Adds an id and what it looks like behind a space.
fn push_state(out: &mut Vec<u8>, host: &StateOf) -> Result<(), AllocError>
    ensures ok { OnOk result (out.new.items ≡ out.old.items ++ 32 ∷ host_word host.now) }
    ensures kept { KeepsFronts out.old.items out.new.items }
{
    push_behind(out, u64::from(host.id))?;
    push_part(out, state_word(host.state).as_bytes())
}

/// Adds the ids that are not free, each behind a space.
fn push_each_state(out: &mut Vec<u8>, hosts: &[StateOf]) -> Result<(), AllocError>
    ensures ok { OnOk result (out.new.items ≡ out.old.items ++ behind (host_words hosts.now)) }
    ensures kept { KeepsFronts out.old.items out.new.items }
{
    for host in hosts {
        if !is_free(host.state) {
            push_state(out, host)?;
        }
    }
    Ok(())
}

/// Adds the ids that are not free.
#[tactic(auto, using(crate::proofs::LineLaws::words))]
fn push_states(out: &mut Vec<u8>, hosts: &[StateOf]) -> Result<(), AllocError>
    ensures ok { OnOk result (out.new.items ≡ out.old.items ++ spaced (codes "ok" ∷ host_words hosts.now)) }
    ensures kept { KeepsFronts out.old.items out.new.items }
{
    push_text(out, b"ok")?;
    push_each_state(out, hosts)
}

/// Adds the sessions, each behind a space.
fn push_each_session(out: &mut Vec<u8>, sessions: &[SessionOf]) -> Result<(), AllocError>
    ensures ok { OnOk result (out.new.items ≡ out.old.items ++ behind (map session_word sessions.now)) }
    ensures kept { KeepsFronts out.old.items out.new.items }
{
    for session in sessions {
        push_session(out, session)?;
    }
    Ok(())
}

/// Adds `ok`, and each session behind a space: lockspace, id and generation, with colons between.
#[tactic(auto, using(crate::proofs::LineLaws::words))]
fn push_sessions(out: &mut Vec<u8>, sessions: &[SessionOf]) -> Result<(), AllocError>
    ensures ok { OnOk result (out.new.items ≡ out.old.items ++ spaced (codes "ok" ∷ map session_word sessions.now)) }
    ensures kept { KeepsFronts out.old.items out.new.items }
{
    push_text(out, b"ok")?;
    push_each_session(out, sessions)
}

/// Adds a session behind a space.
fn push_session(out: &mut Vec<u8>, session: &SessionOf) -> Result<(), AllocError>
    ensures ok { OnOk result (out.new.items ≡ out.old.items ++ 32 ∷ session_word session.now) }
    ensures kept { KeepsFronts out.old.items out.new.items }
{
    push_word(out, session.lockspace.as_slice())?;
    push_number_part(out, u64::from(session.id))?;
    push_number_part(out, session.generation)
}

/// Adds the digits of a value's bytes, and a dash where there are none.
#[tactic(auto, using(crate::proofs::LineLaws::digits))]
fn push_digits(out: &mut Vec<u8>, bytes: &[u8]) -> Result<(), AllocError>
    ensures ok { OnOk result (out.new.items ≡ out.old.items ++ dash_for_none (hex_text bytes.now)) }
    ensures kept { KeepsFronts out.old.items out.new.items }
{
    if bytes.is_empty() {
        return push_text(out, b"-");
    }
    push_hex(out, bytes)
}

/// Adds the lver and the seq of a value, and its bytes.
fn push_value(out: &mut Vec<u8>, lver: u64, seq: u64, bytes: &Data) -> Result<(), AllocError>
    ensures ok { OnOk result (out.new.items ≡ out.old.items ++ spaced (codes "ok" ∷ decimal lver ∷ decimal seq ∷ dash_for_none (hex_text bytes.now) ∷ [])) }
    ensures kept { KeepsFronts out.old.items out.new.items }
{
    push_counted(out, "ok", &[lver, seq])?;
    push_byte(out, b' ')?;
    push_digits(out, bytes.as_slice())
}

/// Adds what a delta sector was seen to spell, and what a later read of it spelled.
fn push_versions(
    out: &mut Vec<u8>,
    first: DeltaVersion,
    later: Option<DeltaVersion>,
) -> Result<(), AllocError>
    ensures ok { OnOk result (out.new.items ≡ out.old.items ++ spaced (codes "IdHeld" ∷ texts.version_words first ++ texts.or_torn texts.version_words later)) }
    ensures kept { KeepsFronts out.old.items out.new.items }
{
    push_counted(out, "IdHeld", &[first.generation, first.seq])?;
    match later {
        Some(later) => push_version(out, later),
        None => push_word(out, b"torn"),
    }
}

/// Adds what a delta sector spells, behind a space.
fn push_version(out: &mut Vec<u8>, version: DeltaVersion) -> Result<(), AllocError>
    ensures ok { OnOk result (out.new.items ≡ out.old.items ++ 32 ∷ spaced (texts.version_words version)) }
    ensures kept { KeepsFronts out.old.items out.new.items }
{
    push_behind(out, version.generation)?;
    push_behind(out, version.seq)
}

/// Adds the session that should own an id, and what was found in its place.
fn push_owners(
    out: &mut Vec<u8>,
    own: DeltaOwner,
    found: Option<DeltaOwner>,
) -> Result<(), AllocError>
    ensures ok { OnOk result (out.new.items ≡ out.old.items ++ spaced (codes "IdLost" ∷ texts.owner_words own ++ texts.or_torn texts.owner_words found)) }
    ensures kept { KeepsFronts out.old.items out.new.items }
{
    push_text(out, b"IdLost")?;
    push_owner(out, own)?;
    match found {
        Some(found) => push_owner(out, found),
        None => push_word(out, b"torn"),
    }
}

/// Adds a session that owns an id, behind a space.
fn push_owner(out: &mut Vec<u8>, owner: DeltaOwner) -> Result<(), AllocError>
    ensures ok { OnOk result (out.new.items ≡ out.old.items ++ 32 ∷ spaced (texts.owner_words owner)) }
    ensures kept { KeepsFronts out.old.items out.new.items }
{
    push_behind(out, owner.generation)?;
    push_word(out, owner.name.as_slice())
}

/// Adds the lver that a request held, and the one that is stored.
fn push_stored(out: &mut Vec<u8>, held: u64, stored: Option<u64>) -> Result<(), AllocError>
    ensures ok { OnOk result (out.new.items ≡ out.old.items ++ spaced (codes "RequestOld" ∷ decimal held ∷ texts.number_word stored ∷ [])) }
    ensures kept { KeepsFronts out.old.items out.new.items }
{
    push_number_behind(out, "RequestOld", held)?;
    match stored {
        Some(stored) => push_behind(out, stored),
        None => push_word(out, b"torn"),
    }
}

/// Adds an area's lockspace and resource and its number of hosts.
fn push_area(
    out: &mut Vec<u8>,
    lockspace: &Name,
    resource: &Name,
    hosts: u32,
) -> Result<(), AllocError>
    ensures ok { OnOk result (out.new.items ≡ out.old.items ++ spaced (codes "WrongArea" ∷ lockspace.now ∷ resource.now ∷ decimal hosts ∷ [])) }
    ensures kept { KeepsFronts out.old.items out.new.items }
{
    push_text(out, b"WrongArea")?;
    push_word(out, lockspace.as_slice())?;
    push_word(out, resource.as_slice())?;
    push_behind(out, u64::from(hosts))
}

/// Adds a delta sector's lockspace and id.
fn push_delta(out: &mut Vec<u8>, lockspace: &Name, id: u32) -> Result<(), AllocError>
    ensures ok { OnOk result (out.new.items ≡ out.old.items ++ spaced (codes "WrongArea" ∷ lockspace.now ∷ decimal id ∷ [])) }
    ensures kept { KeepsFronts out.old.items out.new.items }
{
    push_text(out, b"WrongArea")?;
    push_word(out, lockspace.as_slice())?;
    push_behind(out, u64::from(id))
}

/// Adds a word alone.
fn push_alone(out: &mut Vec<u8>, word: &str) -> Result<(), AllocError>
    ensures ok { OnOk result (out.new.items ≡ out.old.items ++ counted word.now []) }
    ensures kept { KeepsFronts out.old.items out.new.items }
{
    push_text(out, word.as_bytes())
}

/// Adds a word, and a number behind it.
fn push_number_behind(out: &mut Vec<u8>, word: &str, number: u64) -> Result<(), AllocError>
    ensures ok { OnOk result (out.new.items ≡ out.old.items ++ counted word.now (number ∷ [])) }
    ensures kept { KeepsFronts out.old.items out.new.items }
{
    push_counted(out, word, &[number])
}

/// Adds a word, and an id or a process behind it.
fn push_id_behind(out: &mut Vec<u8>, word: &str, id: u32) -> Result<(), AllocError>
    ensures ok { OnOk result (out.new.items ≡ out.old.items ++ counted word.now (id ∷ [])) }
    ensures kept { KeepsFronts out.old.items out.new.items }
{
    push_number_behind(out, word, u64::from(id))
}

/// Adds a word, and two numbers behind it.
fn push_both_behind(
    out: &mut Vec<u8>,
    word: &str,
    first: u64,
    second: u64,
) -> Result<(), AllocError>
    ensures ok { OnOk result (out.new.items ≡ out.old.items ++ counted word.now (first ∷ second ∷ [])) }
    ensures kept { KeepsFronts out.old.items out.new.items }
{
    push_counted(out, word, &[first, second])
}

/// Adds a word, and a host and a number behind it.
fn push_host_behind(out: &mut Vec<u8>, word: &str, host: u32, number: u64) -> Result<(), AllocError>
    ensures ok { OnOk result (out.new.items ≡ out.old.items ++ counted word.now (host ∷ number ∷ [])) }
    ensures kept { KeepsFronts out.old.items out.new.items }
{
    push_both_behind(out, word, u64::from(host), number)
}

/// Adds a call that got no answer in time, and from when to when it had.
fn push_timeout(out: &mut Vec<u8>, call: u64, from: u64, to: u64) -> Result<(), AllocError>
    ensures ok { OnOk result (out.new.items ≡ out.old.items ++ counted (codes "IoTimeout") (call ∷ from ∷ to ∷ [])) }
    ensures kept { KeepsFronts out.old.items out.new.items }
{
    push_counted(out, "IoTimeout", &[call, from, to])
}

/// Adds the lver that is held, and its owner.
fn push_held(out: &mut Vec<u8>, lver: u64, owner: Owner) -> Result<(), AllocError>
    ensures ok { OnOk result (out.new.items ≡ out.old.items ++ spaced (codes "Held" ∷ decimal lver ∷ decimal owner.id ∷ decimal owner.generation ∷ [])) }
    ensures kept { KeepsFronts out.old.items out.new.items }
{
    push_counted(out, "Held", &[lver, u64::from(owner.id), owner.generation])
}

/// Adds one of those who share a resource.
fn push_shared(out: &mut Vec<u8>, owner: Owner) -> Result<(), AllocError>
    ensures ok { OnOk result (out.new.items ≡ out.old.items ++ spaced (codes "Shared" ∷ decimal owner.id ∷ decimal owner.generation ∷ [])) }
    ensures kept { KeepsFronts out.old.items out.new.items }
{
    push_counted(out, "Shared", &[u64::from(owner.id), owner.generation])
}

/// Adds what was counted, and its limit.
fn push_limit(out: &mut Vec<u8>, which: Limited) -> Result<(), AllocError>
    ensures ok { OnOk result (out.new.items ≡ out.old.items ++ spaced (codes "Limit" ∷ texts.limit_words which)) }
    ensures kept { KeepsFronts out.old.items out.new.items }
{
    let (word, most) = match which {
        Limited::Lockspaces => ("Limit lockspaces", MOST_LOCKSPACES),
        Limited::Resources => ("Limit resources", MOST_RESOURCES),
        Limited::Holders => ("Limit holders", MOST_HOLDERS),
        Limited::Children => ("Limit children", MOST_CHILDREN),
        Limited::Killpaths => ("Limit killpaths", MOST_KILLPATHS),
        Limited::Gen => ("Limit gen", GREATEST_NUMBER),
        Limited::Seq => ("Limit seq", GREATEST_NUMBER),
        Limited::Lver => ("Limit lver", GREATEST_NUMBER),
        Limited::Mbal => ("Limit mbal", GREATEST_NUMBER),
        Limited::Turn => ("Limit turn", GREATEST_NUMBER),
    };
    push_counted(out, word, &[most])
}

/// Adds the text of a reply that refuses.
#[tactic(auto, unfolding(sl_trace::specs::EffectTexts::reply_words))]
fn push_refusal(out: &mut Vec<u8>, reply: &Reply) -> Result<(), AllocError>
    requires { texts.is_ok_reply reply.now ≡ false }
    ensures ok { OnOk result (out.new.items ≡ out.old.items ++ texts.reply_text reply.now) }
    ensures kept { KeepsFronts out.old.items out.new.items }
{
    match reply {
        Reply::NoSession => push_alone(out, "NoSession"),
        Reply::Joining => push_alone(out, "Joining"),
        Reply::Recovering { renewed } => push_number_behind(out, "Recovering", *renewed),
        Reply::IdHeld { first, later } => push_versions(out, *first, *later),
        Reply::IdLost { own, found } => push_owners(out, *own, *found),
        Reply::IdLate { claimed, now } => push_both_behind(out, "IdLate", *claimed, *now),
        Reply::TornDelta => push_alone(out, "TornDelta"),
        Reply::TornLeader => push_alone(out, "TornLeader"),
        Reply::TornBlock { host } => push_id_behind(out, "TornBlock", *host),
        Reply::Held { lver, owner } => push_held(out, *lver, *owner),
        Reply::Shared { owner } => push_shared(out, *owner),
        Reply::Rival { host, mbal } => push_host_behind(out, "Rival", *host, *mbal),
        Reply::Ahead { host, lver } => push_host_behind(out, "Ahead", *host, *lver),
        Reply::IoTimeout { call, from, to } => push_timeout(out, *call, *from, *to),
        Reply::IoFault { call } => push_number_behind(out, "IoFault", *call),
        Reply::Pending { call } => push_number_behind(out, "Pending", *call),
        Reply::Busy { process } => push_id_behind(out, "Busy", *process),
        Reply::NoOrphan => push_alone(out, "NoOrphan"),
        Reply::NotHeld => push_alone(out, "NotHeld"),
        Reply::SpawnFault => push_alone(out, "SpawnFault"),
        Reply::ValueTorn => push_alone(out, "ValueTorn"),
        Reply::BadCommand { column } => push_number_behind(out, "BadCommand", *column),
        Reply::Limit { which } => push_limit(out, *which),
        Reply::RequestOld { held, stored } => push_stored(out, *held, *stored),
        Reply::WrongArea {
            lockspace,
            resource,
            hosts,
        } => push_area(out, lockspace, resource, *hosts),
        Reply::WrongDelta { lockspace, id } => push_delta(out, lockspace, *id),
        Reply::NoProcess { process } => push_id_behind(out, "NoProcess", *process),
        Reply::Joined { generation } => push_number_behind(out, "Joined", *generation),
        _ => unreachable!(),
    }
}

/// Adds the text of a reply.
#[tactic(auto, unfolding(sl_trace::specs::EffectTexts::reply_words))]
fn push_reply(out: &mut Vec<u8>, reply: &Reply) -> Result<(), AllocError>
    ensures ok { OnOk result (out.new.items ≡ out.old.items ++ texts.reply_text reply.now) }
    ensures kept { KeepsFronts out.old.items out.new.items }
{
    match reply {
        Reply::Done => push_alone(out, "ok"),
        Reply::Generation { generation } => push_number_behind(out, "ok", *generation),
        Reply::Granted { lver } => push_number_behind(out, "ok", *lver),
        Reply::Started { lver, process } => push_counted(out, "ok", &[*lver, u64::from(*process)]),
        Reply::Value { lver, seq, bytes } => push_value(out, *lver, *seq, bytes),
        Reply::ValueSet { .. } => push_alone(out, "ok"),
        Reply::Hosts(states) => push_states(out, states.as_slice()),
        Reply::Sessions(sessions) => push_sessions(out, sessions.as_slice()),
        _ => push_refusal(out, reply),
    }
}

/// Adds the text of a reply behind a space.
pub(crate) fn push_reply_behind(out: &mut Vec<u8>, reply: &Reply) -> Result<(), AllocError>
    ensures ok { OnOk result (out.new.items ≡ out.old.items ++ 32 ∷ texts.reply_text reply.now) }
    ensures kept { KeepsFronts out.old.items out.new.items }
{
    push_byte(out, b' ')?;
    push_reply(out, reply)
}

/// Adds the text of a reply, without a line feed. An `Err` is want of memory, and `out` stays as it was.
#[tactic(auto, using(crate::proofs::LineLaws::whole_kept))]
pub fn push_reply_text(out: &mut Vec<u8>, reply: &Reply) -> Result<(), AllocError>
    ensures ok { OnOk result (out.new.items ≡ out.old.items ++ texts.reply_text reply.now) }
    ensures err { OnErr result (out.new.items ≡ out.old.items) }
{
    let len = out.len();
    let pushed = push_reply(out, reply);
    if pushed.is_err() {
        out.truncate(len);
    }
    pushed
}
