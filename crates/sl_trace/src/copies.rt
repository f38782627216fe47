//! Copies of replies.
//!
//! A reply takes memory only where it lists ids or sessions, so a copy of any other can't fail.

ghost use Rattle.sl_trace.specs.EffectTexts.{is_ok_reply};
ghost use Rattle.sl_trace.specs.ReplyLists.{has_list};
ghost use Rattle.std.specs.Prelude.{IfOk, false, ◌≡◌};

use crate::reply::Reply;
use sl_text::Seq;
use std::alloc::{AllocError, Global};

/// A copy of these. An `Err` is want of memory.
pub fn copy_list<T: Copy>(alloc: Global, items: &[T]) -> Result<Seq<T>, AllocError>
    ensures { IfOk result (λ copy. copy ≡ items.now) }
{
    Ok(Seq::new(Vec::from_slice(alloc, items)?))
}

/// A copy of a reply that refuses.
fn copy_refusal(reply: &Reply) -> Reply
    requires { is_ok_reply reply.now ≡ false }
    ensures { result ≡ reply.now }
{
    match *reply {
        Reply::NoSession => Reply::NoSession,
        Reply::Joining => Reply::Joining,
        Reply::Recovering { renewed } => Reply::Recovering { renewed },
        Reply::IdHeld { first, later } => Reply::IdHeld { first, later },
        Reply::IdLost { own, found } => Reply::IdLost { own, found },
        Reply::IdLate { claimed, now } => Reply::IdLate { claimed, now },
        Reply::TornDelta => Reply::TornDelta,
        Reply::TornLeader => Reply::TornLeader,
        Reply::TornBlock { host } => Reply::TornBlock { host },
        Reply::Held { lver, owner } => Reply::Held { lver, owner },
        Reply::Shared { owner } => Reply::Shared { owner },
        Reply::Rival { host, mbal } => Reply::Rival { host, mbal },
        Reply::Ahead { host, lver } => Reply::Ahead { host, lver },
        Reply::IoTimeout { call, from, to } => Reply::IoTimeout { call, from, to },
        Reply::IoFault { call } => Reply::IoFault { call },
        Reply::Pending { call } => Reply::Pending { call },
        Reply::Busy { process } => Reply::Busy { process },
        Reply::NoOrphan => Reply::NoOrphan,
        Reply::NotHeld => Reply::NotHeld,
        Reply::SpawnFault => Reply::SpawnFault,
        Reply::ValueTorn => Reply::ValueTorn,
        Reply::BadCommand { column } => Reply::BadCommand { column },
        Reply::Limit { which } => Reply::Limit { which },
        Reply::RequestOld { held, stored } => Reply::RequestOld { held, stored },
        Reply::WrongArea {
            lockspace,
            resource,
            hosts,
        } => Reply::WrongArea {
            lockspace,
            resource,
            hosts,
        },
        Reply::WrongDelta { lockspace, id } => Reply::WrongDelta { lockspace, id },
        Reply::NoProcess { process } => Reply::NoProcess { process },
        Reply::Joined { generation } => Reply::Joined { generation },
        _ => unreachable!(),
    }
}

/// A copy of a reply that is no list.
pub fn copy_plain(reply: &Reply) -> Reply
    requires { has_list reply.now ≡ false }
    ensures { result ≡ reply.now }
{
    match *reply {
        Reply::Done => Reply::Done,
        Reply::Generation { generation } => Reply::Generation { generation },
        Reply::Granted { lver } => Reply::Granted { lver },
        Reply::Started { lver, process } => Reply::Started { lver, process },
        Reply::Value { lver, seq, bytes } => Reply::Value { lver, seq, bytes },
        Reply::ValueSet { lver, seq } => Reply::ValueSet { lver, seq },
        Reply::Hosts(_) => unreachable!(),
        Reply::Sessions(_) => unreachable!(),
        _ => copy_refusal(reply),
    }
}

/// A copy of a reply. An `Err` is want of memory.
pub fn copy_reply(alloc: Global, reply: &Reply) -> Result<Reply, AllocError>
    ensures { IfOk result (λ copy. copy ≡ reply.now) }
{
    match reply {
        Reply::Hosts(seen) => Ok(Reply::Hosts(copy_list(alloc, seen.as_slice())?)),
        Reply::Sessions(present) => Ok(Reply::Sessions(copy_list(alloc, present.as_slice())?)),
        _ => Ok(copy_plain(reply)),
    }
}
