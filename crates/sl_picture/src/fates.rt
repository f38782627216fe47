//! What becomes of an open bar when something happens: it stays, as it is or changed; it ends; or it ends and another one takes its place.

ghost use Rattle.sl_picture.specs.Fates as fates;
ghost use Rattle.std.specs.Prelude.{◌≡◌};

use crate::shapes::{Bar, Instant, Shape, Text};

/// What happens.
#[derive(Clone, Copy)]
pub(crate) enum Deed {
    /// A command is answered, or any of the machine's where the number is 0.
    Answered,
    /// A call is answered or dropped.
    CallOver,
    /// A write lands or is torn: behind the end of its daemon it is over.
    Landed,
    /// A connection is renewed, or removed.
    Renewed,
    Removed,
    /// A holding ends.
    Released,
    /// A resource is granted, or somebody is refused it.
    Granted,
    Denied,
    /// The daemon ends, or the machine goes down.
    Crashed,
    WentDown,
    /// A daemon begins, or the machine comes up.
    Started,
    CameUp,
    /// Time has passed.
    Ticked,
    /// What came before is not shown.
    Hidden,
}

/// What happens, on which machine, to what, and what becomes of that: the shape of a command that is answered and the text of the answer, the
/// expiry of a connection that is renewed, the row of a grant.
#[derive(Clone, Copy)]
pub(crate) struct Act {
    pub(crate) deed: Deed,
    pub(crate) machine: u64,
    pub(crate) number: u64,
    pub(crate) until: u64,
    pub(crate) row: u64,
    pub(crate) shape: Shape,
    pub(crate) reply: Text,
}

/// The text of no bytes.
pub(crate) const NO_TEXT: Text = Text { start: 0, len: 0 };

/// Something that happens on a machine to what has this number.
pub(crate) fn deed_on(deed: Deed, machine: u64, number: u64) -> Act
    ensures { result ≡ fates.act deed machine number }
{
    Act {
        deed,
        machine,
        number,
        until: 0,
        row: 0,
        shape: Shape::Waiting,
        reply: NO_TEXT,
    }
}

/// Whether the shape is a command's that has no answer.
pub(crate) fn is_waiting(shape: Shape) -> bool
    ensures { result ≡ fates.is_waiting shape }
{
    matches!(shape, Shape::Waiting)
}

/// Whether it is a command's.
pub(crate) fn is_command(shape: Shape) -> bool
    ensures { result ≡ fates.is_command shape }
{
    matches!(
        shape,
        Shape::Waiting | Shape::Accepted | Shape::Refused | Shape::Unclear
    )
}

/// Whether it is a call's.
pub(crate) fn is_call(shape: Shape) -> bool
    ensures { result ≡ fates.is_call shape }
{
    matches!(shape, Shape::Read | Shape::Write | Shape::Orphan)
}

/// Whether it is that of a write whose daemon has ended.
fn is_orphan(shape: Shape) -> bool
    ensures { result ≡ fates.is_orphan shape }
{
    matches!(shape, Shape::Orphan)
}

/// Whether it is a connection's.
pub(crate) fn is_link(shape: Shape) -> bool
    ensures { result ≡ fates.is_link shape }
{
    matches!(
        shape,
        Shape::Joining | Shape::Joined | Shape::Left | Shape::Expired
    )
}

/// Whether it is that of a connection that has not expired.
fn is_live_link(shape: Shape) -> bool
    ensures { result ≡ fates.is_live_link shape }
{
    matches!(shape, Shape::Joining | Shape::Joined | Shape::Left)
}

/// Whether it is a holding's.
pub(crate) fn is_holding(shape: Shape) -> bool
    ensures { result ≡ fates.is_holding shape }
{
    matches!(shape, Shape::Exclusive | Shape::Shared)
}

/// Whether it is that of a resource that nobody holds.
pub(crate) fn is_gap(shape: Shape) -> bool
    ensures { result ≡ fates.is_gap shape }
{
    matches!(shape, Shape::Gap | Shape::Wanted)
}

/// Whether it is that of a machine that is down.
fn is_down(shape: Shape) -> bool
    ensures { result ≡ fates.is_down shape }
{
    matches!(shape, Shape::Down)
}

/// Whether it is that of a machine without a daemon.
fn is_idle(shape: Shape) -> bool
    ensures { result ≡ fates.is_idle shape }
{
    matches!(shape, Shape::Idle)
}

/// Whether it is of what a daemon leaves behind when it ends, other than its holdings.
fn is_of_daemon(shape: Shape) -> bool
    ensures { result ≡ fates.is_of_daemon shape }
{
    is_command(shape) || is_call(shape) || is_link(shape)
}

/// Whether what happens on the bar's machine concerns the bar, of which it is known whether it is of the thing that is named.
#[tactic(auto, unfolding(crate::specs::Fates::concerns_there))]
fn concerns_there(act: Act, same: bool, bar: Bar) -> bool
    ensures { result ≡ fates.concerns_there act same bar }
{
    match act.deed {
        Deed::Answered => { is_waiting(bar.shape) && (act.number == 0 || act.number == bar.number) }
        Deed::CallOver => is_call(bar.shape) && act.number == bar.number,
        Deed::Landed => is_orphan(bar.shape) && act.number == bar.number,
        Deed::Renewed => is_link(bar.shape) && same,
        Deed::Removed => is_link(bar.shape) && same,
        Deed::Released => is_holding(bar.shape) && same && act.number == bar.number,
        Deed::Crashed => is_of_daemon(bar.shape),
        Deed::WentDown => is_of_daemon(bar.shape) || is_idle(bar.shape),
        Deed::Started => is_idle(bar.shape),
        Deed::CameUp => is_down(bar.shape),
        Deed::Granted | Deed::Denied | Deed::Ticked | Deed::Hidden => false,
    }
}

/// Whether what happens concerns the bar, whose machine's clock shows this reading.
#[tactic(auto, unfolding(crate::specs::Fates::concerns))]
fn concerns(act: Act, same: bool, reading: u64, bar: Bar) -> bool
    ensures { result ≡ fates.concerns act same reading bar }
{
    match act.deed {
        Deed::Granted | Deed::Denied => is_gap(bar.shape) && same,
        Deed::Ticked => is_live_link(bar.shape) && bar.until <= reading,
        Deed::Hidden => true,
        _ => bar.machine == act.machine && concerns_there(act, same, bar),
    }
}

/// What becomes of a bar: it stays, so or changed; it ends.
#[derive(Clone, Copy)]
pub(crate) struct Fate {
    pub(crate) stays: Option<Bar>,
    pub(crate) ends: Option<Bar>,
}

/// The bar stays, as this.
fn stays(bar: Bar) -> Fate
    ensures { result ≡ fates.stays bar }
{
    Fate {
        stays: Some(bar),
        ends: None,
    }
}

/// The bar, ended.
pub(crate) fn ended(now: Instant, bar: Bar) -> Bar
    ensures { result ≡ fates.ended now bar }
{
    Bar { to: now, ..bar }
}

/// The bar ends, as this.
fn ends(now: Instant, bar: Bar) -> Fate
    ensures { result ≡ fates.ends now bar }
{
    Fate {
        stays: None,
        ends: Some(ended(now, bar)),
    }
}

/// The bar ends, and one of this shape and this expiry goes on.
fn turns(now: Instant, bar: Bar, shape: Shape, until: u64) -> Fate
    ensures { result ≡ fates.turns now bar shape until }
{
    Fate {
        stays: Some(Bar {
            shape,
            until,
            from: now,
            to: now,
            ..bar
        }),
        ends: Some(ended(now, bar)),
    }
}

/// The bar of a resource that is granted: where another machine held it last, at an earlier moment, it stands above the holding; else it is gone.
fn bridged(act: Act, now: Instant, bar: Bar) -> Fate
    ensures { result ≡ fates.bridged act now bar }
{
    if bar.machine == act.machine || bar.from.moment == now.moment {
        return Fate {
            stays: None,
            ends: None,
        };
    }
    ends(
        now,
        Bar {
            machine: act.machine,
            row: act.row,
            ..bar
        },
    )
}

/// What a crash makes of a bar of the daemon.
fn orphaned(now: Instant, bar: Bar) -> Fate
    ensures { result ≡ fates.orphaned now bar }
{
    match bar.shape {
        Shape::Write | Shape::Orphan => {
            stays(Bar {
                shape: Shape::Orphan,
                ..bar
            })
        }
        Shape::Joining | Shape::Joined | Shape::Left => turns(now, bar, Shape::Left, bar.until),
        Shape::Expired => stays(bar),
        _ => ends(now, bar),
    }
}

/// What a reset makes of a bar of the machine: its connections end too.
fn dropped(now: Instant, bar: Bar) -> Fate
    ensures { result ≡ fates.dropped now bar }
{
    if is_link(bar.shape) {
        ends(now, bar)
    } else {
        orphaned(now, bar)
    }
}

/// The bar as the first instant of a part sees it: no event came before, and the moment is kept.
fn hidden(bar: Bar) -> Bar
    ensures { result ≡ fates.hidden bar }
{
    Bar {
        from: Instant {
            events: 0,
            moment: bar.from.moment,
        },
        ..bar
    }
}

/// What becomes of a bar that what happens concerns.
#[tactic(auto, unfolding(crate::specs::Fates::changed))]
fn changed(act: Act, now: Instant, bar: Bar) -> Fate
    ensures { result ≡ fates.changed act now bar }
{
    match act.deed {
        Deed::Answered => {
            ends(
                now,
                Bar {
                    shape: act.shape,
                    reply: act.reply,
                    ..bar
                },
            )
        }
        Deed::Renewed => turns(now, bar, Shape::Joined, act.until),
        Deed::Granted => bridged(act, now, bar),
        Deed::Denied => {
            stays(Bar {
                shape: Shape::Wanted,
                ..bar
            })
        }
        Deed::Crashed => orphaned(now, bar),
        Deed::WentDown => dropped(now, bar),
        Deed::Ticked => turns(now, bar, Shape::Expired, bar.until),
        Deed::Hidden => stays(hidden(bar)),
        Deed::CallOver
        | Deed::Landed
        | Deed::Removed
        | Deed::Released
        | Deed::Started
        | Deed::CameUp => ends(now, bar),
    }
}

/// What becomes of an open bar now: of it is known whether it is of the thing that is named, and what its machine's clock shows, in milliseconds.
pub(crate) fn becomes(act: Act, same: bool, reading: u64, now: Instant, bar: Bar) -> Fate
    ensures { result ≡ fates.fate act same reading now bar }
{
    if concerns(act, same, reading, bar) {
        changed(act, now, bar)
    } else {
        stays(bar)
    }
}
