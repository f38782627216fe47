//! Which locks' holdings a step has ended.
//!
//! An end tells its place and its process; a lock's place is compared as it stands, letter by letter, so nothing is made for it.

ghost use Rattle.sl_locks.specs.Ends.{behind};
ghost use Rattle.sl_run.specs.LockNames.{doubled, group_path};
ghost use Rattle.sl_run.specs.Lvm as lvm;
ghost use Rattle.sl_trace.specs.Traces.{same_place};
ghost use Rattle.std.specs.List.{list_any};
ghost use Rattle.std.specs.Prelude.{MatchOption, None, Some, bytes_eq, filter, if◌then◌else◌, not, [], ◌&&◌, ◌*◌, ◌==◌, ◌∷◌, ◌≡◌, ◌≤◌};
ghost use Rattle.std.specs.Vec.{vec_capacity, vec_len};

use crate::ask::{LOCK_PROCESS, offset_of};
use crate::lock::{HeldLock, Lock};
use sl_area::Geometry;
use sl_text::Name;
use sl_trace::End;

/// What follows a piece, if the text begins with it.
fn behind<'a>(text: &'a [u8], piece: &[u8]) -> Option<&'a [u8]>
    ensures { MatchOption result (behind piece.now text.now ≡ None) (λ rest. behind piece.now text.now ≡ Some rest.now) }
{
    text.strip_prefix(piece)
}

/// What follows a character of a group's name, which stands twice in a path if it is a dash.
fn behind_doubled(text: &[u8], byte: u8) -> Option<&[u8]>
    ensures { MatchOption result (behind (if byte == 45 then 45 ∷ 45 ∷ [] else byte ∷ []) text.now ≡ None) (λ rest. behind (if byte == 45 then 45 ∷ 45 ∷ [] else byte ∷ []) text.now ≡ Some rest.now) }
{
    if byte == b'-' {
        return behind(text, b"--");
    }
    behind(text, &[byte])
}

/// What follows a group's name, as a path has it.
fn behind_name<'a>(text: &'a [u8], name: &[u8]) -> Option<&'a [u8]>
    ensures { MatchOption result (behind (doubled name.now) text.now ≡ None) (λ rest. behind (doubled name.now) text.now ≡ Some rest.now) }
{
    let mut rest = text;
    for byte in name {
        match behind_doubled(rest, *byte) {
            Some(more) => rest = more,
            None => return None,
        }
    }
    Some(rest)
}

/// Whether the path is the disk of a group's areas.
fn is_path_of(path: &[u8], group: &Name) -> bool
    ensures { result ≡ bytes_eq path.now (group_path group.now) }
{
    match behind(path, b"/dev/mapper/") {
        None => false,
        Some(rest) => match behind_name(rest, group.as_slice()) {
            None => false,
            Some(rest) => rest == b"-lvmlock".as_slice(),
        },
    }
}

/// Whether the end is that of a lock's holding.
fn is_end_of(end: &End, geometry: &Geometry, lock: &Lock) -> bool
    ensures { result ≡ (end.now.process == lvm.lock_process && same_place end.now.path end.now.offset (group_path lock.now.group) (lock.now.number * geometry.now.area)) }
{
    end.process == LOCK_PROCESS
        && end.offset == offset_of(geometry, lock)
        && is_path_of(end.path.as_slice(), &lock.group)
}

/// Whether one of the ends is that of a lock's holding.
fn is_ended(ends: &[End], geometry: &Geometry, lock: &Lock) -> bool
    ensures { result ≡ lvm.ends_lock geometry.now.area ends.now lock.now }
{
    ends.iter().any(|end| is_end_of(end, geometry, lock))
}

/// Whether one of the ends is lvmlockd's.
fn is_of_lvmlockd(end: &End) -> bool
    ensures { result ≡ (end.now.process == lvm.lock_process) }
{
    end.process == LOCK_PROCESS
}

/// Whether lvmlockd's process ended holdings at all.
fn ends_any(ends: &[End]) -> bool
    ensures { result ≡ list_any (λ e. e.process == lvm.lock_process) ends.now }
{
    ends.iter().any(is_of_lvmlockd)
}

/// Locks whose holdings these end are no longer held. It takes no memory, and one look where lvmlockd's process ended none.
pub(crate) fn drop_ended(held: &mut Vec<HeldLock>, ends: &[End], geometry: &Geometry)
    ensures items { held.new.items ≡ filter (λ h. not (lvm.ends_lock geometry.now.area ends.now h.lock)) held.old.items }
    ensures len { vec_len held.new ≤ vec_len held.old }
    ensures room { vec_capacity held.new ≡ vec_capacity held.old }
{
    if ends_any(ends) {
        held.retain(|held| !is_ended(ends, geometry, &held.lock));
    }
}
