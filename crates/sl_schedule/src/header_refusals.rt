//! Why a line of a header may not stand after the lines before it: what it says is past its limit, or what it names is missing or taken.

ghost use Rattle.sl_report.specs.HeaderRefusals.{header_tests, is_on_disk};
ghost use Rattle.sl_report.specs.HeaderLines.{TimeLine};
ghost use Rattle.sl_run.specs.Worlds.{first_that, mebibyte};
ghost use Rattle.sl_run.specs.declared.header.Header.{Header as HeaderOf};
ghost use Rattle.sl_schedule.specs.HeadersSoFar.{times_seen};
ghost use Rattle.sl_time.specs.Times.{IsTiming};
ghost use Rattle.std.specs.List.{list_any};
ghost use Rattle.std.specs.Prelude.{bytes_eq, nat_le, not, IfNone, ◌*◌, ◌+◌, ◌==◌, ◌&&◌, ◌||◌, ◌≡◌};

use crate::header_line::Times;
use sl_run::{Disk, FirstReading, LockspaceLine, Refusal, ResourceLine, SessionLine};
use sl_text::{FilePath, Name};

/// The longest time in a header, in milliseconds.
const LONGEST: u64 = 600_000;

/// The most drift of a clock, in per mille.
const MOST_DRIFT: u64 = 100;

/// The bytes of a mebibyte.
const MEBIBYTE: u64 = 1_048_576;

/// The first of the times, in milliseconds and thousandths, that is out of its range, if one is.
#[tactic(auto, unfolding(sl_report::specs::HeaderRefusals::header_tests))]
pub fn times_refusal(times: &Times) -> Option<Refusal>
    ensures exact { (h : HeaderOf) → result ≡ first_that (header_tests h (TimeLine times.now.io times.now.fire times.now.land times.now.rho times.now.grace)) }
    ensures possible { IfNone result (IsTiming (times_seen times.now).0) }
{
    if times.io < 1 || LONGEST < times.io {
        return Some(Refusal::LimitIo);
    }
    if LONGEST < times.fire {
        return Some(Refusal::LimitFire);
    }
    if LONGEST < times.land {
        return Some(Refusal::LimitLand);
    }
    if MOST_DRIFT < times.rho {
        return Some(Refusal::LimitRho);
    }
    if LONGEST < times.grace {
        return Some(Refusal::LimitGrace);
    }
    None
}

/// Whether the machine has a clock line.
pub fn has_clock(clocks: &[FirstReading], machine: u32) -> bool
    ensures { result ≡ list_any (λ d. d.machine == machine) clocks.now }
{
    clocks.iter().any(|clock| clock.machine == machine)
}

/// Whether it is the disk with this path.
fn is_disk(disk: &Disk, path: &FilePath) -> bool
    ensures { result ≡ bytes_eq disk.now.path path.now }
{
    disk.path == *path
}

/// Whether there is a disk with this path.
pub fn has_disk(disks: &[Disk], path: &FilePath) -> bool
    ensures { result ≡ list_any (λ d. bytes_eq d.path path.now) disks.now }
{
    disks.iter().any(|disk| is_disk(disk, path))
}

/// Whether an area of so many bytes at the offset lies on a disk of so many mebibytes.
fn fits(mebibytes: u64, area: u64, offset: u64) -> bool
    ensures { result ≡ nat_le (offset + area) (mebibytes * mebibyte) }
{
    u128::from(offset) + u128::from(area) <= u128::from(mebibytes) * u128::from(MEBIBYTE)
}

/// Whether an area of so many bytes at the offset lies on the disk, if the path is the disk's.
fn is_within(disk: &Disk, area: u64, path: &FilePath, offset: u64) -> bool
    ensures { result ≡ (bytes_eq disk.now.path path.now && nat_le (offset + area) (disk.now.mebibytes * mebibyte)) }
{
    is_disk(disk, path) && fits(disk.mebibytes, area, offset)
}

/// Whether an area of so many bytes at the offset lies on the disk with this path.
pub fn is_on_disk(disks: &[Disk], area: u64, path: &FilePath, offset: u64) -> bool
    ensures { result ≡ is_on_disk disks.now area path.now offset }
{
    disks.iter().any(|disk| is_within(disk, area, path, offset))
}

/// Whether it is the lockspace with this name.
fn is_lockspace(line: &LockspaceLine, name: &Name) -> bool
    ensures { result ≡ bytes_eq line.now.name name.now }
{
    line.name == *name
}

/// Whether one of these lockspaces has the name.
pub fn is_known(lockspaces: &[LockspaceLine], name: &Name) -> bool
    ensures { result ≡ list_any (λ l. bytes_eq l.name name.now) lockspaces.now }
{
    lockspaces.iter().any(|line| is_lockspace(line, name))
}

/// Whether the lockspace's area begins there.
fn is_lockspace_at(line: &LockspaceLine, path: &FilePath, offset: u64) -> bool
    ensures { result ≡ (bytes_eq line.now.path path.now && line.now.offset == offset) }
{
    line.path == *path && line.offset == offset
}

/// Whether the resource's area begins there.
fn is_resource_at(line: &ResourceLine, path: &FilePath, offset: u64) -> bool
    ensures { result ≡ (bytes_eq line.now.path path.now && line.now.offset == offset) }
{
    line.path == *path && line.offset == offset
}

/// Whether a lockspace's area begins there.
fn has_lockspace_at(lockspaces: &[LockspaceLine], path: &FilePath, offset: u64) -> bool
    ensures { result ≡ list_any (λ l. bytes_eq l.path path.now && l.offset == offset) lockspaces.now }
{
    lockspaces
        .iter()
        .any(|line| is_lockspace_at(line, path, offset))
}

/// Whether a resource's area begins there.
fn has_resource_at(resources: &[ResourceLine], path: &FilePath, offset: u64) -> bool
    ensures { result ≡ list_any (λ r. bytes_eq r.path path.now && r.offset == offset) resources.now }
{
    resources
        .iter()
        .any(|line| is_resource_at(line, path, offset))
}

/// Whether an area of one of these lines begins at this place already.
pub fn is_taken(
    lockspaces: &[LockspaceLine],
    resources: &[ResourceLine],
    path: &FilePath,
    offset: u64,
) -> bool
    ensures { result ≡ (list_any (λ l. bytes_eq l.path path.now && l.offset == offset) lockspaces.now
        || list_any (λ r. bytes_eq r.path path.now && r.offset == offset) resources.now) }
{
    has_lockspace_at(lockspaces, path, offset) || has_resource_at(resources, path, offset)
}

/// Whether both are the same resource.
fn is_resource(line: &ResourceLine, other: &ResourceLine) -> bool
    ensures { result ≡ (bytes_eq line.now.lockspace other.now.lockspace && bytes_eq line.now.name other.now.name) }
{
    line.lockspace == other.lockspace && line.name == other.name
}

/// Whether one of these lines names the same resource of the same lockspace already.
pub fn has_resource(resources: &[ResourceLine], other: &ResourceLine) -> bool
    ensures { result
        ≡ list_any (λ q. bytes_eq q.lockspace other.now.lockspace && bytes_eq q.name other.now.name) resources.now }
{
    resources.iter().any(|line| is_resource(line, other))
}

/// Whether one session leaves no room for the other: it has the id or the machine in the lockspace, or the machine by another name.
fn excludes(line: &SessionLine, other: &SessionLine) -> bool
    ensures { result ≡ (bytes_eq line.now.lockspace other.now.lockspace && (line.now.id == other.now.id || line.now.machine == other.now.machine)
        || line.now.machine == other.now.machine && not (bytes_eq line.now.name other.now.name)) }
{
    let is_machine = line.machine == other.machine;
    line.lockspace == other.lockspace && (line.id == other.id || is_machine)
        || is_machine && line.name != other.name
}

/// Whether a session leaves no room for this one.
pub fn is_excluded(sessions: &[SessionLine], other: &SessionLine) -> bool
    ensures { result ≡ list_any (λ o. bytes_eq o.lockspace other.now.lockspace && (o.id == other.now.id || o.machine == other.now.machine)
        || o.machine == other.now.machine && not (bytes_eq o.name other.now.name)) sessions.now }
{
    sessions.iter().any(|line| excludes(line, other))
}

/// Whether one session has the other's name on another machine.
fn takes_name(line: &SessionLine, other: &SessionLine) -> bool
    ensures { result ≡ (not (line.now.machine == other.now.machine) && bytes_eq line.now.name other.now.name) }
{
    line.machine != other.machine && line.name == other.name
}

/// Whether another machine has the session's name.
pub fn is_name_taken(sessions: &[SessionLine], other: &SessionLine) -> bool
    ensures { result ≡ list_any (λ o. not (o.machine == other.now.machine) && bytes_eq o.name other.now.name) sessions.now }
{
    sessions.iter().any(|line| takes_name(line, other))
}
