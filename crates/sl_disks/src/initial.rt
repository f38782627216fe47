//! What a header's world has on its disks at moment 0: the delta records of each lockspace, the fresh records of each resource, and
//! zeros everywhere else.
//!
//! No disk is laid out. What stands at a place is worked out when it is asked for, so a world of many mebibytes takes no more room than
//! what was written to it.

ghost use Rattle.sl_area.specs.AreaSizes.{layout_of};
ghost use Rattle.sl_area.specs.AreaLayout.{area_sectors, in_area};
ghost use Rattle.sl_area.specs.AreaRecords.{fresh_block, fresh_block_at, fresh_delta, fresh_leader, fresh_pair, leader_record, no_request, no_value};
ghost use Rattle.sl_run.specs.Worlds.{clock_reading, initial_delta, initial_of_lockspace, initial_of_resource, initial_record, member_delta};
ghost use Rattle.sl_disks.specs.Initial.{clock_of, line_at, resource_at, session_of};
ghost use Rattle.std.specs.Option.{option_copied};
ghost use Rattle.std.specs.Prelude.{find, ◌≡◌, ◌==◌, ◌&&◌, ◌<◌, ◌≤◌, ◌+◌, bytes_eq, [], ◌*◌};

use sl_area::Geometry;
use sl_run::{FirstReading, Header, LockspaceLine, ResourceLine, SessionLine};
use sl_sector::{Block, DeltaRec, DeltaState, Leader, PairBlock, Rec, Request, ValueRec};
use sl_text::{Data, FilePath, Name};

/// Whether the offset lies in the area at this base.
fn is_in_area(geometry: Geometry, base: u64, offset: u64) -> bool
    ensures { result ≡ in_area (layout_of geometry) base offset }
{
    base <= offset && offset - base < geometry.area()
}

/// Whether this is the lockspace's area that has the place.
fn is_lockspace_at(geometry: Geometry, line: &LockspaceLine, path: FilePath, offset: u64) -> bool
    ensures { result ≡ (bytes_eq line.now.path path && in_area (layout_of geometry) line.now.offset offset) }
{
    line.path == path && is_in_area(geometry, line.offset, offset)
}

/// Whether this is the resource's area that has the place.
fn is_resource_at(geometry: Geometry, line: &ResourceLine, path: FilePath, offset: u64) -> bool
    ensures { result ≡ (bytes_eq line.now.path path && in_area (layout_of geometry) line.now.offset offset) }
{
    line.path == path && is_in_area(geometry, line.offset, offset)
}

/// The lockspace whose area has the place.
fn lockspace_at(header: &Header, path: FilePath, offset: u64) -> Option<&LockspaceLine>
    ensures { option_copied result ≡ line_at header.now path offset }
{
    let geometry = header.geometry;
    header
        .lockspaces
        .as_slice()
        .iter()
        .find(|line| is_lockspace_at(geometry, line, path, offset))
}

/// The resource whose area has the place.
fn resource_at(header: &Header, path: FilePath, offset: u64) -> Option<&ResourceLine>
    ensures { option_copied result ≡ resource_at header.now path offset }
{
    let geometry = header.geometry;
    header
        .resources
        .as_slice()
        .iter()
        .find(|line| is_resource_at(geometry, line, path, offset))
}

/// Whether the session has this id of the lockspace.
fn is_member(session: &SessionLine, lockspace: Name, id: u32) -> bool
    ensures { result ≡ (bytes_eq session.now.lockspace lockspace && session.now.id == id) }
{
    session.lockspace == lockspace && session.id == id
}

/// The session that has this id of the lockspace.
fn member(header: &Header, lockspace: Name, id: u32) -> Option<&SessionLine>
    ensures { option_copied result ≡ session_of header.now lockspace id }
{
    header
        .sessions
        .as_slice()
        .iter()
        .find(|session| is_member(session, lockspace, id))
}

/// The line of a machine's clock.
fn clock_of(header: &Header, machine: u32) -> Option<&FirstReading>
    ensures { option_copied result ≡ clock_of header.now machine }
{
    header
        .clocks
        .as_slice()
        .iter()
        .find(|clock| clock.machine == machine)
}

/// A machine's first reading: that of its line, else 0.
pub fn clock_reading(header: &Header, machine: u32) -> u64
    ensures { result ≡ clock_reading header.now machine }
{
    match clock_of(header, machine) {
        Some(clock) => clock.reading,
        None => 0,
    }
}

/// An id's record that was never claimed.
fn fresh_delta(lockspace: Name, id: u32) -> DeltaRec
    ensures { result ≡ fresh_delta lockspace id }
{
    DeltaRec {
        state: DeltaState::Free,
        id,
        generation: 0,
        seq: 0,
        stamp: 0,
        lockspace,
        host: None,
        bitmap: [0; 250],
    }
}

/// The record of a session that is joined at moment 0.
fn member_delta(header: &Header, session: &SessionLine) -> DeltaRec
    ensures { result ≡ member_delta header.now session.now }
{
    DeltaRec {
        state: DeltaState::Live,
        id: session.id,
        generation: 1,
        seq: 1,
        stamp: clock_reading(header, session.machine),
        lockspace: session.lockspace,
        host: Some(session.name),
        bitmap: [0; 250],
    }
}

/// The record of an id at moment 0: a session's, or one that was never claimed.
pub fn initial_delta(header: &Header, line: &LockspaceLine, id: u32) -> DeltaRec
    ensures { result ≡ initial_delta header.now line.now id }
{
    match member(header, line.name, id) {
        Some(session) => member_delta(header, session),
        None => fresh_delta(line.name, id),
    }
}

/// A leader that was never held.
fn fresh_leader(geometry: Geometry, line: &ResourceLine) -> Leader
    ensures { result ≡ fresh_leader (layout_of geometry) line.now.lockspace line.now.name }
{
    Leader {
        held: false,
        num_hosts: geometry.hosts(),
        lver: 0,
        generation: 0,
        owner: 0,
        lockspace: line.lockspace,
        resource: line.name,
    }
}

/// A host's block that was never written.
fn fresh_block(host: u32) -> Block
    ensures { result ≡ fresh_block host }
{
    Block {
        host,
        shared: false,
        lver: 0,
        mbal: 0,
        bal: 0,
        inp_gen: 0,
        mode_gen: 0,
        inp: 0,
    }
}

/// A host's block that was never written, in its pair.
fn fresh_pair(host: u32, turn: u64, line: &ResourceLine) -> PairBlock
    ensures { result ≡ fresh_pair host turn line.now.lockspace line.now.name }
{
    PairBlock {
        block: fresh_block(host),
        turn,
        lockspace: line.lockspace,
        resource: line.name,
    }
}

/// The block in sector `number` of a resource's area, one of those that the blocks have.
fn fresh_block_at(geometry: Geometry, line: &ResourceLine, number: u64) -> Rec
    requires { (2 ≤ number) × (number < area_sectors (layout_of geometry)) }
    ensures { result ≡ fresh_block_at (layout_of geometry) line.now.lockspace line.now.name number }
{
    let _sectors = geometry.block_sectors();
    if geometry.is_paired() {
        Rec::PairIs(fresh_pair((number / 2) as u32, 1 + number % 2, line))
    } else {
        Rec::BlockIs(fresh_block((number - 1) as u32))
    }
}

/// The record of a leader, in an area with pairs or without.
fn leader_record(geometry: Geometry, leader: Leader) -> Rec
    ensures { result ≡ leader_record (layout_of geometry) leader }
{
    if geometry.is_paired() {
        Rec::PairLeaderIs(leader)
    } else {
        Rec::LeaderIs(leader)
    }
}

/// The request of a fresh area: it asks for nothing.
fn no_request() -> Request
    ensures { result ≡ no_request }
{
    Request {
        force: 0,
        host: 0,
        lver: 0,
    }
}

/// The value at first.
fn no_value() -> ValueRec
    ensures { result ≡ no_value }
{
    ValueRec {
        host: 0,
        lver: 0,
        seq: 0,
        bytes: no_bytes(),
    }
}

/// The bytes of a fresh value: none.
fn no_bytes() -> Data
    ensures { result ≡ [] }
{
    match Data::new(&[]) {
        Some(bytes) => bytes,
        None => unreachable!(),
    }
}

/// Whether this is an area's last sector.
fn is_last(geometry: Geometry, number: u64) -> bool
    ensures { result ≡ ((number + 1) * geometry.sector == geometry.area) }
{
    let sector = u64::from(geometry.sector());
    let area = geometry.area();
    number < area && (number + 1) * sector == area
}

/// Sector `number` of a lockspace's area.
fn in_lockspace(header: &Header, line: &LockspaceLine, number: u64) -> Option<Rec>
    ensures { result ≡ initial_of_lockspace header.now line.now number }
{
    if number < u64::from(header.geometry.hosts()) {
        Some(Rec::DeltaIs(initial_delta(header, line, number as u32 + 1)))
    } else {
        None
    }
}

/// Sector `number` of a resource's area.
fn in_resource(geometry: Geometry, line: &ResourceLine, number: u64) -> Option<Rec>
    ensures { result ≡ initial_of_resource (layout_of geometry) line.now number }
{
    if number == 0 {
        Some(leader_record(geometry, fresh_leader(geometry, line)))
    } else if number == 1 {
        Some(Rec::RequestIs(no_request()))
    } else if number < u64::from(geometry.block_sectors()) + 2 {
        Some(fresh_block_at(geometry, line, number))
    } else if is_last(geometry, number) {
        Some(Rec::ValueIs(no_value()))
    } else {
        None
    }
}

/// The record that stands at a place at moment 0, if any.
#[tactic(auto, unfolding(sl_run::specs::Worlds::initial_record))]
pub fn initial_record(header: &Header, path: FilePath, offset: u64) -> Option<Rec>
    ensures { result ≡ initial_record (layout_of header.now.geometry) header.now path offset }
{
    let geometry = header.geometry;
    let sector = u64::from(geometry.sector());
    match lockspace_at(header, path, offset) {
        Some(line) => in_lockspace(header, line, offset.saturating_sub(line.offset) / sector),
        None => match resource_at(header, path, offset) {
            Some(line) => in_resource(geometry, line, offset.saturating_sub(line.offset) / sector),
            None => None,
        },
    }
}
