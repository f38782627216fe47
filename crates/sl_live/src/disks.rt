//! A worker's sector calls: each is made on the disk that it names.
//!
//! A call is answered failed, with nothing done, where its path is that of no disk. All that a daemon calls for lies at whole sectors, and
//! what it writes is a record; a call that does not has no bytes, and is answered likewise.

ghost use Rattle.sl_live.specs.ServedCalls.{CanMake, IsLeft, IsMade, IsOp, IsServed, disk_at, place_of};
ghost use Rattle.sl_sector.specs.Records.{IsRecord};
ghost use Rattle.sl_sector.specs.SectorLayouts.{IsSectorSize};
ghost use Rattle.sl_trace.specs.Traces.{Setting, is_answer_for};
ghost use Rattle.sl_trace.specs.declared.effects.Op.TheVariants.{ReadSectors, WriteRecord};
ghost use Rattle.std.specs.Prelude.{IfNone, IfOk, IfSome, IsTrue, None, OnErr, bytes_eq, length, true, ◌<◌, ◌≡◌, ◌↔◌};

use crate::records::is_record;
use sl_area::{Area, Geometry, Place};
use sl_sector::Rec;
use sl_text::{Bytes, FilePath};
use sl_trace::{Answer, Call, Op};
use std::alloc::{AllocError, Global};

/// A disk of the script: its path, and a worker's own area of it.
#[derive(Drop)]
pub struct Disk<A: Area> {
    pub path: FilePath,
    pub area: A,
}

/// Whether the disk has this path.
fn has_path<A: Area>(disk: &Disk<A>, path: &FilePath) -> bool
    ensures { result ≡ bytes_eq disk.now.path path.now }
{
    disk.path == *path
}

/// The disk with this path: the first, if there is one.
fn disk_at<A: Area>(disks: &[Disk<A>], path: &FilePath) -> Option<usize>
    ensures exact { result ≡ disk_at path.now disks.now }
    ensures within { IfSome result (λ k. k < length disks.now) }
{
    disks.iter().position(|disk| has_path(disk, path))
}

/// Whether what the operation writes, if it writes, is a record.
fn is_op(op: &Op) -> bool
    ensures { IsTrue result ↔ IsOp op.now }
{
    match op {
        Op::ReadSectors { .. } => true,
        Op::WriteRecord { record } => is_record(record),
    }
}

/// Where the call begins, if it has its bytes.
#[tactic(auto, using(crate::proofs::ServedLaws::sized_at))]
fn place_of(geometry: &Geometry, call: &Call) -> Option<Place>
    ensures some { IfSome result (λ at. CanMake geometry.now.sector call.now × (at ≡ place_of geometry.now.sector call.now)) }
    ensures none { IfNone result (CanMake geometry.now.sector call.now → ⊥) }
    ensures sized { IfSome result (λ at. IsSectorSize at.size) }
{
    let _size = geometry.sector();
    if is_op(&call.op) {
        geometry.place(call.offset)
    } else {
        None
    }
}

/// Reads so many sectors. An `Err` is want of memory, and nothing was done.
fn read_sectors<A: Area>(
    alloc: Global,
    at: Place,
    sectors: u32,
    area: &mut A,
) -> Result<Answer, AllocError>
    ensures ok { IfOk result (λ a. IsServed at (ReadSectors sectors) (A.content area.old) (A.content area.new)
        (A.faults area.old) (A.faults area.new) a) }
    ensures err { OnErr result (area.new ≡ area.old) }
{
    let mut buffer = vec![in alloc; 0; sectors as usize * at.size() as usize]?;
    match area.read(at, sectors, &mut buffer) {
        Ok(()) => Ok(Answer::Read(Bytes::new(buffer))),
        Err(_) => Ok(Answer::Failed),
    }
}

/// Writes a record's sector. An `Err` is want of memory, and nothing was done.
fn write_record<A: Area>(
    alloc: Global,
    at: Place,
    written: &Rec,
    area: &mut A,
) -> Result<Answer, AllocError>
    requires sized { IsSectorSize at.size }
    requires rules { IsRecord written.now }
    ensures ok { IfOk result (λ a. IsServed at (WriteRecord written.now) (A.content area.old) (A.content area.new)
        (A.faults area.old) (A.faults area.new) a) }
    ensures err { OnErr result (area.new ≡ area.old) }
{
    let mut sector = vec![in alloc; 0; at.size() as usize]?;
    written.encode_into(&mut sector);
    match area.write(at, &sector) {
        Ok(()) => Ok(Answer::Written),
        Err(_) => Ok(Answer::Failed),
    }
}

/// Makes a call on its disk. An `Err` is want of memory, and nothing was done.
fn serve<A: Area>(alloc: Global, at: Place, op: &Op, area: &mut A) -> Result<Answer, AllocError>
    requires sized { IsSectorSize at.size }
    requires rules { IsOp op.now }
    ensures ok { IfOk result (λ a. IsServed at op.now (A.content area.old) (A.content area.new)
        (A.faults area.old) (A.faults area.new) a) }
    ensures err { OnErr result (area.new ≡ area.old) }
{
    match op {
        Op::ReadSectors { sectors } => read_sectors(alloc, at, *sectors, area),
        Op::WriteRecord { record } => write_record(alloc, at, record, area),
    }
}

/// Makes a worker's sector call: on the disk that it names, and on no other. It is answered failed, with nothing done, where its path is
/// that of no disk; and where it doesn't lie at a whole sector or writes no record, which no daemon calls for. Else the answer is what the
/// disk gave. An `Err` is want of memory, and nothing was done.
pub fn sector_step<A: Area>(
    alloc: Global,
    geometry: &Geometry,
    call: &Call,
    disks: &mut [Disk<A>],
) -> Result<Answer, AllocError>
    ensures no_disk { disk_at call.now.path disks.old ≡ None → IfOk result (IsLeft disks.old disks.new) }
    ensures no_bytes { (CanMake geometry.now.sector call.now → ⊥) → IfOk result (IsLeft disks.old disks.new) }
    ensures made { CanMake geometry.now.sector call.now → IfSome (disk_at call.now.path disks.old) (λ k.
        IfOk result (IsMade A.content A.faults geometry.now.sector call.now k disks.old disks.new)) }
    ensures kind { (st : Setting) → st.layout.sector ≡ geometry.now.sector → IfOk result (λ a. is_answer_for st a call.now.op ≡ true) }
    ensures err { OnErr result (disks.new ≡ disks.old) }
{
    let Some(k) = disk_at(disks, &call.path) else {
        return Ok(Answer::Failed);
    };
    let Some(at) = place_of(geometry, call) else {
        return Ok(Answer::Failed);
    };
    serve(alloc, at, &call.op, &mut disks[k].area)
}
