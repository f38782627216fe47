//! A resource's leader, read and compared.

ghost use Rattle.sha2.specs.Sha256.{sha256};
ghost use Rattle.sl_run.specs.Headers.{IsHeader};
ghost use Rattle.sl_sector.specs.SectorLayouts.{IsSectorSize, decoded};
ghost use Rattle.sl_standing.specs.Standing as standing;
ghost use Rattle.sl_standing.specs.Standing.{IsLed, LeaderLacks, leader_found, leader_refusal};
ghost use Rattle.sl_words.specs.Words.{same_truth};
ghost use Rattle.std.specs.Io.KnownBytes.{Keeps};
ghost use Rattle.std.specs.Prelude.{Contains, IfErr, OnOk, length, ◌≡◌, ◌≤◌};

use crate::areas::LONGEST_SECTOR;
use crate::not_standing::NotStanding;
use sl_area::Area;
use sl_run::{Header, ResourceLine};
use sl_sector::{Leader, Rec, decode};

/// Whether a leader is that of a header's resource.
fn is_leader_of(header: &Header, line: &ResourceLine, leader: &Leader) -> bool
    ensures { result ≡ standing.is_leader_of header.now line.now leader.now }
{
    leader.lockspace == line.lockspace
        && leader.resource == line.name
        && leader.num_hosts == header.geometry.hosts()
}

/// Whether both hold, or neither.
fn is_same(first: bool, second: bool) -> bool
    ensures { result ≡ same_truth first second }
{
    first == second
}

/// A leader of an area with pairs, or of one without, where a resource is to have its own.
fn compare_leader(
    header: &Header,
    line: &ResourceLine,
    leader: &Leader,
    paired: bool,
) -> Result<(), NotStanding>
    ensures { result ≡ leader_refusal header.now line.now leader.now paired }
{
    if !is_same(paired, header.geometry.is_paired()) {
        return Err(NotStanding::OtherFormat {
            lockspace: line.lockspace,
            resource: line.name,
            paired,
        });
    }
    if is_leader_of(header, line, leader) {
        Ok(())
    } else {
        Err(NotStanding::OtherLeader {
            lockspace: line.lockspace,
            resource: line.name,
            stands: *leader,
        })
    }
}

/// What this sector spells, where a resource is to have its leader.
fn compare(header: &Header, line: &ResourceLine, sector: &[u8]) -> Result<(), NotStanding>
    requires { IsSectorSize (length sector.now) }
    ensures { result ≡ leader_found header.now line.now (decoded sha256 sector.now) }
{
    match decode(sector) {
        Ok(Rec::LeaderIs(leader)) => compare_leader(header, line, &leader, false),
        Ok(Rec::PairLeaderIs(leader)) => compare_leader(header, line, &leader, true),
        Ok(_) => Err(NotStanding::NoLeader {
            lockspace: line.lockspace,
            resource: line.name,
        }),
        Err(_) => Ok(()),
    }
}

/// Sees that where a resource has its leader no other record stands.
pub(crate) fn check_resource<A: Area>(
    header: &Header,
    line: &ResourceLine,
    area: &mut A,
) -> Result<(), NotStanding>
    requires header { IsHeader header.now }
    requires line { Contains header.now.resources line.now }
    ensures kept { Keeps (A.content area.old) (A.content area.new) }
    ensures ok { OnOk result (IsLed header.now (A.content area.old) line.now) }
    ensures lacks { IfErr result (LeaderLacks header.now (A.content area.old) (A.faults area.old) (A.faults area.new) line.now) }
    ensures later { A.faults area.old ≤ A.faults area.new }
{
    let mut longest = [0; LONGEST_SECTOR];
    let sector = &mut longest[..header.geometry.sector() as usize];
    area.read(header.geometry.leader_place(line.offset), 1, sector)?;
    compare(header, line, sector)
}
