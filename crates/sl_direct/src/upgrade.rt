//! An area without pairs that becomes one with pairs.
//!
//! All of it is read before anything is written, so an area that can't be upgraded stays as it was. The first write makes the leader's
//! sector zeros: from then on neither a host that works with pairs nor one that works without finds a leader there. The leader comes back
//! last, as the record of an area with pairs. So an upgrade that was cut off in between leaves an area that is refused, or, where all pairs
//! stand, one with pairs whose leader is torn.
ghost use Rattle.sl_area.specs.AreaSizes.{IsGeometry, layout_of};
ghost use Rattle.sl_area.specs.Roles.{IsBase, IsHost};
ghost use Rattle.sl_direct.specs.Actions.{IsAction};
ghost use Rattle.sl_direct.specs.HalfDone.{BrokeOff, HasActed, Wrote};
ghost use Rattle.sl_direct.specs.Upgrades as upgrades;
ghost use Rattle.sl_direct.specs.Upgrades.{AreOld, PairsUp, ReadsBlock, ReadsLeader, StopsBehind, TellsOther, last_write, pair_writes, pairs_down, turn_write, upgrade_writes, zeros_write};
ghost use Rattle.sl_direct.specs.declared.action.Action.TheVariants.{Upgrade};
ghost use Rattle.sl_direct.specs.declared.action.Directed.TheVariants.{AreaFault, NoMemory};
ghost use Rattle.sl_sector.specs.Records.{IsBlock, IsLeader};
ghost use Rattle.sl_sector.specs.declared.sector.Block.{Block};
ghost use Rattle.sl_sector.specs.SectorLayouts.{IsSectorSize};
ghost use Rattle.sl_io.specs.FaultCauses.{HasCause, Rose};
ghost use Rattle.std.specs.Io.KnownBytes.{Keeps};
ghost use Rattle.std.specs.Prelude.{IfErr, IfOk, All, IfSome, List, MatchResult, OnErr, OnOk, Some, if◌then◌else◌, length, true, [], ◌+◌, ◌∷◌, ◌≡◌, ◌≤◌};

use crate::LONGEST_SECTOR;
use crate::action::Directed;
use crate::fresh_areas::write_record;
use crate::lines::{has_names, push_other_line, push_torn_line, push_upgrade_line};
use sl_area::{Area, Geometry};
use sl_io::Failed;
use sl_sector::{Bad, Block, Leader, PairBlock, Rec, block_in, decode};
use sl_trace::ResourceArg;
use std::alloc::AllocError;

/// The leader of an area without pairs that the sector spells, or why there is none.
fn old_leader_in(sector: &[u8]) -> Result<Leader, Bad>
    requires { IsSectorSize (length sector.now) }
    ensures exact { result ≡ upgrades.old_leader_in sector.now }
    ensures rules { IfOk result (λ l. IsLeader l) }
{
    match decode(sector) {
        Ok(Rec::LeaderIs(leader)) => Ok(leader),
        Ok(_) => Err(Bad::BadKind),
        Err(bad) => Err(bad),
    }
}

/// The block of this host that the sector spells, if it does.
fn old_block_in(id: u32, sector: &[u8]) -> Option<Block>
    requires { IsSectorSize (length sector.now) }
    ensures exact { result ≡ upgrades.old_block_in id sector.now }
    ensures rules { IfSome result (λ b. IsBlock b × (b.host ≡ id)) }
{
    block_in(id, decode(sector))
}

/// The leader that was found, if it is the resource's, for so many hosts.
fn right_leader(resource: &ResourceArg, hosts: u32, found: &Result<Leader, Bad>) -> Option<Leader>
    ensures { result ≡ upgrades.right_leader resource.now hosts found.now }
{
    match found {
        Ok(leader) => {
            if has_names(resource, leader) && leader.num_hosts == hosts {
                Some(*leader)
            } else {
                None
            }
        }
        Err(_) => None,
    }
}

/// How an action ends that was told why it can't go on.
fn refused(told: Result<(), AllocError>, refusal: Directed) -> Directed
    ensures { MatchResult told (λ x. result ≡ refusal) (λ e. result ≡ NoMemory) }
{
    match told {
        Ok(()) => refusal,
        Err(_) => Directed::NoMemory,
    }
}

/// The leader of an area without pairs that the sector spells, the resource's own; else tells what is there.
fn tell_old_leader(
    resource: &ResourceArg,
    hosts: u32,
    sector: &[u8],
    out: &mut Vec<u8>,
) -> Result<Leader, Directed>
    requires size { IsSectorSize (length sector.now) }
    requires first { out.old.items ≡ [] }
    ensures ok { IfOk result (λ l. (upgrades.right_leader resource.now hosts (upgrades.old_leader_in sector.now) ≡ Some l) × IsLeader l) }
    ensures same { OnOk result (out.new.items ≡ []) }
    ensures err { IfErr result (λ d. TellsOther resource.now hosts sector.now out.new.items d) }
{
    let found = old_leader_in(sector);
    match right_leader(resource, hosts, &found) {
        Some(leader) => Ok(leader),
        None => Err(refused(push_other_line(out, &found), Directed::NotTheLeader)),
    }
}

/// Reads the leader of an area without pairs, the resource's own; else tells what is there.
fn read_old_leader<A: Area>(
    area: &mut A,
    resource: &ResourceArg,
    geometry: Geometry,
    out: &mut Vec<u8>,
) -> Result<Leader, Directed>
    requires action { IsAction (Upgrade resource.now geometry) }
    requires first { out.old.items ≡ [] }
    ensures kept { Keeps (A.content area.old) (A.content area.new) }
    ensures ok { IfOk result (λ l. ReadsLeader resource.now geometry (A.content area.old) l × IsLeader l) }
    ensures same { OnOk result (out.new.items ≡ []) }
    ensures err { IfErr result (λ d. HasActed (Upgrade resource.now geometry) (A.content area.old) (A.content area.new) out.new.items d) }
    ensures cause { IfErr result (λ d. d ≡ AreaFault → Rose (A.faults area.old) (A.faults area.new)) }
    ensures later { A.faults area.old ≤ A.faults area.new }
{
    let mut longest = [0; LONGEST_SECTOR];
    let sector = &mut longest[..geometry.sector() as usize];
    match area.read(geometry.leader_place(resource.offset), 1, sector) {
        Ok(()) => tell_old_leader(resource, geometry.hosts(), sector, out),
        Err(_) => Err(Directed::AreaFault),
    }
}

/// Reads a host's block of an area without pairs; it may be torn.
fn read_old_block<A: Area>(
    area: &mut A,
    geometry: Geometry,
    base: u64,
    id: u32,
) -> Result<Option<Block>, Failed>
    requires sizes { IsGeometry geometry }
    requires base { IsBase geometry base }
    requires id { IsHost geometry id }
    ensures kept { Keeps (A.content area.old) (A.content area.new) }
    ensures ok { IfOk result (λ found. ReadsBlock geometry base (A.content area.old) id found × IfSome found (λ b. IsBlock b × (b.host ≡ id))) }
    ensures cause { HasCause (A.faults area.old) (A.faults area.new) result }
{
    let mut longest = [0; LONGEST_SECTOR];
    let sector = &mut longest[..geometry.sector() as usize];
    area.read(geometry.block_place(base, id), 1, sector)?;
    Ok(old_block_in(id, sector))
}

/// Reads a host's block of an area without pairs; where it is torn, tells whose it is.
fn read_whole_block<A: Area>(
    area: &mut A,
    geometry: Geometry,
    base: u64,
    id: u32,
    out: &mut Vec<u8>,
) -> Result<Block, Directed>
    requires sizes { IsGeometry geometry }
    requires base { IsBase geometry base }
    requires id { IsHost geometry id }
    requires first { out.old.items ≡ [] }
    ensures kept { Keeps (A.content area.old) (A.content area.new) }
    ensures ok { IfOk result (λ b. ReadsBlock geometry base (A.content area.old) id (Some b) × IsBlock b × (b.host ≡ id)) }
    ensures same { OnOk result (out.new.items ≡ []) }
    ensures err { IfErr result (λ d. StopsBehind geometry base (A.content area.old) id out.new.items d) }
    ensures cause { IfErr result (λ d. d ≡ AreaFault → Rose (A.faults area.old) (A.faults area.new)) }
    ensures later { A.faults area.old ≤ A.faults area.new }
{
    match read_old_block(area, geometry, base, id) {
        Ok(Some(block)) => Ok(block),
        Ok(None) => Err(refused(push_torn_line(out, id), Directed::TornBlock)),
        Err(_) => Err(Directed::AreaFault),
    }
}

/// Reads the blocks of all hosts of an area without pairs.
fn read_old_blocks<A: Area>(
    area: &mut A,
    geometry: Geometry,
    base: u64,
    out: &mut Vec<u8>,
) -> Result<Vec<Block>, Directed>
    requires sizes { IsGeometry geometry }
    requires base { IsBase geometry base }
    requires first { out.old.items ≡ [] }
    ensures kept { Keeps (A.content area.old) (A.content area.new) }
    ensures ok { IfOk result (λ bs. AreOld geometry base (A.content area.old) bs.items × (length bs.items ≡ geometry.hosts)) }
    ensures same { OnOk result (out.new.items ≡ []) }
    ensures err { IfErr result (λ d. (bs : List Block) × AreOld geometry base (A.content area.old) bs × (length bs + 1 ≤ geometry.hosts) × StopsBehind geometry base (A.content area.old) (length bs + 1) out.new.items d) }
    ensures cause { IfErr result (λ d. d ≡ AreaFault → Rose (A.faults area.old) (A.faults area.new)) }
    ensures later { A.faults area.old ≤ A.faults area.new }
{
    let mut blocks = Vec::new(*out.allocator());
    for before in 0..geometry.hosts() {
        let block = read_whole_block(area, geometry, base, before + 1, out)?;
        match blocks.push(block) {
            Ok(()) => {}
            Err(_) => return Err(Directed::NoMemory),
        }
    }
    Ok(blocks)
}

/// Writes zeros over a sector. After an `Err` it may be torn.
fn write_zeros<A: Area>(area: &mut A, geometry: Geometry, base: u64) -> Result<(), Failed>
    requires sizes { IsGeometry geometry }
    requires base { IsBase geometry base }
    ensures ok { OnOk result (Wrote (zeros_write (layout_of geometry) base ∷ []) (A.content area.old) (A.content area.new)) }
    ensures failed { OnErr result (BrokeOff (zeros_write (layout_of geometry) base ∷ []) (A.content area.old) (A.content area.new)) }
    ensures cause { HasCause (A.faults area.old) (A.faults area.new) result }
{
    let longest = [0; LONGEST_SECTOR];
    let sector = &longest[..geometry.sector() as usize];
    area.write(geometry.leader_place(base), sector)
}

/// The block with its turn at an upgrade, and the names of its resource.
fn paired(leader: &Leader, block: Block, first: bool) -> PairBlock
    ensures { result ≡ record { block = block; turn = if first then 1 else 2; lockspace = leader.now.lockspace; resource = leader.now.resource } }
{
    PairBlock {
        block,
        turn: if first { 1 } else { 2 },
        lockspace: leader.lockspace,
        resource: leader.resource,
    }
}

/// Writes a block to the first or the second sector of its host's pair.
fn write_turn<A: Area>(
    area: &mut A,
    geometry: Geometry,
    base: u64,
    leader: &Leader,
    block: Block,
    first: bool,
) -> Result<(), Failed>
    requires sizes { IsGeometry geometry }
    requires paired { geometry.paired ≡ true }
    requires base { IsBase geometry base }
    requires leader { IsLeader leader.now }
    requires block { IsBlock block × IsHost geometry block.host }
    ensures ok { OnOk result (Wrote (turn_write (layout_of geometry) leader.now base block first ∷ []) (A.content area.old) (A.content area.new)) }
    ensures failed { OnErr result (BrokeOff (turn_write (layout_of geometry) leader.now base block first ∷ []) (A.content area.old) (A.content area.new)) }
    ensures cause { HasCause (A.faults area.old) (A.faults area.new) result }
{
    let at = geometry.pair_place(base, block.host, first);
    write_record(area, at, &Rec::PairIs(paired(leader, block, first)))
}

/// Writes a block to both sectors of its host's pair.
fn write_pair<A: Area>(
    area: &mut A,
    geometry: Geometry,
    base: u64,
    leader: &Leader,
    block: Block,
) -> Result<(), Failed>
    requires sizes { IsGeometry geometry }
    requires paired { geometry.paired ≡ true }
    requires base { IsBase geometry base }
    requires leader { IsLeader leader.now }
    requires block { IsBlock block × IsHost geometry block.host }
    ensures ok { OnOk result (Wrote (pair_writes (layout_of geometry) leader.now base block) (A.content area.old) (A.content area.new)) }
    ensures failed { OnErr result (BrokeOff (pair_writes (layout_of geometry) leader.now base block) (A.content area.old) (A.content area.new)) }
    ensures cause { HasCause (A.faults area.old) (A.faults area.new) result }
{
    write_turn(area, geometry, base, leader, block, true)?;
    write_turn(area, geometry, base, leader, block, false)?;
    Ok(())
}

/// Writes the pairs of all hosts, from the last down to the first.
fn write_pairs<A: Area>(
    area: &mut A,
    geometry: Geometry,
    base: u64,
    leader: &Leader,
    blocks: &[Block],
) -> Result<(), Failed>
    requires sizes { IsGeometry geometry }
    requires paired { geometry.paired ≡ true }
    requires base { IsBase geometry base }
    requires leader { IsLeader leader.now }
    requires blocks { All (λ b. IsBlock b × IsHost geometry b.host) blocks.now }
    ensures ok { OnOk result (Wrote (pairs_down (layout_of geometry) leader.now base blocks.now) (A.content area.old) (A.content area.new)) }
    ensures failed { OnErr result (BrokeOff (pairs_down (layout_of geometry) leader.now base blocks.now) (A.content area.old) (A.content area.new)) }
    ensures cause { HasCause (A.faults area.old) (A.faults area.new) result }
{
    for behind in 0..blocks.len() {
        let block = blocks[blocks.len() - 1 - behind];
        write_pair(area, geometry, base, leader, block)?;
    }
    Ok(())
}

/// Writes the leader of an area with pairs.
fn write_last<A: Area>(
    area: &mut A,
    geometry: Geometry,
    base: u64,
    leader: &Leader,
) -> Result<(), Failed>
    requires sizes { IsGeometry geometry }
    requires base { IsBase geometry base }
    requires leader { IsLeader leader.now }
    ensures ok { OnOk result (Wrote (last_write (layout_of geometry) base leader.now ∷ []) (A.content area.old) (A.content area.new)) }
    ensures failed { OnErr result (BrokeOff (last_write (layout_of geometry) base leader.now ∷ []) (A.content area.old) (A.content area.new)) }
    ensures cause { HasCause (A.faults area.old) (A.faults area.new) result }
{
    write_record(
        area,
        geometry.leader_place(base),
        &Rec::PairLeaderIs(*leader),
    )
}

/// Writes the area with pairs, the leader last. After an `Err` a front of it was written, and the next sector may be torn.
fn write_paired<A: Area>(
    area: &mut A,
    geometry: Geometry,
    base: u64,
    leader: &Leader,
    blocks: &[Block],
) -> Result<(), Failed>
    requires sizes { IsGeometry geometry }
    requires paired { geometry.paired ≡ true }
    requires base { IsBase geometry base }
    requires leader { IsLeader leader.now }
    requires blocks { All (λ b. IsBlock b × IsHost geometry b.host) blocks.now }
    ensures ok { OnOk result (Wrote (upgrade_writes (layout_of geometry) base (record { leader = leader.now; blocks = blocks.now })) (A.content area.old) (A.content area.new)) }
    ensures failed { OnErr result (BrokeOff (upgrade_writes (layout_of geometry) base (record { leader = leader.now; blocks = blocks.now })) (A.content area.old) (A.content area.new)) }
    ensures cause { HasCause (A.faults area.old) (A.faults area.new) result }
{
    write_zeros(area, geometry, base)?;
    write_pairs(area, geometry, base, leader, blocks)?;
    write_last(area, geometry, base, leader)?;
    Ok(())
}

/// Writes the area with pairs of a resource. Its line is made first, so that want of memory leaves the area as it was.
fn pair_up<A: Area>(
    area: &mut A,
    resource: &ResourceArg,
    geometry: Geometry,
    leader: &Leader,
    blocks: &[Block],
    out: &mut Vec<u8>,
) -> Directed
    requires action { IsAction (Upgrade resource.now geometry) }
    requires leader { IsLeader leader.now }
    requires blocks { All (λ b. IsBlock b × IsHost geometry b.host) blocks.now }
    requires first { out.old.items ≡ [] }
    ensures acted { PairsUp resource.now geometry leader.now blocks.now (A.content area.old) (A.content area.new) out.new.items result }
    ensures cause { result ≡ AreaFault → Rose (A.faults area.old) (A.faults area.new) }
    ensures later { A.faults area.old ≤ A.faults area.new }
{
    match push_upgrade_line(out, resource, geometry) {
        Ok(()) => match write_paired(area, geometry, resource.offset, leader, blocks) {
            Ok(()) => Directed::Done,
            Err(_) => {
                out.clear();
                Directed::AreaFault
            }
        },
        Err(_) => Directed::NoMemory,
    }
}

/// Makes an area without pairs one with pairs.
pub(crate) fn upgrade<A: Area>(
    area: &mut A,
    resource: &ResourceArg,
    geometry: Geometry,
    out: &mut Vec<u8>,
) -> Directed
    requires action { IsAction (Upgrade resource.now geometry) }
    requires first { out.old.items ≡ [] }
    ensures acted { HasActed (Upgrade resource.now geometry) (A.content area.old) (A.content area.new) out.new.items result }
    ensures cause { result ≡ AreaFault → Rose (A.faults area.old) (A.faults area.new) }
    ensures later { A.faults area.old ≤ A.faults area.new }
{
    let leader = match read_old_leader(area, resource, geometry, out) {
        Ok(leader) => leader,
        Err(stopped) => return stopped,
    };
    match read_old_blocks(area, geometry, resource.offset, out) {
        Ok(blocks) => pair_up(area, resource, geometry, &leader, &blocks, out),
        Err(stopped) => stopped,
    }
}
