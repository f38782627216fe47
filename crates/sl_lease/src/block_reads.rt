//! What a read of a resource's area gives: leader and blocks. A sector that spells no record, a record of another kind or another host's
//! block counts as torn.
//!
//! The blocks of a read are looked at many times, and each sector is to be decoded once. So a host has one list with a place for each of
//! the run's hosts (`Blocks`), takes it at the start, and writes each read's blocks over it: a read takes no memory. With pairs there is a
//! list of these too, and one stands by that a lease keeps of a first read until its second is answered.

ghost use Rattle.sl_area.specs.AreaSizes.{Layout, Sizes, layout_of, program_digest};
ghost use Rattle.sl_area.specs.AreaLayout.{leader_of, leader_spelled, read_at};
ghost use Rattle.sl_area.specs.Pairs.{pair_back, pair_front, pairs_kept};
ghost use Rattle.sl_host_state.specs.HeardInputs.{is_area_step, turn_heard};
ghost use Rattle.sl_lease.specs.LeaseQuestions.{leader_given, read_given};
ghost use Rattle.sl_lease.specs.Changes.{shows_blocks};
ghost use Rattle.sl_lease.specs.Reads.{CanRead, HasGiven, HasPlaces, HasRead, behind, blocks_of_pairs, blocks_to, host_block, is_asked_again, is_torn_to, kept_to, leader_with, merged_with, sectors_read};
ghost use Rattle.sl_sector.specs.Records.{Fits, IsBlock, IsLeader, IsPair, IsRecord};
ghost use Rattle.sl_sector.specs.SectorLayouts.{IsSectorSize, decoded};
ghost use Rattle.sl_trace.specs.LeaseDecisions.{first_step, part_read, read_of_step};
ghost use Rattle.sl_trace.specs.declared.input.Answer.TheVariants.{Read};
ghost use Rattle.std.specs.Option.{option_map_or};
ghost use Rattle.std.specs.Prelude.{All, Bool, IfOk, IfSome, IsTrue, List, None, OnErr, OnOk, Some, cond, drop, is_some, length, option_map, slice_index_or, slice_set, take, true, [], ℕ, ◌&&◌, ◌*◌, ◌+◌, ◌-◌, ◌<◌, ◌==◌, ◌≡◌, ◌≤◌};

use crate::kept_changes::{read_of_step, shows_blocks};
use crate::pairs::{Pairs, later_pair, merge, put_blocks, turn_of};
use crate::torn_leader::leader_made;
use sl_area::Geometry;
use sl_sector::{
    Bad, Block, Images, Leader, PairBlock, Rec, block_in, decode, leader_in, pair_in,
    pair_leader_in,
};
use sl_trace::{LeaseRead, LeaseStep};
use std::alloc::{AllocError, Global};
use std::marker::Model;

/// Sectors that a read gave, one after another.
pub trait Sectors {
    /// The bytes of all these sectors, one behind the other.
    ghost bytes: { Self → List ℕ };

    /// Whether they are cut into sectors of this size.
    ghost is_cut: { Self → ℕ → Bool };

    /// What sector k spells, counted from 0, where sectors have this size: there are so many.
    fn record(&self, size: u32, k: u32) -> Result<Rec, Bad>
        requires size { IsSectorSize size }
        requires cut { IsTrue (is_cut self.now size) }
        requires many { (k + 1) * size ≤ length (bytes self.now) }
        ensures exact { result ≡ decoded program_digest (take size (drop (k * size) (bytes self.now))) }
        ensures rules { IfOk result IsRecord };
}

/// Sectors that lie in memory as bytes, cut at a sector's size.
#[derive(Clone, Copy)]
pub struct SectorBytes<'a> {
    pub bytes: &'a [u8],
}

impl<'a> Sectors for SectorBytes<'a> {
    ghost bytes = { λ s. s.bytes.now };

    ghost is_cut = { λ s size. true };

    fn record(&self, size: u32, k: u32) -> Result<Rec, Bad> {
        let (_, rest) = self.bytes.split_at(k as usize * size as usize);
        let (sector, _) = rest.split_at(size as usize);
        decode(sector)
    }
}

impl Sectors for Images {
    ghost bytes = { λ s. s.bytes };

    ghost is_cut = { λ s size. s.size == size };

    fn record(&self, size: u32, k: u32) -> Result<Rec, Bad> {
        match Images::record(self, k as usize) {
            Some(found) => found,
            None => unreachable!(),
        }
    }
}

/// The leader that a read of the area gave, if its sector spells one.
pub fn leader_of<S: Sectors>(geometry: &Geometry, sectors: &S) -> Option<Leader>
    requires many { geometry.now.sector ≤ length (S.bytes sectors.now) }
    requires cut { IsTrue (S.is_cut sectors.now geometry.now.sector) }
    ensures exact { result ≡ leader_of (layout_of geometry.now) (S.bytes sectors.now) }
    ensures rules { IfSome result IsLeader }
{
    let found = sectors.record(geometry.sector(), 0);
    leader_spelled(geometry.is_paired(), found)
}

/// The leader that a sector spells, in an area with pairs or without.
fn leader_spelled(paired: bool, found: Result<Rec, Bad>) -> Option<Leader>
    ensures exact { (g : Layout) → paired ≡ g.paired → result ≡ leader_spelled g found }
    ensures rules { IfOk found IsRecord → IfSome result IsLeader }
{
    if paired {
        pair_leader_in(found)
    } else {
        leader_in(found)
    }
}

/// What sector k of the blocks spells, counted from 0, where so many sectors stand before the blocks.
fn record_behind<S: Sectors>(
    geometry: &Geometry,
    sectors: &S,
    skipped: u32,
    k: u32,
) -> Result<Rec, Bad>
    requires skipped { skipped ≤ 2 }
    requires place { k < 4000 }
    requires many { (skipped + k + 1) * geometry.now.sector ≤ length (S.bytes sectors.now) }
    requires cut { IsTrue (S.is_cut sectors.now geometry.now.sector) }
    ensures exact { result ≡ read_at (layout_of geometry.now) (behind geometry.now skipped (S.bytes sectors.now)) k }
    ensures rules { IfOk result IsRecord }
{
    sectors.record(geometry.sector(), skipped + k)
}

/// The block of a host, if its sector spells one.
fn host_block<S: Sectors>(
    geometry: &Geometry,
    sectors: &S,
    skipped: u32,
    host: u32,
) -> Option<Block>
    requires host { (1 ≤ host) × (host ≤ geometry.now.hosts) × (geometry.now.hosts ≤ 2000) }
    requires skipped { skipped ≤ 2 }
    requires many { (skipped + geometry.now.hosts) * geometry.now.sector ≤ length (S.bytes sectors.now) }
    requires cut { IsTrue (S.is_cut sectors.now geometry.now.sector) }
    ensures exact { result ≡ host_block geometry.now (behind geometry.now skipped (S.bytes sectors.now)) host }
    ensures rules { IfSome result IsBlock }
{
    block_in(host, record_behind(geometry, sectors, skipped, host - 1))
}

/// What the first or the second sector of a host's pair spells, if it is a block of that pair.
fn pair_half<S: Sectors>(
    geometry: &Geometry,
    sectors: &S,
    skipped: u32,
    host: u32,
    first: bool,
) -> Option<PairBlock>
    requires host { (1 ≤ host) × (host ≤ geometry.now.hosts) × (geometry.now.hosts ≤ 2000) }
    requires skipped { skipped ≤ 2 }
    requires many { (skipped + 2 * geometry.now.hosts) * geometry.now.sector ≤ length (S.bytes sectors.now) }
    requires cut { IsTrue (S.is_cut sectors.now geometry.now.sector) }
    ensures exact { result ≡ cond first (pair_front (layout_of geometry.now) (behind geometry.now skipped (S.bytes sectors.now)) host)
        (pair_back (layout_of geometry.now) (behind geometry.now skipped (S.bytes sectors.now)) host) }
    ensures rules { IfSome result IsPair }
{
    let front = 2 * (host - 1);
    let k = if first { front } else { front + 1 };
    pair_in(host, first, record_behind(geometry, sectors, skipped, k))
}

/// The blocks of hosts 1, 2 .. are put into their places.
fn read_blocks<S: Sectors>(
    items: &mut [Option<Block>],
    geometry: &Geometry,
    sectors: &S,
    skipped: u32,
)
    requires places { length items.old ≡ geometry.now.hosts }
    requires skipped { skipped ≤ 2 }
    requires many { (skipped + geometry.now.hosts) * geometry.now.sector ≤ length (S.bytes sectors.now) }
    requires cut { IsTrue (S.is_cut sectors.now geometry.now.sector) }
    ensures exact { items.new ≡ blocks_to geometry.now (behind geometry.now skipped (S.bytes sectors.now)) geometry.now.hosts }
    ensures rules { All (λ o. IfSome o IsBlock) items.new }
{
    let hosts = geometry.hosts();
    for before in 0..hosts {
        items[before as usize] = host_block(geometry, sectors, skipped, before + 1);
    }
}

/// Whether a read at this step gives leader and request before the blocks.
pub fn reads_area(step: &LeaseStep) -> bool
    ensures { result ≡ is_area_step step.now }
{
    match step {
        LeaseStep::ReadArea { resource: _ } => true,
        LeaseStep::ReadBeforeFree => true,
        LeaseStep::ReadAgain { read } => {
            matches!(read, LeaseRead::OfArea { resource: _ } | LeaseRead::OfFree)
        }
        _ => false,
    }
}

/// How many sectors stand before the blocks in a read at this step.
fn sectors_before(step: &LeaseStep) -> u32
    ensures { result ≡ cond (is_area_step step.now) 2 0 }
{
    if reads_area(step) { 2 } else { 0 }
}

/// Whether a read at this step is made once more, where some host's second sector is torn in its answer, or where none is.
fn is_made_again(step: &LeaseStep, torn: bool) -> bool
    ensures { result ≡ (torn && is_some (read_of_step step.now)) }
{
    torn && read_of_step(step).is_some()
}

/// How many sectors a read at this step gives.
pub fn sectors_read(geometry: &Geometry, step: &LeaseStep) -> u32
    ensures { result ≡ sectors_read geometry.now step.now }
{
    if reads_area(step) {
        geometry.block_sectors() + 2
    } else {
        geometry.block_sectors()
    }
}

/// The blocks of a read: one for each of the run's hosts, none where it is torn. With pairs also the block of each host's pair, and perhaps
/// a list that stands by, to be kept of a first read.
#[derive(Drop)]
pub struct Blocks {
    items: Vec<Option<Block>>,
    pairs: Vec<Option<PairBlock>>,
    kept: Option<Pairs>,
}

impl Model for Blocks {
    ghost use Rattle.sl_lease.specs.Reads.{ReadRoom};
    ghost use Rattle.sl_sector.specs.Records.{IsBlock, IsPair};
    ghost use Rattle.std.specs.Prelude.{All, IfSome};

    ghost Value = { ReadRoom };

    ghost view = { λ b. record { blocks = b.items.items; pairs = b.pairs.items; kept = b.kept } };

    ghost invariant = { λ b. All (λ o. IfSome o IsBlock) b.items.items × All (λ o. IfSome o IsPair) b.pairs.items };
}

impl Blocks {
    /// A place for each of the run's hosts. An `Err` is want of memory.
    pub fn new(alloc: Global, geometry: &Geometry) -> Result<Blocks, AllocError>
        ensures { IfOk result (λ b. HasPlaces geometry.now b) }
    {
        let pairs = if geometry.is_paired() {
            geometry.hosts()
        } else {
            0
        };
        Ok(Blocks {
            items: vec![in alloc; None; geometry.hosts() as usize]?,
            pairs: vec![in alloc; None; pairs as usize]?,
            kept: None,
        })
    }

    /// Sees that with pairs a list stands by, which may be kept of a first read. An `Err` is want of memory, and changes nothing.
    pub fn reserve(&mut self, alloc: Global, geometry: &Geometry) -> Result<(), AllocError>
        requires { HasPlaces geometry.now self.old }
        ensures ok { OnOk result (CanRead geometry.now self.new) }
        ensures err { OnErr result (self.new ≡ self.old) }
    {
        if geometry.is_paired() && self.kept.is_none() {
            self.kept = Some(Pairs::new(alloc, geometry.hosts())?);
        }
        Ok(())
    }

    /// The blocks of hosts 1 to N, each if the read gave one.
    pub fn as_slice(&self) -> &[Option<Block>]
        ensures exact { result.now ≡ self.now.blocks }
        ensures rules { All (λ o. IfSome o IsBlock) result.now }
    {
        &self.items
    }

    /// What a read at this step gave of all blocks: with pairs what it gave by itself, each sector decoded once, and what is kept of it. It
    /// tells whether the read is to be made once more.
    pub fn read<S: Sectors>(&mut self, geometry: &Geometry, step: &LeaseStep, sectors: &S) -> bool
        requires can { CanRead geometry.now self.old }
        requires many { length (S.bytes sectors.now) ≡ sectors_read geometry.now step.now * geometry.now.sector }
        requires cut { IsTrue (S.is_cut sectors.now geometry.now.sector) }
        ensures again { result ≡ is_asked_again geometry.now step.now (S.bytes sectors.now) }
        ensures has { HasRead geometry.now (part_read (layout_of geometry.now) (S.bytes sectors.now) (first_step step.now)) self.new }
        ensures kept { geometry.now.paired ≡ true
            → self.new.kept ≡ Some (pairs_kept (layout_of geometry.now) (part_read (layout_of geometry.now) (S.bytes sectors.now) (first_step step.now))) }
    {
        let skipped = sectors_before(step);
        if geometry.is_paired() {
            let torn = self.read_pairs(geometry, sectors, skipped);
            is_made_again(step, torn)
        } else {
            self.read_single(geometry, sectors, skipped);
            false
        }
    }

    /// The blocks of a read in which so many sectors stand before them, where each has one sector.
    fn read_single<S: Sectors>(&mut self, geometry: &Geometry, sectors: &S, skipped: u32)
        requires places { HasPlaces geometry.now self.old }
        requires skipped { skipped ≤ 2 }
        requires many { (skipped + geometry.now.hosts) * geometry.now.sector ≤ length (S.bytes sectors.now) }
        requires cut { IsTrue (S.is_cut sectors.now geometry.now.sector) }
        ensures { self.new ≡ record self.old { blocks = blocks_to geometry.now (behind geometry.now skipped (S.bytes sectors.now)) geometry.now.hosts } }
    {
        read_blocks(&mut self.items, geometry, sectors, skipped);
    }

    /// The pairs of a read in which so many sectors stand before the blocks, and what is kept of them. It tells whether some host's second
    /// sector is torn.
    fn read_pairs<S: Sectors>(&mut self, geometry: &Geometry, sectors: &S, skipped: u32) -> bool
        requires paired { geometry.now.paired ≡ true }
        requires places { HasPlaces geometry.now self.old }
        requires skipped { skipped ≤ 2 }
        requires many { (skipped + 2 * geometry.now.hosts) * geometry.now.sector ≤ length (S.bytes sectors.now) }
        requires cut { IsTrue (S.is_cut sectors.now geometry.now.sector) }
        ensures torn { result ≡ is_torn_to geometry.now (behind geometry.now skipped (S.bytes sectors.now)) geometry.now.hosts }
        ensures has { HasRead geometry.now (behind geometry.now skipped (S.bytes sectors.now)) self.new }
        ensures kept { self.new.kept ≡ option_map (λ old. kept_to geometry.now (behind geometry.now skipped (S.bytes sectors.now)) geometry.now.hosts) self.old.kept }
    {
        let mut any = false;
        let hosts = geometry.hosts();
        for before in 0..hosts {
            let front = pair_half(geometry, sectors, skipped, before + 1, true);
            let back = pair_half(geometry, sectors, skipped, before + 1, false);
            let torn = back.is_none();
            any |= torn;
            self.put_pair(before as usize, later_pair(front, back), torn);
        }
        any
    }

    /// Puts the pair of the host with so many before it; nothing of it is kept where its second sector is torn.
    fn put_pair(&mut self, before: usize, pair: Option<PairBlock>, torn: bool)
        requires place { before < length self.old.pairs }
        requires standing { IfSome self.old.kept (λ ps. before < length ps) }
        requires rules { IfSome pair IsPair }
        ensures { self.new ≡ record self.old {
          pairs = slice_set self.old.pairs before pair;
          kept = option_map (λ ps. slice_set ps before (cond torn None pair)) self.old.kept;
        } }
    {
        self.pairs[before] = pair;
        match &mut self.kept {
            Some(kept) => kept.put(before, if torn { None } else { pair }),
            None => {}
        }
    }

    /// The turn of a host's pair in a read at this step, by itself, if it shows one. Where blocks have one sector there is none.
    pub fn turn_at(&self, step: &LeaseStep, host: u32) -> Option<u64>
        requires { 1 ≤ host }
        ensures exact { result ≡ cond (shows_blocks step.now) (option_map (λ p. p.turn) (slice_index_or self.now.pairs (host - 1) None)) None }
        ensures heard { (z : Sizes) (bytes : List ℕ) → HasRead z (part_read (layout_of z) bytes (first_step step.now)) self.now → host ≤ z.hosts
            → result ≡ turn_heard (layout_of z) host step.now None (Read bytes) }
        ensures rules { IfSome result (λ t. (1 ≤ t) × Fits t) }
    {
        if shows_blocks(step) {
            turn_of(&self.pairs, host)
        } else {
            None
        }
    }

    /// What is kept of a first read, with the memory for it.
    pub fn take_kept(&mut self) -> Option<Pairs>
        ensures kept { result ≡ self.old.kept }
        ensures left { self.new ≡ record self.old { kept = None } }
    {
        self.kept.take()
    }

    /// The pairs of the last answer, with what was kept of a first one, if there was one.
    fn merge(&mut self, first: Option<&Pairs>)
        ensures { self.new ≡ record self.old { pairs = option_map_or (λ ps. merged_with ps.now self.old.pairs) first.entry self.old.pairs } }
    {
        match first {
            Some(first) => merge(first, &mut self.pairs),
            None => {}
        }
    }

    /// The blocks of the pairs are put into the blocks' places.
    fn fill(&mut self)
        requires { length self.old.blocks ≡ length self.old.pairs }
        ensures { self.new ≡ record self.old { blocks = blocks_of_pairs self.old.pairs } }
    {
        put_blocks(&self.pairs, &mut self.items);
    }

    /// The blocks that were read are put into their places: with pairs, those of either answer.
    fn put_in_places(&mut self, geometry: &Geometry, first: Option<&Pairs>)
        requires { HasPlaces geometry.now self.old }
        ensures { (last : List ℕ) → HasRead geometry.now last self.old
            → HasGiven geometry.now (record { kept = option_map_or (λ ps. ps.now) first.entry []; last = last }) self.new }
    {
        if !geometry.is_paired() {
            return;
        }
        self.merge(first);
        self.fill();
    }

    /// The leader of a read at this step, if it reads one: the one that is spelled; with pairs a torn one is made from the blocks.
    fn leader<S: Sectors>(
        &self,
        geometry: &Geometry,
        step: &LeaseStep,
        sectors: &S,
    ) -> Option<Leader>
        requires many { length (S.bytes sectors.now) ≡ sectors_read geometry.now step.now * geometry.now.sector }
        requires cut { IsTrue (S.is_cut sectors.now geometry.now.sector) }
        ensures exact { result ≡ cond (is_area_step step.now) (leader_with geometry.now (S.bytes sectors.now) self.now.pairs) None }
        ensures rules { IfSome result IsLeader }
    {
        if !reads_area(step) {
            return None;
        }
        match leader_of(geometry, sectors) {
            Some(leader) => Some(leader),
            None => {
                if geometry.is_paired() {
                    leader_made(geometry, &self.pairs)
                } else {
                    None
                }
            }
        }
    }

    /// The leader that was read, if this step reads one, and in their places the blocks: with what was kept of the first read, if this is
    /// the second one. The sectors were told by `read` before.
    pub fn gather<S: Sectors>(
        &mut self,
        geometry: &Geometry,
        step: &LeaseStep,
        sectors: &S,
        first: Option<&Pairs>,
    ) -> Option<Leader>
        requires has { HasRead geometry.now (part_read (layout_of geometry.now) (S.bytes sectors.now) (first_step step.now)) self.old }
        requires many { length (S.bytes sectors.now) ≡ sectors_read geometry.now step.now * geometry.now.sector }
        requires cut { IsTrue (S.is_cut sectors.now geometry.now.sector) }
        ensures leader { result ≡ leader_given (layout_of geometry.now) (option_map_or (λ ps. ps.now) first.entry []) step.now (S.bytes sectors.now) }
        ensures blocks { self.new.blocks ≡ read_given (layout_of geometry.now) (option_map_or (λ ps. ps.now) first.entry []) step.now (S.bytes sectors.now) }
        ensures rules { IfSome result IsLeader }
        ensures places { HasPlaces geometry.now self.new }
    {
        self.put_in_places(geometry, first);
        self.leader(geometry, step, sectors)
    }
}
