//! The lines that are printed, each behind the others with its line feed. Where memory runs out, the text stays as it was.
ghost use Rattle.sl_direct.specs.Lines as texts;
ghost use Rattle.sl_direct.specs.Upgrades as upgrades;
ghost use Rattle.sha2.specs.Sha256.{sha256};
ghost use Rattle.sl_sector.specs.RecordTexts.{bad_text};
ghost use Rattle.sl_sector.specs.SectorLayouts.{IsSectorSize, decoded};
ghost use Rattle.sl_text.specs.Forms.{spaced};
ghost use Rattle.std.specs.Prelude.{IfOk, OnErr, OnOk, [], length, string_bytes, false, true, ◌++◌, ◌∷◌, ◌≡◌};

use sl_area::Geometry;
use sl_sector::{Bad, Leader, Rec, decode, push_bad_text, push_record_text};
use sl_text::write::push_line;
use sl_time::Timing;
use sl_trace::{LockspaceArg, ResourceArg};
use std::alloc::{AllocError, Global};

/// Adds the line of a lockspace that is initialised.
pub(crate) fn push_lockspace_line(
    out: &mut Vec<u8>,
    lockspace: &LockspaceArg,
    geometry: Geometry,
) -> Result<(), AllocError>
    ensures ok { OnOk result (out.new.items ≡ out.old.items ++ texts.lockspace_line lockspace.now geometry.hosts ++ 10 ∷ []) }
    ensures err { OnErr result (out.new.items ≡ out.old.items) }
{
    let hosts = geometry.hosts();
    let line = format!(in *out.allocator(); "init {} {hosts}", lockspace.name)?;
    push_line(out, line.as_bytes())
}

/// The words of times, behind which their lockspace was initialised.
fn times_text(alloc: Global, timing: Timing, grace: u64) -> Result<String, AllocError>
    ensures { IfOk result (λ text. string_bytes text ≡ spaced (texts.times_words timing grace)) }
{
    let (io, fire, land, rho) = (timing.io(), timing.fire(), timing.land(), timing.rho());
    format!(in alloc; "time {io} {fire} {land} {rho} {grace}")
}

/// Adds the line of a lockspace that is initialised and given a label.
pub(crate) fn push_labelled_line(
    out: &mut Vec<u8>,
    lockspace: &LockspaceArg,
    geometry: Geometry,
    timing: Timing,
    grace: u64,
) -> Result<(), AllocError>
    ensures ok { OnOk result (out.new.items ≡ out.old.items ++ texts.labelled_line lockspace.now geometry.hosts timing grace ++ 10 ∷ []) }
    ensures err { OnErr result (out.new.items ≡ out.old.items) }
{
    let hosts = geometry.hosts();
    let times = times_text(*out.allocator(), timing, grace)?;
    let line = format!(in *out.allocator(); "init {} {hosts} {times}", lockspace.name)?;
    push_line(out, line.as_bytes())
}

/// Adds the line of a resource that is initialised.
pub(crate) fn push_resource_line(
    out: &mut Vec<u8>,
    resource: &ResourceArg,
    geometry: Geometry,
) -> Result<(), AllocError>
    ensures ok { OnOk result (out.new.items ≡ out.old.items ++ texts.resource_line resource.now geometry.hosts ++ 10 ∷ []) }
    ensures err { OnErr result (out.new.items ≡ out.old.items) }
{
    let hosts = geometry.hosts();
    let line = format!(in *out.allocator();
        "init {}:{} {hosts}",
        resource.lockspace, resource.name
    )?;
    push_line(out, line.as_bytes())
}

/// Adds the line of a resource whose area is upgraded.
pub(crate) fn push_upgrade_line(
    out: &mut Vec<u8>,
    resource: &ResourceArg,
    geometry: Geometry,
) -> Result<(), AllocError>
    ensures ok { OnOk result (out.new.items ≡ out.old.items ++ upgrades.upgrade_line resource.now geometry.hosts ++ 10 ∷ []) }
    ensures err { OnErr result (out.new.items ≡ out.old.items) }
{
    let hosts = geometry.hosts();
    let line = format!(in *out.allocator();
        "upgrade {}:{} {hosts}",
        resource.lockspace, resource.name
    )?;
    push_line(out, line.as_bytes())
}

/// Adds the line of a block that is torn.
pub(crate) fn push_torn_line(out: &mut Vec<u8>, id: u32) -> Result<(), AllocError>
    ensures ok { OnOk result (out.new.items ≡ out.old.items ++ upgrades.torn_line id ++ 10 ∷ []) }
    ensures err { OnErr result (out.new.items ≡ out.old.items) }
{
    let line = format!(in *out.allocator(); "TornBlock {id}")?;
    push_line(out, line.as_bytes())
}

/// The leader that the sector spells, of an area with pairs or without, or why there is none.
pub(crate) fn leader_in_sector(sector: &[u8]) -> Result<Leader, Bad>
    requires { IsSectorSize (length sector.now) }
    ensures { result ≡ texts.leader_in_sector sector.now }
{
    match decode(sector) {
        Ok(Rec::LeaderIs(leader)) => Ok(leader),
        Ok(Rec::PairLeaderIs(leader)) => Ok(leader),
        Ok(_) => Err(Bad::BadKind),
        Err(bad) => Err(bad),
    }
}

/// Whether the leader is the resource's.
pub(crate) fn has_names(resource: &ResourceArg, leader: &Leader) -> bool
    ensures { result ≡ texts.has_names resource.now leader.now }
{
    leader.lockspace == resource.lockspace && leader.resource == resource.name
}

/// Whether a leader was found, and is the resource's.
pub(crate) fn is_its_leader(resource: &ResourceArg, found: &Result<Leader, Bad>) -> bool
    ensures { result ≡ texts.is_its_leader resource.now found.now }
{
    match found {
        Ok(leader) => has_names(resource, leader),
        Err(_) => false,
    }
}

/// The text of a leader's names and hosts.
fn area_text(alloc: Global, leader: &Leader) -> Result<String, AllocError>
    ensures { IfOk result (λ text. string_bytes text ≡ spaced (texts.area_words leader.now)) }
{
    format!(in alloc;
        "{} {} {}",
        leader.lockspace, leader.resource, leader.num_hosts
    )
}

/// The text of a leader of the right names.
fn right_text(alloc: Global, leader: &Leader) -> Result<Vec<u8>, AllocError>
    ensures { IfOk result (λ text. text.items ≡ spaced (texts.named_words true leader.now)) }
{
    let area = area_text(alloc, leader)?;
    let mut text = Vec::new(alloc);
    push_record_text(&mut text, &Rec::LeaderIs(*leader))?;
    text.push(b' ')?;
    text.extend_from_slice(area.as_bytes())?;
    Ok(text)
}

/// The text of a leader of other names.
fn wrong_text(alloc: Global, leader: &Leader) -> Result<Vec<u8>, AllocError>
    ensures { IfOk result (λ text. text.items ≡ spaced (texts.named_words false leader.now)) }
{
    let area = area_text(alloc, leader)?;
    Ok(format!(in alloc; "WrongArea {area}")?.into_bytes())
}

/// The text of a refusal.
fn bad_text(alloc: Global, bad: Bad) -> Result<Vec<u8>, AllocError>
    ensures { IfOk result (λ text. text.items ≡ bad_text bad) }
{
    let mut text = Vec::new(alloc);
    push_bad_text(&mut text, bad)?;
    Ok(text)
}

/// What is told of a leader that was found, or of none.
fn leader_text(
    alloc: Global,
    resource: &ResourceArg,
    found: &Result<Leader, Bad>,
) -> Result<Vec<u8>, AllocError>
    ensures { IfOk result (λ text. text.items ≡ spaced (texts.leader_words resource.now found.now)) }
{
    match found {
        Ok(leader) => {
            if has_names(resource, leader) {
                right_text(alloc, leader)
            } else {
                wrong_text(alloc, leader)
            }
        }
        Err(bad) => bad_text(alloc, *bad),
    }
}

/// Adds the line of a leader that was found, or of none.
pub(crate) fn push_leader_line(
    out: &mut Vec<u8>,
    resource: &ResourceArg,
    found: &Result<Leader, Bad>,
) -> Result<(), AllocError>
    ensures ok { OnOk result (out.new.items ≡ out.old.items ++ spaced (texts.leader_words resource.now found.now) ++ 10 ∷ []) }
    ensures err { OnErr result (out.new.items ≡ out.old.items) }
{
    let line = leader_text(*out.allocator(), resource, found)?;
    push_line(out, &line)
}

/// The text of a leader that can't be upgraded, or of none.
fn other_text(alloc: Global, found: &Result<Leader, Bad>) -> Result<Vec<u8>, AllocError>
    ensures { IfOk result (λ text. text.items ≡ spaced (upgrades.other_words found.now)) }
{
    match found {
        Ok(leader) => wrong_text(alloc, leader),
        Err(bad) => bad_text(alloc, *bad),
    }
}

/// Adds the line of a leader that can't be upgraded, or of none.
pub(crate) fn push_other_line(
    out: &mut Vec<u8>,
    found: &Result<Leader, Bad>,
) -> Result<(), AllocError>
    ensures ok { OnOk result (out.new.items ≡ out.old.items ++ spaced (upgrades.other_words found.now) ++ 10 ∷ []) }
    ensures err { OnErr result (out.new.items ≡ out.old.items) }
{
    let line = other_text(*out.allocator(), found)?;
    push_line(out, &line)
}

/// Adds what a sector spells behind its offset.
fn push_found(line: &mut Vec<u8>, sector: &[u8]) -> Result<(), AllocError>
    requires { IsSectorSize (length sector.now) }
    ensures { OnOk result (line.new.items ≡ line.old.items ++ spaced (texts.found_words (decoded sha256 sector.now))) }
{
    match decode(sector) {
        Ok(rec) => push_record_text(line, &rec),
        Err(bad) => push_bad_text(line, bad),
    }
}

/// Adds the line of the sector at an offset.
pub(crate) fn push_sector_line(out: &mut Vec<u8>, at: u64, sector: &[u8]) -> Result<(), AllocError>
    requires { IsSectorSize (length sector.now) }
    ensures ok { OnOk result (out.new.items ≡ out.old.items ++ texts.sector_line at sector.now ++ 10 ∷ []) }
    ensures err { OnErr result (out.new.items ≡ out.old.items) }
{
    let mut line = format!(in *out.allocator(); "{at} ")?.into_bytes();
    push_found(&mut line, sector)?;
    push_line(out, &line)
}
