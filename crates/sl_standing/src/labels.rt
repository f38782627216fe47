//! A lockspace's label, read and compared.

ghost use Rattle.sha2.specs.Sha256.{sha256};
ghost use Rattle.sl_label.specs.Labels.{label_in, label_text};
ghost use Rattle.sl_run.specs.Headers.{IsHeader};
ghost use Rattle.sl_sector.specs.SectorLayouts.{IsSectorSize, decoded};
ghost use Rattle.sl_sector.specs.declared.sector.Bad.{Bad};
ghost use Rattle.sl_sector.specs.declared.sector.Rec.{Rec};
ghost use Rattle.sl_standing.specs.Standing as standing;
ghost use Rattle.sl_standing.specs.Standing.{IsLabelled, LabelDiffers, LabelLacks};
ghost use Rattle.std.specs.Io.KnownBytes.{Keeps};
ghost use Rattle.std.specs.Prelude.{Contains, IfErr, OnOk, Result, Some, length, ◌≡◌, ◌≢◌, ◌≤◌};

use crate::areas::LONGEST_SECTOR;
use crate::not_standing::NotStanding;
use sl_area::Area;
use sl_label::{Label, label_in};
use sl_run::{Header, LockspaceLine};
use sl_text::Data;
use std::alloc::Global;

/// The label that a header's lockspace has.
fn label_of(header: &Header, line: &LockspaceLine) -> Label
    ensures { result ≡ standing.label_of header.now line.now }
{
    Label {
        timing: header.timing,
        grace: header.grace,
        geometry: header.geometry,
        lockspace: line.name,
    }
}

/// How a label that stands differs from the one that is due.
fn difference(alloc: Global, label: &Label, stands: Data) -> NotStanding
    requires { stands ≢ label_text label.now }
    ensures { (found : Result Rec Bad) → label_in found ≡ Some stands → LabelDiffers label.now found result }
{
    match label.has_time(alloc, stands.as_slice()) {
        Ok(true) => NotStanding::OtherLabel {
            lockspace: label.lockspace,
            stands,
        },
        Ok(false) => NotStanding::OtherTime {
            lockspace: label.lockspace,
            stands,
        },
        Err(_) => NotStanding::NoMemory,
    }
}

/// Whether this sector has the label that is due.
fn compare(alloc: Global, label: &Label, sector: &[u8]) -> Result<(), NotStanding>
    requires { IsSectorSize (length sector.now) }
    ensures ok { OnOk result (label_in (decoded sha256 sector.now) ≡ Some (label_text label.now)) }
    ensures differs { IfErr result (LabelDiffers label.now (decoded sha256 sector.now)) }
{
    let due = label.text(alloc)?;
    match label_in(sector) {
        None => Err(NotStanding::NoLabel {
            lockspace: label.lockspace,
        }),
        Some(stands) => {
            if stands.as_slice() == due.as_slice() {
                Ok(())
            } else {
                Err(difference(alloc, label, stands))
            }
        }
    }
}

/// Sees that a lockspace has its label.
pub(crate) fn check_lockspace<A: Area>(
    alloc: Global,
    header: &Header,
    line: &LockspaceLine,
    area: &mut A,
) -> Result<(), NotStanding>
    requires header { IsHeader header.now }
    requires line { Contains header.now.lockspaces line.now }
    ensures kept { Keeps (A.content area.old) (A.content area.new) }
    ensures ok { OnOk result (IsLabelled header.now (A.content area.old) line.now) }
    ensures lacks { IfErr result (LabelLacks header.now (A.content area.old) (A.faults area.old) (A.faults area.new) line.now) }
    ensures later { A.faults area.old ≤ A.faults area.new }
{
    let mut longest = [0; LONGEST_SECTOR];
    let sector = &mut longest[..header.geometry.sector() as usize];
    area.read(header.geometry.value_place(line.offset), 1, sector)?;
    compare(alloc, &label_of(header, line), sector)
}
