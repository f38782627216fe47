//! A lockspace that is initialised and given a label.
ghost use Rattle.sl_area.specs.AreaSizes.{IsGeometry, layout_of};
ghost use Rattle.sl_area.specs.Roles.{IsBase};
ghost use Rattle.sl_direct.specs.Actions.{IsAction, label_for};
ghost use Rattle.sl_direct.specs.FreshAreas.{labelled_writes};
ghost use Rattle.sl_direct.specs.HalfDone.{BrokeOff, HasActed, Wrote};
ghost use Rattle.sl_direct.specs.declared.action.Action.TheVariants.{InitLabelled};
ghost use Rattle.sl_direct.specs.declared.action.Directed.TheVariants.{AreaFault};
ghost use Rattle.sl_label.specs.Labels.{label_record};
ghost use Rattle.sl_sector.specs.Records.{IsRecord};
ghost use Rattle.sl_text.specs.Names.{is_name};
ghost use Rattle.sl_io.specs.FaultCauses.{HasCause, Rose};
ghost use Rattle.std.specs.Prelude.{IsTrue, OnErr, OnOk, [], ◌≡◌, ◌≤◌};

use crate::action::Directed;
use crate::fresh_areas::{write_lockspace, write_record};
use crate::lines::push_labelled_line;
use sl_area::{Area, Geometry};
use sl_io::Failed;
use sl_label::Label;
use sl_sector::Rec;
use sl_time::Timing;
use sl_trace::LockspaceArg;

/// Writes the sectors of a lockspace, and its label last, as this record. After an `Err` a front of them was written, and the next one may be torn.
fn write_labelled<A: Area>(
    area: &mut A,
    geometry: Geometry,
    label: &Label,
    base: u64,
    rec: &Rec,
) -> Result<(), Failed>
    requires sizes { IsGeometry geometry }
    requires base { IsBase geometry base }
    requires named { IsTrue (is_name label.now.lockspace) }
    requires record { rec.now ≡ label_record label.now }
    requires rules { IsRecord rec.now }
    ensures ok { OnOk result (Wrote (labelled_writes (layout_of geometry) label.now base) (A.content area.old) (A.content area.new)) }
    ensures failed { OnErr result (BrokeOff (labelled_writes (layout_of geometry) label.now base) (A.content area.old) (A.content area.new)) }
    ensures cause { HasCause (A.faults area.old) (A.faults area.new) result }
{
    write_lockspace(area, geometry, label.lockspace, base)?;
    write_record(area, geometry.value_place(base), rec)?;
    Ok(())
}

/// Initialises the area of a lockspace, with a label. Its line and the label are made first, so that want of memory leaves the area as it was.
pub(crate) fn init_labelled<A: Area>(
    area: &mut A,
    lockspace: &LockspaceArg,
    geometry: Geometry,
    timing: Timing,
    grace: u64,
    out: &mut Vec<u8>,
) -> Directed
    requires action { IsAction (InitLabelled lockspace.now geometry timing grace) }
    requires first { out.old.items ≡ [] }
    ensures acted { HasActed (InitLabelled lockspace.now geometry timing grace) (A.content area.old) (A.content area.new) out.new.items result }
    ensures cause { result ≡ AreaFault → Rose (A.faults area.old) (A.faults area.new) }
    ensures later { A.faults area.old ≤ A.faults area.new }
{
    let label = Label {
        timing,
        grace,
        geometry,
        lockspace: lockspace.name,
    };
    let Ok(rec) = label.record(*out.allocator()) else {
        return Directed::NoMemory;
    };
    match push_labelled_line(out, lockspace, geometry, timing, grace) {
        Ok(()) => match write_labelled(area, geometry, &label, lockspace.offset, &rec) {
            Ok(()) => Directed::Done,
            Err(_) => {
                out.clear();
                Directed::AreaFault
            }
        },
        Err(_) => Directed::NoMemory,
    }
}
