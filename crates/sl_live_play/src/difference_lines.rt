//! The line of a case in which records of a machine differ.

ghost use Rattle.sl_live_play.specs.DifferenceLines.{cell_case, differ_text, live_case};
ghost use Rattle.std.specs.Prelude.{OnOk, ◌++◌, ◌≡◌};

use sl_cell::Differ;
use sl_live_run::LiveDiffer;
use sl_text::write::push_line;
use std::alloc::AllocError;

/// The name of a case of a cell, and its number.
fn cell_case(differ: &Differ) -> (&'static str, u64)
    ensures name { result.0.now ≡ (cell_case differ.now).0 }
    ensures number { result.1 ≡ (cell_case differ.now).1 }
{
    match differ {
        Differ::Entry { entries, .. } => ("Entry", *entries),
        Differ::Broken { entries } => ("Broken", *entries),
    }
}

/// The name of a case, and its number.
fn live_case(differ: &LiveDiffer) -> (&'static str, u64)
    ensures name { result.0.now ≡ (live_case differ.now).0 }
    ensures number { result.1 ≡ (live_case differ.now).1 }
{
    match differ {
        LiveDiffer::Cell(differ) => cell_case(differ),
        LiveDiffer::Line { number } => ("Line", *number),
        LiveDiffer::Left { number, .. } => ("Left", *number),
        LiveDiffer::Untold { number, .. } => ("Left", *number),
    }
}

/// Adds the line of a case of a machine.
pub(crate) fn push_differ_line(
    out: &mut Vec<u8>,
    machine: usize,
    differ: &LiveDiffer,
) -> Result<(), AllocError>
    ensures { OnOk result (out.new.items ≡ out.old.items ++ differ_text machine differ.now) }
{
    let (name, number) = live_case(differ);
    let line = format!(in *out.allocator(); "differ {machine} {name} {number}")?;
    push_line(out, line.as_bytes())
}
