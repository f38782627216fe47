//! What is put out at the end.

ghost use Rattle.sl_live_play.specs.DifferenceLines.{differ_text};
ghost use Rattle.sl_live_play.specs.LiveOwed.{Puts, area_fault_text, disk_there_text, in_use_text};
ghost use Rattle.sl_live_play.specs.declared.play.Lived.TheVariants as lived;
ghost use Rattle.sl_live_lines.specs.LiveTexts.{last_text};
ghost use Rattle.sl_output.specs.Outputs.{IsPut};
ghost use Rattle.sl_output.specs.Pieces.{Piece, text_of};
ghost use Rattle.sl_report.specs.RefusalLines.{refusal_line};
ghost use Rattle.sl_text.specs.Forms.{as_bytes};
ghost use Rattle.std.specs.Prelude.{List, OnOk, Option, [], ℕ, ◌++◌, ◌∷◌, ◌≡◌};

use crate::difference_lines::push_differ_line;
use crate::play::Lived;
use sl_io::{Sink, write_all};
use sl_live_lines::{Ending, push_last};
use sl_live_run::LiveDiffer;
use sl_run::Refusal;
use sl_schedule::push_refusal_line;
use sl_text::FilePath;
use sl_text::write::push_line;
use std::alloc::{AllocError, Global};

/// Puts out a text that stands, or found no memory.
pub fn put<K: Sink>(
    sink: &mut K,
    pushed: Result<(), AllocError>,
    text: &[u8],
    whole: Lived,
) -> Lived
    ensures { (all : List ℕ) → OnOk pushed (text.now ≡ all) → Puts (K.taken sink.old) (K.taken sink.new) (K.faults sink.old) (K.faults sink.new) all whole result }
{
    match pushed {
        Err(_) => Lived::NoMemory,
        Ok(()) => match write_all(sink, text) {
            Ok(()) => whole,
            Err(_) => Lived::WriteFault,
        },
    }
}

/// Puts out the line of a refusal.
pub fn put_refusal<K: Sink>(alloc: Global, sink: &mut K, number: u64, why: Refusal) -> Lived
    ensures { Puts (K.taken sink.old) (K.taken sink.new) (K.faults sink.old) (K.faults sink.new) (as_bytes (refusal_line number why ∷ [])) lived.Refused result }
{
    let mut out = Vec::new(alloc);
    let pushed = push_refusal_line(&mut out, number, why);
    put(sink, pushed, &out, Lived::Refused)
}

/// Puts out that devices failed.
pub(crate) fn put_area_fault<K: Sink>(sink: &mut K) -> Lived
    ensures { Puts (K.taken sink.old) (K.taken sink.new) (K.faults sink.old) (K.faults sink.new) area_fault_text lived.AreaFault result }
{
    put(sink, Ok(()), b"area fault\n", Lived::AreaFault)
}

/// Puts out that another program has the folder.
pub(crate) fn put_in_use<K: Sink>(sink: &mut K) -> Lived
    ensures { Puts (K.taken sink.old) (K.taken sink.new) (K.faults sink.old) (K.faults sink.new) in_use_text lived.AreaFault result }
{
    put(sink, Ok(()), b"folder in use\n", Lived::AreaFault)
}

/// Adds the line of a disk that stands already.
fn push_disk_there(out: &mut Vec<u8>, path: &FilePath) -> Result<(), AllocError>
    ensures { OnOk result (out.new.items ≡ out.old.items ++ disk_there_text path.now) }
{
    out.extend_from_slice(b"disk there ")?;
    push_line(out, path.as_slice())
}

/// Puts out that a disk stands already.
pub(crate) fn put_disk_there<K: Sink>(alloc: Global, sink: &mut K, path: FilePath) -> Lived
    ensures { Puts (K.taken sink.old) (K.taken sink.new) (K.faults sink.old) (K.faults sink.new) (disk_there_text path) lived.AreaFault result }
{
    let mut out = Vec::new(alloc);
    let pushed = push_disk_there(&mut out, &path);
    put(sink, pushed, &out, Lived::AreaFault)
}

/// Puts a text that stands, or found no memory, behind the pieces that were put out, of which a write failed or none.
fn put_behind<K: Sink>(
    sink: &mut K,
    cut: bool,
    pushed: Result<(), AllocError>,
    text: &[u8],
    whole: Lived,
) -> Lived
    ensures { (taken : Option (List ℕ)) → (faults : ℕ) → (pieces : List Piece) → (all : List ℕ)
        → IsPut taken (K.taken sink.old) faults (K.faults sink.old) pieces cut → OnOk pushed (text.now ≡ all)
        → Puts taken (K.taken sink.new) faults (K.faults sink.new) (text_of pieces ++ all) whole result }
{
    if cut {
        return Lived::WriteFault;
    }
    put(sink, pushed, text, whole)
}

/// Puts out how a run ended, by how its script ended, behind what so many machines told, with so many replies.
pub(crate) fn put_last<K: Sink>(
    alloc: Global,
    sink: &mut K,
    cut: bool,
    machines: usize,
    replies: u64,
    ending: Ending,
    whole: Lived,
) -> Lived
    ensures { (taken : Option (List ℕ)) → (faults : ℕ) → (pieces : List Piece)
        → IsPut taken (K.taken sink.old) faults (K.faults sink.old) pieces cut
        → Puts taken (K.taken sink.new) faults (K.faults sink.new) (text_of pieces ++ last_text machines replies ending) whole result }
{
    let mut out = Vec::new(alloc);
    let pushed = push_last(&mut out, machines, replies, ending);
    put_behind(sink, cut, pushed, &out, whole)
}

/// Puts out the case in which records of a machine differ, behind what machines told.
pub(crate) fn put_differ<K: Sink>(
    alloc: Global,
    sink: &mut K,
    cut: bool,
    machine: usize,
    differ: &LiveDiffer,
) -> Lived
    ensures { (taken : Option (List ℕ)) → (faults : ℕ) → (pieces : List Piece)
        → IsPut taken (K.taken sink.old) faults (K.faults sink.old) pieces cut
        → Puts taken (K.taken sink.new) faults (K.faults sink.new) (text_of pieces ++ differ_text machine differ.now) lived.Differs result }
{
    let mut out = Vec::new(alloc);
    let pushed = push_differ_line(&mut out, machine, differ);
    put_behind(sink, cut, pushed, &out, Lived::Differs)
}
