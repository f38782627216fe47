//! Why a machine can't run where it is to, and the line that says so.

ghost use Rattle.sl_io.specs.FaultCauses.{Rose};
ghost use Rattle.sl_outside.specs.Disks.{Disks};
ghost use Rattle.sl_own.specs.OwnGrounds.{Bars};
ghost use Rattle.sl_own.specs.OwnTexts.{no_place_text};
ghost use Rattle.sl_own.specs.declared.no_place.NoPlace.TheVariants.{MachineInUse, OtherSize};
ghost use Rattle.sl_run.specs.declared.header.Header.{Header as HeaderOf};
ghost use Rattle.std.specs.Prelude.{List, OnErr, OnOk, [], ℕ, ◌++◌, ◌∷◌, ◌≡◌};

use sl_io::Failed;
use sl_place::NotClaimed;
use sl_standing::{NotStanding, push_not_standing};
use sl_text::FilePath;
use sl_text::write::push_line;
use std::alloc::AllocError;

/// Why a machine can't run where it is to. Nothing was written to a disk.
#[derive(Clone, Copy)]
pub enum NoPlace {
    /// A program that runs all machines has the folder.
    FolderInUse,
    /// Another process has the machine.
    MachineInUse { machine: u32 },
    /// A disk of the header does not stand: the one with this path.
    NoDisk { path: FilePath },
    /// It has so many bytes, and other ones by the header.
    OtherSize { path: FilePath, bytes: u64 },
    /// An area differs from what the header says of it, or can't be read; or there is no memory.
    NotStanding(NotStanding),
}

impl From<NotStanding> for NoPlace {
    ghost use Rattle.sl_own.specs.declared.no_place.NoPlace.{NoPlace};
    ghost use Rattle.std.specs.Prelude.{◌≡◌};

    ghost from_gives = { λ why e. e ≡ NoPlace.NotStanding why };

    fn from(why: NotStanding) -> NoPlace {
        NoPlace::NotStanding(why)
    }
}

impl From<Failed> for NoPlace {
    ghost use Rattle.sl_own.specs.declared.no_place.NoPlace.{NoPlace};
    ghost use Rattle.sl_standing.specs.declared.not_standing.NotStanding.TheVariants.{AreaFault};
    ghost use Rattle.std.specs.Prelude.{◌≡◌};

    ghost from_gives = { λ _ e. e ≡ NoPlace.NotStanding AreaFault };

    fn from(_: Failed) -> NoPlace {
        NoPlace::NotStanding(NotStanding::AreaFault)
    }
}

impl From<AllocError> for NoPlace {
    ghost use Rattle.sl_own.specs.declared.no_place.NoPlace.{NoPlace};
    ghost use Rattle.sl_standing.specs.declared.not_standing.NotStanding.TheVariants.{NoMemory};
    ghost use Rattle.std.specs.Prelude.{◌≡◌};

    ghost from_gives = { λ _ e. e ≡ NoPlace.NotStanding NoMemory };

    fn from(_: AllocError) -> NoPlace {
        NoPlace::NotStanding(NotStanding::NoMemory)
    }
}

impl NoPlace {
    /// Why a machine of this number can't be claimed.
    pub(crate) fn of_claim(machine: u32, why: NotClaimed) -> NoPlace
        ensures { (disks : Disks) (folder : List ℕ) (h : HeaderOf) (faults : ℕ) (later : ℕ) → Rose faults later → Bars disks folder h machine faults later result }
    {
        match why {
            NotClaimed::FolderInUse => NoPlace::FolderInUse,
            NotClaimed::MachineInUse => NoPlace::MachineInUse { machine },
            NotClaimed::Failed => NoPlace::NotStanding(NotStanding::AreaFault),
        }
    }
}

/// Adds a line of these words and a disk's path, with what stands behind it.
fn push_disk_line(
    out: &mut Vec<u8>,
    words: &str,
    path: &FilePath,
    behind: &str,
) -> Result<(), AllocError>
    ensures ok { OnOk result (out.new.items ≡ out.old.items ++ words.now ++ 32 ∷ (path.now ++ (behind.now ++ 10 ∷ []))) }
    ensures err { OnErr result (out.new.items ≡ out.old.items) }
{
    let path = path.as_str();
    let line = format!(in *out.allocator(); "{words} {path}{behind}")?;
    push_line(out, line.as_bytes())
}

/// Adds the line of a machine that another process has.
fn push_in_use(out: &mut Vec<u8>, machine: u32) -> Result<(), AllocError>
    ensures ok { OnOk result (out.new.items ≡ out.old.items ++ no_place_text (MachineInUse machine)) }
    ensures err { OnErr result (out.new.items ≡ out.old.items) }
{
    let line = format!(in *out.allocator(); "machine in use {machine}")?;
    push_line(out, line.as_bytes())
}

/// Adds the line of a disk of another size.
fn push_size_line(out: &mut Vec<u8>, path: &FilePath, bytes: u64) -> Result<(), AllocError>
    ensures ok { OnOk result (out.new.items ≡ out.old.items ++ no_place_text (OtherSize path.now bytes)) }
    ensures err { OnErr result (out.new.items ≡ out.old.items) }
{
    let behind = format!(in *out.allocator(); " {bytes}")?;
    push_disk_line(out, "disk size", path, behind.as_str())
}

/// Adds the line that says why, with its line feed. After an `Err`, which is want of memory, nothing is added. Of want of memory nothing is told.
pub(crate) fn push_no_place(out: &mut Vec<u8>, why: &NoPlace) -> Result<(), AllocError>
    ensures ok { OnOk result (out.new.items ≡ out.old.items ++ no_place_text why.now) }
    ensures err { OnErr result (out.new.items ≡ out.old.items) }
{
    match why {
        NoPlace::FolderInUse => push_line(out, b"folder in use"),
        NoPlace::MachineInUse { machine } => push_in_use(out, *machine),
        NoPlace::NoDisk { path } => push_disk_line(out, "disk missing", path, ""),
        NoPlace::OtherSize { path, bytes } => push_size_line(out, path, *bytes),
        NoPlace::NotStanding(why) => push_not_standing(out, why),
    }
}
