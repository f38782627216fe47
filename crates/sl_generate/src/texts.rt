//! The texts of the commands that are drawn.

ghost use Rattle.sl_report.specs.GeneratedSchedules.{gen_path, gen_resource_word};
ghost use Rattle.sl_text.specs.Forms.{coloned, spaced};
ghost use Rattle.std.specs.Prelude.{IfOk, OnOk, codes, decimal, false, [], ◌*◌, ◌++◌, ◌∷◌, ◌<◌, ◌^◌, ◌≡◌};

use sl_text::Bytes;
use std::alloc::{AllocError, Global};

/// Bytes of an area: a mebibyte.
const AREA: u64 = 1_048_576;

/// Where the lockspace begins.
const BASE: u64 = 0;

/// Adds a text.
fn push_text(out: &mut Vec<u8>, text: &[u8]) -> Result<(), AllocError>
    ensures { OnOk result (out.new.items ≡ out.old.items ++ text.now) }
{
    out.extend_from_slice(text)
}

/// The text of a command about resource `k` in a mode, for a process.
fn command_text(
    alloc: Global,
    verb: &[u8],
    k: u64,
    mode: &[u8],
    process: u64,
) -> Result<Bytes, AllocError>
    requires { k < 2 ^ 32 }
    ensures { IfOk result (λ text. text ≡ verb.now ++ codes " -r ls:r" ++ decimal k ++ codes ":/d:" ++ decimal (k * 1048576) ++ mode.now ++ codes " -p " ++ decimal process) }
{
    let offset = k * AREA;
    let front = format!(in alloc; " -r ls:r{k}:/d:{offset}")?;
    let back = format!(in alloc; " -p {process}")?;
    let mut text = Vec::new(alloc);
    push_text(&mut text, verb)?;
    push_text(&mut text, front.as_bytes())?;
    push_text(&mut text, mode)?;
    push_text(&mut text, back.as_bytes())?;
    Ok(Bytes::new(text))
}

/// The acquire of resource `k` by a process, shared or exclusive. An `Err` is want of memory.
pub(crate) fn acquire_text(
    alloc: Global,
    k: u64,
    shared: bool,
    process: u64,
) -> Result<Bytes, AllocError>
    requires { k < 2 ^ 32 }
    ensures { IfOk result (λ text. text ≡ spaced (codes "acquire" ∷ codes "-r" ∷ gen_resource_word k shared ∷ codes "-p" ∷ decimal process ∷ [])) }
{
    if shared {
        command_text(alloc, b"acquire", k, b":SH", process)
    } else {
        command_text(alloc, b"acquire", k, b"", process)
    }
}

/// The release of resource `k` by a process. An `Err` is want of memory.
pub(crate) fn release_text(alloc: Global, k: u64, process: u64) -> Result<Bytes, AllocError>
    requires { k < 2 ^ 32 }
    ensures { IfOk result (λ text. text ≡ spaced (codes "release" ∷ codes "-r" ∷ gen_resource_word k false ∷ codes "-p" ∷ decimal process ∷ [])) }
{
    command_text(alloc, b"release", k, b"", process)
}

/// The joining of a machine under its own number. An `Err` is want of memory.
pub(crate) fn join_text(alloc: Global, machine: u32) -> Result<Bytes, AllocError>
    ensures { IfOk result (λ text. text ≡ spaced (codes "add_lockspace" ∷ codes "-s" ∷ coloned (codes "ls" ∷ decimal machine ∷ gen_path ∷ decimal 0 ∷ []) ∷ [])) }
{
    let text = format!(in alloc; "add_lockspace -s ls:{machine}:/d:{BASE}")?;
    Bytes::from_slice(alloc, text.as_bytes())
}
