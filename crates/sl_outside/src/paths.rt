//! Where the disk of a live run stands.
ghost use Rattle.std.specs.Prelude.{IfOk, string_bytes, ◌++◌, ◌≡◌};

use std::alloc::{AllocError, Global};

/// The folder's text followed by the path: `make` makes the disk there, and `area` hands it out by this path. The only error is want of
/// memory.
pub fn disk_path(alloc: Global, folder: &str, path: &str) -> Result<String, AllocError>
    ensures { IfOk result (λ whole. string_bytes whole ≡ folder.now ++ path.now) }
{
    let mut whole = String::from_str(alloc, folder)?;
    whole.push_str(path)?;
    Ok(whole)
}
