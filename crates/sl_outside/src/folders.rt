//! Why a folder can't be had.
use sl_io::Failed;

/// Why a folder isn't taken: a fault, which was counted.
#[derive(Clone, Copy, Debug, PartialEq, Eq)]
pub enum NotTaken {
    /// Another program has taken it, and is there still.
    InUse,
    /// It can't be opened, or can't be locked.
    Failed,
}

impl From<Failed> for NotTaken {
    ghost use Rattle.sl_outside.specs.declared.folders.NotTaken.{NotTaken};
    ghost use Rattle.std.specs.Prelude.{◌≡◌};

    ghost from_gives = { λ _ e. e ≡ NotTaken.Failed };

    fn from(_: Failed) -> NotTaken {
        NotTaken::Failed
    }
}
