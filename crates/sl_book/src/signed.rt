//! An element of a log.
ghost use Rattle.std.specs.Prelude.{◌≡◌};

/// What somebody gave, with the number of who did.
#[derive(Drop)]
pub struct Signed<E> {
    pub by: u32,
    pub entry: E,
}

impl<E> Signed<E> {
    /// What was given, alone. It takes no memory.
    pub fn into_entry(self) -> E
        ensures { result ≡ self.entry }
    {
        let Signed { by: _, entry } = self;
        entry
    }
}
