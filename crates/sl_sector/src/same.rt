//! Whether two records are one.

ghost use Rattle.std.specs.Prelude.{IsTrue, ◌↔◌, ◌≡◌};

use crate::sector::Rec;

/// Whether two records are one, field by field.
pub fn same_record(a: &Rec, b: &Rec) -> bool
    ensures { IsTrue result ↔ (a.now ≡ b.now) }
{
    a == b
}
