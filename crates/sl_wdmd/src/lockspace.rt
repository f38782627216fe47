//! A lockspace's name as the key of a map.

ghost use Rattle.std.proofs.Common.{ap};
ghost use Rattle.std.specs.Cmp.{partial_equiv_from_equiv};
ghost use Rattle.std.specs.Cmp.Lexicographic.{bytes_decides, nat_list_eq_equiv};
ghost use Rattle.std.specs.Hash as fed;
ghost use Rattle.std.specs.Prelude.{bytes_eq, ◌≡◌};

use sl_text::Name;
use std::hash::{Hash, Hasher};
use std::marker::Model;

/// The name of a lockspace, seen as its text.
#[derive(Clone, Copy)]
pub struct Lockspace {
    name: Name,
}

impl Model for Lockspace {
    ghost use Rattle.std.specs.Prelude.{List, ℕ};

    ghost Value = { List ℕ };

    ghost view = { λ lockspace. lockspace.name };

    ghost inverse = { λ text. record { name = text } };
}

impl Lockspace {
    /// The lockspace of this name.
    pub fn named(name: Name) -> Lockspace
        ensures { result ≡ name }
    {
        Lockspace { name }
    }

    /// Its name.
    pub fn name(&self) -> Name
        ensures { result ≡ self.now }
    {
        self.name
    }
}

impl PartialEq for Lockspace {
    ghost eq = { bytes_eq };

    ghost laws = { partial_equiv_from_equiv nat_list_eq_equiv };

    fn eq(&self, other: &Lockspace) -> bool {
        self.name == other.name
    }
}

impl Eq for Lockspace {
    ghost laws = { nat_list_eq_equiv };
}

impl Hash for Lockspace {
    ghost hash_input = { fed.str };

    ghost respects_eq = { λ a b same. ap fed.str ((bytes_decides a b).0 same) };

    fn hash<H: Hasher>(&self, state: &mut H) {
        self.name.as_str().hash(state);
    }
}
