//! The names that daemons had.

ghost use Rattle.indexmap.specs.IndexSet.{contains, spare};
ghost use Rattle.std.proofs.Common.{ap};
ghost use Rattle.std.specs.Cmp.{partial_equiv_from_equiv};
ghost use Rattle.std.specs.Cmp.Lexicographic.{bytes_decides, nat_list_eq_equiv};
ghost use Rattle.std.specs.Hash as fed;
ghost use Rattle.std.specs.List.{list_any};
ghost use Rattle.std.specs.Prelude.{bytes_eq, false, reverse, ◌<◌, ◌∷◌, ◌≡◌};

use indexmap::IndexSet;
use sl_text::Name;
use std::alloc::AllocError;
use std::hash::{Hash, Hasher};
use std::marker::Model;

/// The name of a daemon, seen as its text.
#[derive(Clone, Copy)]
pub struct DaemonName {
    name: Name,
}

impl Model for DaemonName {
    ghost use Rattle.std.specs.Prelude.{List, ℕ};

    ghost Value = { List ℕ };

    ghost view = { λ n. n.name };

    ghost inverse = { λ text. record { name = text } };
}

impl PartialEq for DaemonName {
    ghost eq = { bytes_eq };

    ghost laws = { partial_equiv_from_equiv nat_list_eq_equiv };

    fn eq(&self, other: &DaemonName) -> bool {
        self.name == other.name
    }
}

impl Eq for DaemonName {
    ghost laws = { nat_list_eq_equiv };
}

impl Hash for DaemonName {
    ghost hash_input = { fed.str };

    ghost respects_eq = { λ a b same. ap fed.str ((bytes_decides a b).0 same) };

    fn hash<H: Hasher>(&self, state: &mut H) {
        self.name.as_str().hash(state);
    }
}

/// Whether some daemon of the world, on whatever machine, had this name.
pub fn has_name(names: &IndexSet<DaemonName>, name: Name) -> bool
    ensures { result ≡ list_any (bytes_eq name) (reverse names.now.keys) }
{
    names.contains(&DaemonName { name })
}

/// A daemon has this name that none had. It takes no memory.
pub fn add_name(names: &mut IndexSet<DaemonName>, name: Name)
    requires room { 0 < spare names.old }
    requires new { list_any (bytes_eq name) (reverse names.old.keys) ≡ false }
    ensures { reverse names.new.keys ≡ name ∷ reverse names.old.keys }
{
    match names.insert(DaemonName { name }) {
        Ok(_) => {}
        Err(_) => unreachable!(),
    }
}
