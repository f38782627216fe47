//! What of a header the lines behind it are read by.

ghost use Rattle.sl_reader.specs.Scopes.{is_elsewhere, is_other, own_scope, scope_of};
ghost use Rattle.std.specs.Prelude.{◌≡◌};

use sl_area::Geometry;
use sl_run::Header;

/// How many machines there are, where the sectors of an area lie, and which machine runs, if it is one alone.
#[derive(Clone, Copy)]
pub struct Scope {
    pub machines: u32,
    pub geometry: Geometry,
    pub only: Option<u32>,
}

impl Scope {
    /// That of a header whose machines all run.
    pub fn of(header: &Header) -> Scope
        ensures { result ≡ scope_of header.now }
    {
        Scope {
            machines: header.machines,
            geometry: header.geometry,
            only: None,
        }
    }

    /// That of a header of whose machines the one of this number runs alone.
    pub fn of_machine(header: &Header, machine: u32) -> Scope
        ensures { result ≡ own_scope header.now machine }
    {
        Scope {
            machines: header.machines,
            geometry: header.geometry,
            only: Some(machine),
        }
    }

    /// Whether another machine runs alone.
    fn is_other(&self, machine: u32) -> bool
        ensures { result ≡ is_other self.now.only machine }
    {
        match self.only {
            Some(own) => own != machine,
            None => false,
        }
    }

    /// Whether the machine of this number does not run.
    pub(crate) fn is_elsewhere(&self, machine: u32) -> bool
        ensures { result ≡ is_elsewhere self.now machine }
    {
        self.machines < machine || self.is_other(machine)
    }
}
