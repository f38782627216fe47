//! The devices of a run: the disks that an action is done to.

ghost use Rattle.sl_outside.specs.Acts.{Grows};
ghost use Rattle.sl_outside.specs.Disks.{CountsBack, HandsOut, TakesBack};
ghost use Rattle.sl_outside.specs.Lendings.{AreaBack, AreaOut, Lending};
ghost use Rattle.std.specs.Prelude.{List, None, Option, [], ℕ, ◌∷◌, ◌≡◌};

use sl_area::Area;

/// The devices that a run may take.
pub trait Devices: Drop {
    /// A disk of theirs, while it is handed out.
    type Area: Area;

    /// What each disk has, by its path, where the devices tell it. Those over the outside tell nothing.
    ghost disks: { Self → List ℕ → Option (List ℕ) } = { λ _ _. None };

    /// The path of the disk that is out, where the devices tell what it has.
    ghost lent: { Self → Option (List ℕ) } = { λ _. None };

    /// What they handed out and what came back, one behind the other, where the devices tell that. Those over the outside tell nothing; ones that
    /// tell may stop, and never begin again.
    ghost lendings: { Self → Option (List Lending) } = { λ _. None };

    /// How many disks were taken back on which a call had failed; it never falls.
    ghost faults: { Self → ℕ };

    /// Hands out the disk at a path to a worker of a machine. The area has counted no fault; where there is no such disk, each of its
    /// calls will be one.
    fn area(&mut self, machine: u32, worker: u32, path: &str) -> Self::Area
        ensures disk { HandsOut path.now (disks self.old) (disks self.new) (lent self.new) (Self.Area.content result) }
        ensures fresh { Self.Area.faults result ≡ 0 }
        ensures lendings { Grows (lendings self.old) (lendings self.new) (AreaOut machine worker path.now (Self.Area.content result) ∷ []) }
        ensures count { faults self.new ≡ faults self.old };

    /// Takes an area back, the one that was handed out last. A fault is counted exactly where the area has counted one.
    fn back(&mut self, area: Self::Area)
        ensures disk { TakesBack (lent self.old) (disks self.old) (disks self.new) (Self.Area.content area) }
        ensures lendings { Grows (lendings self.old) (lendings self.new) (AreaBack (Self.Area.content area) (Self.Area.faults area) ∷ []) }
        ensures count { CountsBack (Self.Area.faults area) (faults self.old) (faults self.new) };
}
