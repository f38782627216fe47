//! How the sectors of a run lie: laws that hold of the places of every geometry. The functions do nothing; each one's contract is the law.
ghost use Rattle.sl_area.specs.Roles.{AreasAreApart, DeltasAreApart, PlacesLieInArea, RolesAreApart};

/// Each sector of a lockspace's area and of a resource's area lies in it.
pub fn places_lie_in_area()
    ensures { PlacesLieInArea }
{}

/// The delta sectors of two ids share no byte.
pub fn deltas_are_apart()
    ensures { DeltasAreApart }
{}

/// Leader, request, value and the hosts' blocks share no byte.
pub fn roles_are_apart()
    ensures { RolesAreApart }
{}

/// Sectors of two areas of one disk share no byte.
pub fn areas_are_apart()
    ensures { AreasAreApart }
{}
