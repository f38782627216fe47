//! That pictures are well formed.

ghost use Rattle.sl_drawing.specs.WellFormed.{PicturesAreWellFormed};

/// A picture is well formed, whatever its elements and whatever bytes their texts have.
pub fn pictures_are_well_formed()
    ensures { PicturesAreWellFormed }
{}
