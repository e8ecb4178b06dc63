//! Laws about the definitions. Each is the contract of a function that does nothing.
ghost use Rattle.ados_census.specs.Namings.{PlacesAreNamings};

/// Each place of a reached block that leads to a block of the image is a naming.
pub fn places_are_namings()
    ensures { PlacesAreNamings }
{}
