//! Laws of mapped systems, by their definitions alone.
ghost use Rattle.mapped_systems.specs.CarriedSystems.{SystemIsCarried, MinimalIsCarried};

/// A map that can be undone takes the system of a cone to one of the cone's image, where it keeps
/// the reduced echelon form.
pub fn system_is_carried()
    ensures { SystemIsCarried }
{}

/// A map that can be undone takes the system of a cone to a minimal form of the cone's image.
pub fn minimal_is_carried()
    ensures { MinimalIsCarried }
{}
