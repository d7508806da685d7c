//! Entries of a table of names that may be polyhedra.
ghost use Rattle.std.specs.Prelude.{◌≡◌, Option, Some, None};
ghost use Rattle.std.specs.Option.{option_copied};
ghost use Rattle.poly_pair.specs.Polyhedra.{Polyhedron};

use poly_pair::Poly;

/// What stands under a name, where it may be a polyhedron.
pub trait PolyEntry: Drop {
    ghost as_poly: { Option Self → Option Polyhedron };

    ghost of_poly: { Polyhedron → Self };

    /// The polyhedron, where the entry is one.
    fn as_poly(&self) -> Option<&Poly>
        ensures { option_copied result ≡ as_poly (Some self.now) };

    /// The entry that is the polyhedron.
    fn of_poly(p: Poly) -> Self
        ensures { result ≡ of_poly p };

    ghost found: { (p : Polyhedron) → as_poly (Some (of_poly p)) ≡ Some p };

    ghost nothing: { as_poly None ≡ None };
}
