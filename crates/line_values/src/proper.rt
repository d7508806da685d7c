//! What each polyhedron keeps.
ghost use Rattle.std.specs.Prelude.{All};
ghost use Rattle.line_values.specs.Proper.{IsProper};

use poly_pair::Poly;

/// A polyhedron has the two systems that are stored of its set.
pub fn is_proper(p: &Poly)
    ensures { IsProper p.now }
{
    let _ = (p.dim(), p.cons().dim(), p.gens().dim());
}

/// Each of the polyhedra has.
pub fn are_proper(sets: &[Poly])
    ensures { All IsProper sets.now }
{
    for index in 0..sets.len() {
        is_proper(&sets[index]);
    }
}
