//! A law of what is printed.
ghost use Rattle.run_laws.specs.Prints.{PrintsTellPoints};

use expr_text::{constraints_are_read_back, generators_are_read_back};
use poly_pair::laws::kept_is_pair;
use stored_systems::stored_laws::{stored_is_closed, stored_is_unique};

/// Two closed polyhedra of one dimension have the same points exactly where `print cons` shows
/// equal bytes for them, and exactly where `print gens` does.
pub fn prints_tell_points()
    ensures { PrintsTellPoints }
{
    stored_is_unique();
    stored_is_closed();
    kept_is_pair();
    constraints_are_read_back();
    generators_are_read_back();
}
