//! What a constraint asks of generators.
ghost use Rattle.std.specs.Prelude.{◌↔◌, IsTrue};
ghost use Rattle.set_laws.specs.Asking.{Asks};

use cons_sys::ConKind;
use gens_sys::GenKind;

/// Whether a generator of this kind has the value that the constraint's kind asks.
pub fn asks(kind: ConKind, generator: GenKind, value: i128) -> bool
    ensures { IsTrue result ↔ Asks kind generator value }
{
    match (kind, generator) {
        (ConKind::Eq, _) | (_, GenKind::Line) => value == 0,
        (ConKind::Gt, GenKind::Point) => value > 0,
        _ => value >= 0,
    }
}
