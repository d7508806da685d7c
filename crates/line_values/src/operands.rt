//! The polyhedra under the names of a line, and what its words say.
ghost use Rattle.std.specs.Prelude.{◌≡◌};
ghost use Rattle.std.specs.Option.{option_copied};
ghost use Rattle.name_table.specs.Table.{has_no_room};
ghost use Rattle.line_values.specs.Operands.{is_max, format_of as named_format, topology_of as named_topology, poly_of};

use crate::entry::PolyEntry;
use cdd_reading::Format;
use name_table::Names;
use poly_pair::{Poly, Topology};
use reply_text::Text;
use script_text::Extremum;

/// The topology of a line, by whether its word is `nnc`.
pub fn topology_of(nnc: bool) -> Topology
    ensures { result ≡ named_topology nnc }
{
    if nnc { Topology::Nnc } else { Topology::Closed }
}

/// The list of a line's file, by whether its word is `ext`.
pub fn format_of(ext: bool) -> Format
    ensures { result ≡ named_format ext }
{
    if ext { Format::Ext } else { Format::Ine }
}

/// Whether the greatest value is asked for.
pub fn is_max(of: Extremum) -> bool
    ensures { result ≡ is_max of }
{
    match of {
        Extremum::Max => true,
        Extremum::Min => false,
    }
}

/// Whether there is no room for the name.
pub fn is_full<E: PolyEntry>(names: &Names<E>, name: &Text) -> bool
    ensures { result ≡ has_no_room names.now name.now }
{
    names.has_no_room(name.bytes())
}

/// The polyhedron under the name.
pub fn poly_at<'a, E: PolyEntry>(names: &'a Names<E>, name: &Text) -> Option<&'a Poly>
    ensures { option_copied result ≡ poly_of E.as_poly names.now name.now }
{
    match names.get(name.bytes()) {
        Some(entry) => entry.as_poly(),
        None => None,
    }
}
