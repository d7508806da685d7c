//! What stands under the names of a line.
ghost use Rattle.std.specs.Prelude.{◌≡◌};
ghost use Rattle.std.specs.Option.{option_copied};
ghost use Rattle.calc_state.specs.Table.{system_of, powerset_of, shape_of, hybrid_of};

use crate::entry::Entry;
use bd_shape::Shape;
use hybrid::Hybrid;
use name_table::Names;
use powerset::Powerset;
use reply_text::Text;
use trans_sys::System;

/// The transition system under the name.
pub fn system_at<'a>(names: &'a Names<Entry>, name: &Text) -> Option<&'a System>
    ensures { option_copied result ≡ system_of names.now name.now }
{
    match names.get(name.bytes()) {
        Some(Entry::System(s)) => Some(s),
        _ => None,
    }
}

/// The hybrid automaton under the name.
pub fn hybrid_at<'a>(names: &'a Names<Entry>, name: &Text) -> Option<&'a Hybrid>
    ensures { option_copied result ≡ hybrid_of names.now name.now }
{
    match names.get(name.bytes()) {
        Some(Entry::Hybrid(h)) => Some(h),
        _ => None,
    }
}

/// The powerset under the name.
pub fn powerset_at<'a>(names: &'a Names<Entry>, name: &Text) -> Option<&'a Powerset>
    ensures { option_copied result ≡ powerset_of names.now name.now }
{
    match names.get(name.bytes()) {
        Some(Entry::Powerset(s)) => Some(s),
        _ => None,
    }
}

/// The bounded-difference shape under the name.
pub fn shape_at<'a>(names: &'a Names<Entry>, name: &Text) -> Option<&'a Shape>
    ensures { option_copied result ≡ shape_of names.now name.now }
{
    match names.get(name.bytes()) {
        Some(Entry::Shape(s)) => Some(s),
        _ => None,
    }
}
