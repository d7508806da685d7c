//! The lists that a step works with.
use row_store::{Marks, Values, VectorList};
use sat_matrix::PairLists;
use std::alloc::Global;

/// Lists that one step leaves to the next, which needs no new memory for as many elements, and the
/// allocator of a step.
pub(crate) struct Scratch {
    pub(crate) alloc: Global,
    pub(crate) line_values: Values,
    pub(crate) ray_values: Values,
    pub(crate) marks: Marks,
    pub(crate) pair_lists: PairLists,
    pub(crate) lines: VectorList,
    pub(crate) rays: VectorList,
}

// Written by hand, so that a function that drops the lists of a step makes one call.
impl Drop for Scratch {
    fn drop(self) {
        let Self {
            alloc: _,
            line_values: _,
            ray_values: _,
            marks: _,
            pair_lists: _,
            lines: _,
            rays: _,
        } = self;
    }
}

impl Scratch {
    /// Returns empty lists.
    pub(crate) fn new(alloc: Global) -> Scratch {
        Scratch {
            alloc,
            line_values: Values::new(alloc),
            ray_values: Values::new(alloc),
            marks: Marks::new(alloc),
            pair_lists: PairLists::new(alloc),
            lines: VectorList::new(alloc, 0),
            rays: VectorList::new(alloc, 0),
        }
    }
}
