//! What is done with polyhedra: what makes one, what is added to one, and what is asked.
use reply_text::Text;
use script_text::{Comparison, Extension, Extremum, Mapping, Operator, Part, Rel, Space, VarList};

/// What makes a polyhedron.
#[derive(Drop)]
pub enum Maker {
    /// Words and a part alone, in a topology (`top` is whether it is NNC) and so many variables.
    Given { top: bool, n: u64, by: Given },
    /// One polyhedron.
    OfOne { p: Text, by: OfOne },
    /// Two polyhedra.
    OfTwo { p: Text, q: Text, by: OfTwo },
}

/// What words and a part make alone.
#[derive(Drop)]
pub enum Given {
    /// `cons`: the points at which constraints hold.
    Cons(Part),
    /// `gens`: the points that generators generate.
    Gens(Part),
    /// `universe`, `empty`
    Space(Space),
}

/// What is made of one polyhedron.
#[derive(Drop)]
pub enum OfOne {
    /// `copy`
    Copy,
    /// `closure`
    Closure,
    /// `image`, `preimage`
    Map {
        by: Mapping,
        v: u64,
        rel: Rel,
        frac: Part,
    },
    /// `embed`, `project`
    Extend {
        by: Extension,
        n: u64,
    },
    /// `remove`
    Remove(VarList),
}

/// What is made of two polyhedra.
#[derive(Drop)]
pub enum OfTwo {
    /// `meet`, `hull`, `concat`, `elapse`
    Operate(Operator),
    /// `widen`
    Widen,
}

/// What is added to a polyhedron under its name.
#[derive(Drop)]
pub enum Addition {
    /// `add`: constraints.
    Cons(Part),
    /// `addgen`: generators.
    Gens(Part),
}

/// What is asked.
#[derive(Drop)]
pub enum Question {
    /// About one polyhedron.
    OfOne { p: Text, about: About },
    /// `contains`, `equal`, `disjoint`
    Compare { by: Comparison, p: Text, q: Text },
    /// `names`
    Names,
}

/// What is asked about one polyhedron.
#[derive(Drop)]
pub enum About {
    /// `has`
    Has(Part),
    /// `size`
    Size,
    /// `print`, of the generators or not
    Print(bool),
    /// `isempty`
    Isempty,
    /// `relation`
    Relation(Part),
    /// `max`, `min`
    Bound(Extremum, Part),
    /// `write`, of the generators or not
    Write(bool),
}
