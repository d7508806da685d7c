//! The forms of lines, by what stands behind their command words.

/// A command with one name behind its word.
#[derive(Clone, Copy)]
pub enum OneName {
    /// `drop`
    Drop,
    /// `size`
    Size,
    /// `isempty`
    Isempty,
    /// `psize`
    Psize,
    /// `ranking`
    Ranking,
    /// `sprint`
    ShapePrint,
}

/// A command with a name and a part.
#[derive(Clone, Copy)]
pub enum NameAndPart {
    /// `add`
    Add,
    /// `addgen`
    Addgen,
    /// `has`
    Has,
    /// `relation`
    Relation,
    /// `max`
    Max,
    /// `min`
    Min,
}

/// A command with two names.
#[derive(Clone, Copy)]
pub enum TwoNames {
    /// `copy`
    Copy,
    /// `closure`
    Closure,
    /// `contains`
    Contains,
    /// `equal`
    Equal,
    /// `disjoint`
    Disjoint,
    /// `pset`
    Pset,
    /// `covers`
    Covers,
    /// `rank`
    Rank,
    /// `shape`
    ShapeOf,
    /// `scontains`
    ShapeContains,
    /// `spoly`
    ShapePoly,
    /// `hybrid`
    Hybrid,
}

/// A command with three names.
#[derive(Clone, Copy)]
pub enum ThreeNames {
    /// `meet`
    Meet,
    /// `hull`
    Hull,
    /// `concat`
    Concat,
    /// `elapse`
    Elapse,
    /// `widen`
    Widen,
    /// `join`
    Join,
    /// `pmeet`
    PowersetMeet,
    /// `smeet`
    ShapeMeet,
    /// `shull`
    ShapeHull,
}

/// A command with a name, a topology and a number.
#[derive(Clone, Copy)]
pub enum SpaceAlone {
    /// `universe`
    Universe,
    /// `empty`
    Empty,
}

/// A command with a name, a topology, a number and a part.
#[derive(Clone, Copy)]
pub enum SpaceAndPart {
    /// `cons`
    Cons,
    /// `gens`
    Gens,
}

/// A command with two names and a number.
#[derive(Clone, Copy)]
pub enum TwoNamesNumber {
    /// `embed`
    Embed,
    /// `project`
    Project,
    /// `member`
    Member,
}

/// A command with two names, a variable, a relation and a part.
#[derive(Clone, Copy)]
pub enum TwoNamesMap {
    /// `image`
    Image,
    /// `preimage`
    Preimage,
}

/// A command with a name and the kind of a file.
#[derive(Clone, Copy)]
pub enum NameFormat {
    /// `read`
    Read,
    /// `write`
    Write,
}

/// A command with a name, a number and a name.
#[derive(Clone, Copy)]
pub enum NameNumberName {
    /// `init`
    Init,
    /// `inv`
    Invariant,
    /// `flow`
    Flow,
}

/// A command with a name, a number and the prefix of names.
#[derive(Clone, Copy)]
pub enum NameNumberPrefix {
    /// `fixpoint`
    Fixpoint,
    /// `reach`
    Reach,
}

/// The form of a line: its command, by what stands behind the command's word.
#[derive(Clone, Copy)]
pub enum LineForm {
    /// A blank line, or a comment alone.
    Nothing,
    /// `names`
    Names,
    /// One name.
    OneName(OneName),
    /// A name and a part.
    NameAndPart(NameAndPart),
    /// Two names.
    TwoNames(TwoNames),
    /// Three names.
    ThreeNames(ThreeNames),
    /// A name, a topology and a number.
    SpaceAlone(SpaceAlone),
    /// A name, a topology, a number and a part.
    SpaceAndPart(SpaceAndPart),
    /// Two names and a number.
    TwoNamesNumber(TwoNamesNumber),
    /// Two names, a variable, a relation and a part.
    TwoNamesMap(TwoNamesMap),
    /// A name and the kind of a file.
    NameFormat(NameFormat),
    /// A name, a number and a name.
    NameNumberName(NameNumberName),
    /// A name, a number and the prefix of names.
    NameNumberPrefix(NameNumberPrefix),
    /// `print`
    Print,
    /// `remove`
    Remove,
    /// `system`
    System,
    /// `trans`
    Trans,
    /// `bounds`
    Bounds,
}
