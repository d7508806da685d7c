//! A line, read.
use crate::variables::VarList;
use reply_text::Text;

/// The text of a part behind a colon or a relation.
#[derive(Debug, Drop)]
pub struct Part {
    /// The bytes of the form, without the blanks around it.
    pub text: Text,
    /// Whether one of the relations `>` and `<` or a closure point `c(..)` stands in it.
    pub strict: bool,
}

/// How the new value of an image's variable stands to the fraction.
#[derive(Clone, Copy, Debug, Drop)]
pub enum Rel {
    /// `=`, or a colon.
    Eq,
    /// `>=`
    Ge,
    /// `<=`
    Le,
    /// `>`
    Gt,
    /// `<`
    Lt,
}

/// A polyhedron that its dimension alone determines.
#[derive(Clone, Copy, Debug, Drop)]
pub enum Space {
    /// `universe`: all points.
    Universe,
    /// `empty`: no point.
    Empty,
}

/// What is made of two polyhedra.
#[derive(Clone, Copy, Debug, Drop, PartialEq, Eq)]
pub enum Operator {
    /// `meet`
    Meet,
    /// `hull`
    Hull,
    /// `concat`
    Concat,
    /// `elapse`
    Elapse,
}

/// How two polyhedra may lie.
#[derive(Clone, Copy, Debug, Drop)]
pub enum Comparison {
    /// `contains`
    Contains,
    /// `equal`
    Equal,
    /// `disjoint`
    Disjoint,
}

/// Which extreme value of an expression.
#[derive(Clone, Copy, Debug, Drop)]
pub enum Extremum {
    /// `max`
    Max,
    /// `min`
    Min,
}

/// Which way an affine map is applied.
#[derive(Clone, Copy, Debug, Drop)]
pub enum Mapping {
    /// `image`
    Image,
    /// `preimage`
    Preimage,
}

/// How dimensions are added.
#[derive(Clone, Copy, Debug, Drop)]
pub enum Extension {
    /// `embed`
    Embed,
    /// `project`
    Project,
}

/// What is made of two powersets.
#[derive(Clone, Copy, Debug, Drop)]
pub enum PowersetOperator {
    /// `join`
    Join,
    /// `pmeet`
    Meet,
}

/// What is made of two shapes.
#[derive(Clone, Copy, Debug, Drop)]
pub enum ShapeOperator {
    /// `smeet`
    Meet,
    /// `shull`
    Hull,
}

/// A part of a location of a hybrid automaton.
#[derive(Clone, Copy, Debug, Drop)]
pub enum LocationPart {
    /// `inv`
    Invariant,
    /// `flow`
    Flow,
}

/// A line, read. A number above `u64::MAX` is `u64::MAX`.
#[derive(Drop)]
pub enum Command {
    /// A blank line, or a comment alone.
    Nothing,
    /// `cons OUT TOP N : CONS`; `top` is whether the topology is NNC.
    Cons {
        out: Text,
        top: bool,
        n: u64,
        cons: Part,
    },
    /// `gens OUT TOP N : GENS`
    Gens {
        out: Text,
        top: bool,
        n: u64,
        gens: Part,
    },
    /// `universe OUT TOP N`, `empty OUT TOP N`
    Space {
        space: Space,
        out: Text,
        top: bool,
        n: u64,
    },
    /// `copy OUT P`
    Copy {
        out: Text,
        p: Text,
    },
    /// `drop NAME`
    Drop {
        name: Text,
    },
    /// `add P : CONS`
    Add {
        p: Text,
        cons: Part,
    },
    /// `addgen P : GENS`
    Addgen {
        p: Text,
        gens: Part,
    },
    /// `has P : POINT`
    Has {
        p: Text,
        point: Part,
    },
    /// `size P`
    Size {
        p: Text,
    },
    /// `print SIDE P`; `side` is whether the generators are printed.
    Print {
        side: bool,
        p: Text,
    },
    /// `names`
    Names,
    /// `meet OUT P Q`, `hull OUT P Q`, `concat OUT P Q`, `elapse OUT P Q`
    OfTwo {
        op: Operator,
        out: Text,
        p: Text,
        q: Text,
    },
    /// `closure OUT P`
    Closure {
        out: Text,
        p: Text,
    },
    /// `contains P Q`, `equal P Q`, `disjoint P Q`
    Compare {
        by: Comparison,
        p: Text,
        q: Text,
    },
    /// `isempty P`
    Isempty {
        p: Text,
    },
    /// `relation P : CON`
    Relation {
        p: Text,
        con: Part,
    },
    /// `max P : EXPR`, `min P : EXPR`
    Bound {
        of: Extremum,
        p: Text,
        expr: Part,
    },
    /// `image OUT P V REL FRAC`, `preimage OUT P V REL FRAC`; `v` is the number of the variable,
    /// 0 for `A`, 26 for `A1`.
    Map {
        by: Mapping,
        out: Text,
        p: Text,
        v: u64,
        rel: Rel,
        frac: Part,
    },
    /// `embed OUT P N`, `project OUT P N`
    Extend {
        by: Extension,
        out: Text,
        p: Text,
        n: u64,
    },
    /// `remove OUT P : VARS`; `vars` has the number of each variable, in order.
    Remove {
        out: Text,
        p: Text,
        vars: VarList,
    },
    /// `widen OUT P Q`
    Widen {
        out: Text,
        p: Text,
        q: Text,
    },
    /// `read OUT FORM`; `form` is whether the file lists generators.
    Read {
        out: Text,
        form: bool,
    },
    /// `write P FORM`
    Write {
        p: Text,
        form: bool,
    },
    /// `system OUT N L`
    System {
        out: Text,
        n: u64,
        l: u64,
    },
    /// `init S LOC P`
    Init {
        s: Text,
        loc: u64,
        p: Text,
    },
    /// `trans S LOC LOC2 R`
    Trans {
        s: Text,
        loc: u64,
        loc2: u64,
        r: Text,
    },
    /// `fixpoint S DELAY PREFIX`
    Fixpoint {
        s: Text,
        delay: u64,
        prefix: Text,
    },
    /// `pset OUT P`
    Pset {
        out: Text,
        p: Text,
    },
    /// `join OUT S T`, `pmeet OUT S T`
    OfTwoPowersets {
        op: PowersetOperator,
        out: Text,
        s: Text,
        t: Text,
    },
    /// `member OUT S I`
    Member {
        out: Text,
        s: Text,
        i: u64,
    },
    /// `psize S`
    Psize {
        s: Text,
    },
    /// `covers S T`
    Covers {
        s: Text,
        t: Text,
    },
    /// `rank OUT R`
    Rank {
        out: Text,
        r: Text,
    },
    /// `ranking R`
    Ranking {
        r: Text,
    },
    /// `shape OUT P`
    ShapeOf {
        out: Text,
        p: Text,
    },
    /// `bounds OUT N : CONS`
    Bounds {
        out: Text,
        n: u64,
        cons: Part,
    },
    /// `smeet OUT S T`, `shull OUT S T`
    OfTwoShapes {
        op: ShapeOperator,
        out: Text,
        s: Text,
        t: Text,
    },
    /// `scontains S T`
    ShapeContains {
        s: Text,
        t: Text,
    },
    /// `sprint S`
    ShapePrint {
        s: Text,
    },
    /// `spoly OUT S`
    ShapePoly {
        out: Text,
        s: Text,
    },
    /// `hybrid OUT S`
    Hybrid {
        out: Text,
        s: Text,
    },
    /// `inv H LOC P`, `flow H LOC P`
    SetPart {
        part: LocationPart,
        h: Text,
        loc: u64,
        p: Text,
    },
    /// `reach H DELAY PREFIX`
    Reach {
        h: Text,
        delay: u64,
        prefix: Text,
    },
}
