/// A form of the grammar, by its name.
#[derive(Clone, Copy, Debug, PartialEq, Eq)]
pub enum Rule {
    /// A number in decimal digits.
    Nat,
    /// A name of at most 32 bytes.
    Name,
    /// A variable.
    Var,
    /// A term of an expression.
    Term,
    /// An expression.
    Expr,
    /// An expression with a divisor.
    Frac,
    /// A term with a variable.
    Vterm,
    /// An expression of variables alone.
    Vexpr,
    /// An expression of variables with a divisor.
    Vfrac,
    /// A constraint.
    Con,
    /// A list of constraints.
    Cons,
    /// A point.
    Point,
    /// A generator.
    Gen,
    /// A list of generators.
    Gens,
    /// A list of variables.
    Vars,
    /// A comment, to the end of the line.
    Comment,
}
