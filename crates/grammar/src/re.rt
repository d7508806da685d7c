use crate::rule::Rule;

/// A regular form of text, as a value that the recognizer runs over.
#[derive(Clone, Copy)]
pub enum Re<'a> {
    /// Exactly these bytes.
    Word(&'a [u8]),
    /// One byte from the lesser of the two to the greater.
    Byte(u8, u8),
    /// The first, then the second.
    Then(&'a Re<'a>, &'a Re<'a>),
    /// The first or the second.
    Or(&'a Re<'a>, &'a Re<'a>),
    /// Any number of texts of the form, one behind the other.
    Many(&'a Re<'a>),
    /// At most so many texts of the form, one behind the other.
    UpTo(u8, &'a Re<'a>),
    /// A form of the grammar.
    Named(Rule),
}
