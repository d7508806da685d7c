/// Whether a text has a form.
#[derive(Clone, Copy, Debug, PartialEq, Eq)]
pub enum Verdict {
    /// The text has the form.
    Accepted,
    /// The text hasn't the form. The column of the fault is the least number such that the first so
    /// many bytes begin no text of the form, or the length plus 1 where the whole text begins one.
    RefusedAt(usize),
}
