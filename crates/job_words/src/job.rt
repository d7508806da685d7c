//! What can be asked for.
use cdd_reading::Format;

/// What the words ask for.
#[derive(Clone, Copy, PartialEq, Eq)]
pub enum Job {
    /// A script is run.
    Run,
    /// A file that holds this list is converted into the file of the other.
    Convert(Format),
    /// The sample of so many rows is converted, and its line is written.
    Sample(u32),
}
