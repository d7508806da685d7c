//! Machines that decide a form of text by a table, without memory.

use crate::verdict::Verdict;

/// How many classes of bytes a state has room for.
const WIDTH: usize = 32;

/// The state from which no text of the form is reached.
const DEAD: u8 = 255;

/// The most steps of a table that has none for the dead state.
const MOST_STEPS: usize = 8_160;

/// A deterministic machine as a table. It begins in state 0.
#[derive(Clone, Copy)]
pub struct Machine<'a> {
    /// The class of each byte, less than 32.
    pub classes: &'a [u8; 256],
    /// The state behind each state and each of 32 classes; 255 where no text of the form is
    /// reached.
    pub steps: &'a [u8],
    /// Whether a text may end in each state.
    pub ends: &'a [bool],
}

impl Machine<'_> {
    ghost use Rattle.std.specs.Prelude.{◌≡◌, slice_index_or, false, IsTrue};
    ghost use Rattle.grammar.specs.Form.{Form, Matches};
    ghost use Rattle.grammar.specs.Machine.{next, Decides};
    ghost use Rattle.grammar.specs.Verdict.{IsVerdict};

    /// Whether the text has the form that the machine decides. Linear in the length, and without
    /// memory.
    pub fn column(&self, text: &[u8]) -> Verdict
        ensures { (form : Form)
            → Decides self.now.classes.now self.now.steps.now self.now.ends.now form
            → IsVerdict form text.now result }
    {
        if self.accepts(text) {
            return Verdict::Accepted;
        }
        self.column_by_byte(text)
    }

    // Whether the text is known to have the form, from the state behind all of it: no step leads
    // out of the dead one.
    fn accepts(&self, text: &[u8]) -> bool
        ensures { (form : Form)
            → Decides self.now.classes.now self.now.steps.now self.now.ends.now form
            → IsTrue result → Matches form text.now }
    {
        if self.steps.len() > MOST_STEPS {
            return false;
        }
        let mut state = 0;
        for byte in text {
            state = self.state_after(state, *byte);
        }
        if state == DEAD {
            return false;
        }
        self.may_end(state)
    }

    // The verdict, up to the byte at which the dead state is reached.
    fn column_by_byte(&self, text: &[u8]) -> Verdict
        ensures { (form : Form)
            → Decides self.now.classes.now self.now.steps.now self.now.ends.now form
            → IsVerdict form text.now result }
    {
        let mut state = 0;
        for (index, byte) in text.iter().enumerate() {
            state = self.state_after(state, *byte);
            if state == DEAD {
                return Verdict::RefusedAt(index + 1);
            }
        }
        if self.may_end(state) {
            Verdict::Accepted
        } else {
            Verdict::RefusedAt(text.len() + 1)
        }
    }

    // The state behind the byte.
    fn state_after(&self, state: u8, byte: u8) -> u8
        ensures { result ≡ next self.now.classes.now self.now.steps.now state byte }
    {
        let class = self.classes[usize::from(byte)];
        match self
            .steps
            .get(usize::from(state) * WIDTH + usize::from(class))
        {
            Some(after) => *after,
            None => DEAD,
        }
    }

    // Whether a text may end in the state.
    fn may_end(&self, state: u8) -> bool
        ensures { result ≡ slice_index_or self.now.ends.now state false }
    {
        match self.ends.get(usize::from(state)) {
            Some(end) => *end,
            None => false,
        }
    }
}
