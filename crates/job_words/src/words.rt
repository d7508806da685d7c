//! The words of a command line.
ghost use Rattle.std.specs.Prelude.{◌≡◌, ℕ, ◌<◌, ◌↔◌, List, [], ◌∷◌, ◌++◌, length, slice_index_or, IsTrue, OnOk, OnErr, MatchOption};
ghost use Rattle.job_words.specs.Words.{IsAskedBy, SpellsSize};
ghost use Rattle.job_words.specs.declared.job.Job.{Job};
ghost use Rattle.job_words.specs.declared.job.Job.TheVariants.{Sample};

use crate::job::Job;
use cdd_reading::Format;
use plain_text::{is_nat, number_up_to};
use row_core::Memory;
use std::alloc::Global;
use std::marker::Model;

/// The most rows of a sample.
const MOST_ROWS: u32 = 1_000;

/// Words, each of any bytes.
#[derive(Drop)]
pub struct Words {
    alloc: Global,
    words: Vec<Vec<u8>>,
}

impl Model for Words {
    ghost use Rattle.std.specs.Prelude.{ℕ, List, map};

    ghost Value = { List (List ℕ) };

    ghost view = { λ w. map (λ word. word.items) w.words.items };
}

impl Words {
    /// No word yet.
    pub fn new(alloc: Global) -> Words
        ensures { result ≡ [] }
    {
        Words {
            alloc,
            words: Vec::new(alloc),
        }
    }

    /// Appends a word.
    pub fn push(&mut self, word: &[u8]) -> Result<(), Memory>
        ensures ok { OnOk result (self.new ≡ self.old ++ word.now ∷ []) }
        ensures err { OnErr result (self.new ≡ self.old) }
    {
        self.words.push(Vec::from_slice(self.alloc, word)?)?;
        Ok(())
    }

    /// How many words there are.
    pub fn len(&self) -> usize
        ensures { result ≡ length self.now }
    {
        self.words.len()
    }

    /// Whether there is none.
    pub fn is_empty(&self) -> bool
        ensures { IsTrue result ↔ (self.now ≡ []) }
    {
        self.words.is_empty()
    }

    /// Word `i`, counted from 0.
    pub fn word(&self, i: usize) -> &[u8]
        requires { i < length self.now }
        ensures { result.now ≡ slice_index_or self.now i [] }
    {
        self.words[i].as_slice()
    }

    // Whether the words are this one word.
    fn is_only(&self, word: &[u8]) -> bool
        ensures { IsTrue result ↔ (self.now ≡ word.now ∷ []) }
    {
        self.len() == 1 && self.word(0) == word
    }

    // Whether the words are this one and one more.
    fn is_with_one(&self, word: &[u8]) -> bool
        ensures { IsTrue result ↔ (length self.now ≡ 2)
            × (slice_index_or self.now 0 [] ≡ word.now) }
    {
        self.len() == 2 && self.word(0) == word
    }

    // The number of the sample that the words ask for.
    fn sample(&self) -> Option<u32>
        ensures { MatchOption result ((n : ℕ) → ¬ (IsAskedBy self.now (Sample n)))
            (λ n. IsAskedBy self.now (Sample n)) }
    {
        if self.is_with_one(b"sample") {
            return size_of(self.word(1));
        }
        None
    }

    /// What the words ask for.
    pub fn job(&self) -> Option<Job>
        ensures { MatchOption result ((job : Job) → ¬ (IsAskedBy self.now job))
            (IsAskedBy self.now) }
    {
        if self.is_only(b"run") {
            Some(Job::Run)
        } else if self.is_only(b"ine2ext") {
            Some(Job::Convert(Format::Ine))
        } else if self.is_only(b"ext2ine") {
            Some(Job::Convert(Format::Ext))
        } else {
            match self.sample() {
                Some(n) => Some(Job::Sample(n)),
                None => None,
            }
        }
    }
}

// The number of rows that the word spells.
fn size_of(word: &[u8]) -> Option<u32>
    ensures { MatchOption result ((n : ℕ) → ¬ (SpellsSize word.now n))
        (λ n. SpellsSize word.now n) }
{
    if word.len() > 4 || !is_nat(word) {
        return None;
    }
    let number = number_up_to(word, u32::MAX as u128) as u32;
    if number > MOST_ROWS {
        return None;
    }
    Some(number)
}
