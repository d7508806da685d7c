//! Lists of variables.
ghost use Rattle.std.specs.Prelude.{◌≡◌, ℕ, ◌<◌, List, [], ◌∷◌, ◌++◌, length, get_or, ◌==◌};
ghost use Rattle.std.specs.Prelude.{MatchResult};

use row_core::Memory;
use std::alloc::Global;
use std::marker::Model;

/// The numbers of variables, in order.
#[derive(Debug, Drop)]
pub struct VarList {
    numbers: Vec<u64>,
}

impl Model for VarList {
    ghost Value = { List ℕ };

    ghost view = { λ v. v.numbers.items };
}

impl VarList {
    /// The empty list.
    pub fn new(alloc: Global) -> VarList
        ensures { result ≡ [] }
    {
        VarList {
            numbers: Vec::new(alloc),
        }
    }

    /// Appends a number. Out of memory, the list is as before.
    pub fn push(&mut self, number: u64) -> Result<(), Memory>
        ensures { MatchResult result
            (λ _. self.new ≡ self.old ++ number ∷ [])
            (λ _. self.new ≡ self.old) }
    {
        self.numbers.push(number)?;
        Ok(())
    }

    /// How many variables the list has, a repeated one counted again.
    pub fn len(&self) -> usize
        ensures { result ≡ length self.now }
    {
        self.numbers.len()
    }

    /// Whether the list has no variable.
    pub fn is_empty(&self) -> bool
        ensures { result ≡ (length self.now == 0) }
    {
        self.numbers.is_empty()
    }

    /// The number of a variable of the list, counted from 0.
    pub fn get(&self, i: usize) -> u64
        requires { i < length self.now }
        ensures { result ≡ get_or self.now i 0 }
    {
        self.numbers[i]
    }
}
