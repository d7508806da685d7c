//! Texts of bytes.
ghost use Rattle.std.specs.Prelude.{◌≡◌, ℕ, ◌==◌, nat_eq, List, [], ◌∷◌, ◌++◌, length, decimal, Decides, MatchResult};
ghost use Rattle.std.specs.Cmp;
ghost use Rattle.std.specs.Cmp.Lexicographic.{pointwise};
ghost use Rattle.std.proofs.lemmas.Cmp.{nat_list_eq_equiv};
ghost use Rattle.std.specs.Fmt.{signed_decimal};

use itoa::Buffer;
use row_core::Memory;
use smallvec::SmallVec;
use std::alloc::{AllocError, Global};
use std::marker::Model;

/// A text, which grows at its end. One of at most 32 bytes takes no memory from the heap.
#[derive(Debug)]
pub struct Text {
    bytes: SmallVec<u8, 32>,
}

// Written by hand, so that a function that drops a text calls this one, and doesn't free its bytes
// itself.
impl Drop for Text {
    fn drop(self) {
        let Text { bytes: _ } = self;
    }
}

impl Model for Text {
    ghost Value = { List ℕ };

    ghost view = { λ t. t.bytes.items };
}

impl Text {
    /// Returns the empty text.
    pub fn new(alloc: Global) -> Text
        ensures { result ≡ [] }
    {
        Text {
            bytes: SmallVec::new(alloc),
        }
    }

    /// Appends the bytes. Out of memory, the text is as before.
    pub fn push(&mut self, bytes: &[u8]) -> Result<(), Memory>
        ensures { MatchResult result
            (λ _. self.new ≡ self.old ++ bytes.now)
            (λ _. self.new ≡ self.old) }
    {
        self.bytes.extend_from_slice(bytes)?;
        Ok(())
    }

    /// Appends a byte. Out of memory, the text is as before.
    #[inline]
    pub fn push_byte(&mut self, byte: u8) -> Result<(), Memory>
        ensures { MatchResult result
            (λ _. self.new ≡ self.old ++ byte ∷ [])
            (λ _. self.new ≡ self.old) }
    {
        self.bytes.push(byte)?;
        Ok(())
    }

    /// Appends a number in decimal digits. Out of memory, the text is as before.
    pub fn push_unsigned(&mut self, number: u64) -> Result<(), Memory>
        ensures { MatchResult result
            (λ _. self.new ≡ self.old ++ decimal number)
            (λ _. self.new ≡ self.old) }
    {
        self.push(Buffer::new().format(number).as_bytes())
    }

    /// Appends a number in decimal digits, with `-` before a negative one. Out of memory, the
    /// text is as before.
    pub fn push_signed(&mut self, number: i128) -> Result<(), Memory>
        ensures { MatchResult result
            (λ _. self.new ≡ self.old ++ signed_decimal number)
            (λ _. self.new ≡ self.old) }
    {
        let size = number.unsigned_abs();
        if size >= 10 {
            return self.push(Buffer::new().format(number).as_bytes());
        }
        let digit = b'0' + size as u8;
        if number < 0 {
            self.push(&[b'-', digit])
        } else {
            self.push_byte(digit)
        }
    }

    /// Lends the bytes.
    #[inline]
    pub fn bytes(&self) -> &[u8]
        ensures { result.now ≡ self.now }
    {
        self.bytes.as_slice()
    }

    /// The number of bytes.
    #[inline]
    pub fn len(&self) -> usize
        ensures { result ≡ length self.now }
    {
        self.bytes.len()
    }

    /// Whether there is no byte.
    #[inline]
    pub fn is_empty(&self) -> bool
        ensures { result ≡ (length self.now == 0) }
    {
        self.bytes.is_empty()
    }
}

impl Clone for Text {
    ghost is_clone = { λ text copy. copy ≡ text };

    fn clone(&self) -> Result<Text, AllocError> {
        Ok(Text {
            bytes: SmallVec::from_slice(*self.bytes.allocator(), self.bytes())?,
        })
    }
}

impl PartialEq for Text {
    ghost eq = { pointwise nat_eq };

    ghost laws = { Cmp.partial_equiv_from_equiv nat_list_eq_equiv };

    fn eq(&self, other: &Text) -> bool
        ensures value { result ≡ pointwise nat_eq self.now other.now }
        ensures same { Decides result (self.now ≡ other.now) }
    {
        self.bytes() == other.bytes()
    }
}

impl Eq for Text {
    ghost laws = { nat_list_eq_equiv };
}
