ghost use Rattle.std.specs.Prelude.{length, All};
ghost use Rattle.grammar.specs.Span.{IsSpan};

use crate::re::Re;
use crate::rest::Rest;
use crate::span::Span;
use std::alloc::{AllocError, Global};

// Rows of forms still to come. The memory is kept when they are cleared.
#[derive(Drop)]
pub struct Rows<'a> {
    forms: Vec<Re<'a>>,
    spans: Vec<Span>,
    ghost within: { All (IsSpan (length forms.items)) spans.items },
}

impl<'a> Rows<'a> {
    ghost use Rattle.std.specs.Prelude.{◌≡◌, ◌<◌, [], ◌∷◌, ◌++◌, length, slice_index_or, OnOk, IsTrue, ◌↔◌};
    ghost use Rattle.grammar.specs.Rest.{listed};
    ghost use Rattle.grammar.specs.Rows.{rows_of};

    pub fn new(alloc: Global) -> Self
        ensures { rows_of result ≡ [] }
    {
        Rows {
            forms: Vec::new(alloc),
            spans: Vec::new(alloc),
        }
    }

    pub fn is_empty(&self) -> bool
        ensures { IsTrue result ↔ (rows_of self.now ≡ []) }
    {
        self.spans.is_empty()
    }

    pub fn clear(&mut self)
        ensures { rows_of self.new ≡ [] }
    {
        self.forms.clear();
        self.spans.clear();
    }

    // Adds a row.
    pub fn push(&mut self, rest: &Rest<'_, 'a>) -> Result<(), AllocError>
        ensures { OnOk result (rows_of self.new ≡ rows_of self.old ++ listed rest.now ∷ []) }
    {
        let start = self.forms.len();
        rest.append_to(&mut self.forms)?;
        let end = self.forms.len();
        self.spans.push(Span { start, end })?;
        Ok(())
    }

    pub fn len(&self) -> usize
        ensures { result ≡ length (rows_of self.now) }
    {
        self.spans.len()
    }

    pub fn row(&self, index: usize) -> &[Re<'a>]
        requires { index < length (rows_of self.now) }
        ensures { result.now ≡ slice_index_or (rows_of self.now) index [] }
    {
        let span = self.spans[index];
        &self.forms[span.start..span.end]
    }
}
