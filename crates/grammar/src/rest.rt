ghost use Rattle.std.specs.Prelude.{◌≡◌, ◌≤◌, ◌++◌, OnOk, vec_len};
ghost use Rattle.grammar.specs.Rest.{listed};

use crate::re::Re;
use std::alloc::AllocError;

// What is to come behind a form: the rest of a row, with further forms in front of it.
#[derive(Clone, Copy)]
pub enum Rest<'s, 'a> {
    Row(&'s [Re<'a>]),
    Then(&'s Re<'a>, &'s Rest<'s, 'a>),
}

impl<'a> Rest<'_, 'a> {
    // Puts the forms behind those of `forms`.
    pub fn append_to(&self, forms: &mut Vec<Re<'a>>) -> Result<(), AllocError>
        ensures ok { OnOk result (forms.new.items ≡ forms.old.items ++ listed self.now) }
        ensures grows { vec_len forms.old ≤ vec_len forms.new }
    {
        match self {
            Rest::Row(row) => forms.extend_from_slice(row),
            Rest::Then(form, rest) => {
                forms.push(**form)?;
                rest.append_to(forms)
            }
        }
    }
}
