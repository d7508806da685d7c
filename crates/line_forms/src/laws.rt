//! A law of the definitions that the contracts cite.
ghost use Rattle.line_forms.specs.Laws.{FieldsAreWords};

/// The fields of a line, however it matches, are those of its words.
#[tactic(auto, using(crate::proofs::FormLaws::fields_are))]
pub fn fields_are_words()
    ensures { FieldsAreWords }
{}
