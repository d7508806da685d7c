ghost use Rattle.grammar.specs.Avoids.{AvoidedBytes};
ghost use Rattle.grammar.specs.Form.{DecidesMatches};

/// A law: no text of a form has a byte that the form avoids. So a separator that the parts of a
/// text avoid stands where it is found first.
pub fn avoided_bytes()
    ensures { AvoidedBytes }
{}

/// A law: each text has a form or hasn't.
pub fn decided_matches()
    ensures { DecidesMatches }
{}
