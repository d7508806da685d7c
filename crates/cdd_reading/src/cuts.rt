//! Cutting lines into tokens.
ghost use Rattle.std.specs.Prelude.{◌≡◌, ◌<◌, ◌∷◌, [], length, position, if◌then◌else◌, MatchOption};
ghost use Rattle.cdd_reading.specs.Tokens.{has_some, is_gap, tokens};

/// The first token of a line, and what stands behind it.
pub fn split_token(line: &[u8]) -> Option<(&[u8], &[u8])>
    ensures { MatchOption result (tokens line.now ≡ [])
        (λ r. (tokens line.now ≡ r.0.now ∷ tokens r.1.now) × (length r.1.now < length line.now)) }
{
    let mut rest = line;
    while !rest.is_empty() {
        let (part, behind) = split_part(rest);
        if !part.is_empty() {
            return Some((part, behind));
        }
        rest = behind;
    }
    None
}

/// Where the first gap stands.
fn gap(bytes: &[u8]) -> Option<usize>
    ensures { result ≡ position is_gap bytes.now }
{
    bytes
        .iter()
        .position(|b| *b == b' ' || *b == b'\t' || *b == b'\r')
}

/// What stands before the first gap, and what stands behind it.
fn split_part(line: &[u8]) -> (&[u8], &[u8])
    requires { 0 < length line.now }
    ensures parts { tokens line.now ≡ if has_some result.0.now
        then result.0.now ∷ tokens result.1.now else tokens result.1.now }
    ensures shorter { length result.1.now < length line.now }
{
    match gap(line) {
        None => (line, &[]),
        Some(at) => (&line[..at], &line[at + 1..]),
    }
}
