//! Where a line ends.
ghost use Rattle.std.specs.Prelude.{◌≡◌, ℕ, List, ◌++◌, ◌⊎◌, ◌+◌, ◌<◌, ◌≤◌, ◌∷◌, [], length, position, take};
ghost use Rattle.std.specs.Str.Lines.{lines, strip_carriage_return};
ghost use Rattle.plain_text.specs.Lines.{is_feed};

/// Where the first line feed stands.
pub fn first_line_feed(bytes: &[u8]) -> Option<usize>
    ensures { result ≡ position is_feed bytes.now }
{
    bytes.iter().position(|b| *b == b'\n')
}

/// The line without one carriage return at its end.
pub fn without_return(line: &[u8]) -> &[u8]
    ensures line { result.now ≡ strip_carriage_return line.now }
    ensures front { result.now ≡ take (length result.now) line.now }
    ensures shorter { length result.now ≤ length line.now }
{
    match line {
        [front @ .., b'\r'] => front,
        _ => line,
    }
}

/// The first line, without its line feed and a carriage return directly before that, and the bytes
/// behind it.
pub fn split_line(bytes: &[u8]) -> (&[u8], &[u8])
    requires { 0 < length bytes.now }
    ensures first { lines bytes.now ≡ result.0.now ∷ lines result.1.now }
    ensures shorter { length result.1.now < length bytes.now }
    ensures both { length result.0.now + length result.1.now ≤ length bytes.now }
    ensures chunk { (front : List ℕ)
        × (((bytes.now ≡ front) × (result.1.now ≡ [])) ⊎ (bytes.now ≡ front ++ 10 ∷ result.1.now)) }
{
    match first_line_feed(bytes) {
        None => (bytes, &[]),
        Some(at) => (without_return(&bytes[..at]), &bytes[at + 1..]),
    }
}
