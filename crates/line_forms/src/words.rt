//! The words of a line.
ghost use Rattle.std.specs.Prelude.{◌≡◌, ◌≤◌, length, take_while, reverse};
ghost use Rattle.line_forms.specs.Words.{is_blank, is_sign, is_in_word, is_before_sign};
ghost use Rattle.line_forms.specs.Words.{is_before_comment, past_blanks, before_blanks, word_of};
ghost use Rattle.line_forms.specs.Words.{behind_word, nth_word, before_comment, from_sign};
ghost use Rattle.line_forms.specs.Words.{sign_len, sign_of, part_of, is_word};

/// How many blanks stand in front.
fn blanks_in_front(text: &[u8]) -> usize
    ensures { result ≡ length (take_while is_blank text.now) }
{
    text.iter()
        .take_while(|b| **b == b' ' || **b == b'\t')
        .count()
}

/// How many blanks stand at the end.
fn blanks_at_end(text: &[u8]) -> usize
    ensures { result ≡ length (take_while is_blank (reverse text.now)) }
{
    text.iter()
        .rev()
        .take_while(|b| **b == b' ' || **b == b'\t')
        .count()
}

/// Whether the byte is a colon or one of a relation.
fn is_sign(byte: u8) -> bool
    ensures { result ≡ is_sign byte }
{
    (byte == b':') | (byte == b'<') | (byte == b'=') | (byte == b'>')
}

/// The length of the word in front. A word ends before a blank, a colon, a relation or a comment.
fn word_len(text: &[u8]) -> usize
    ensures { result ≡ length (take_while is_in_word text.now) }
{
    text.iter()
        .take_while(|b| !(**b == b' ' || **b == b'\t' || **b == b'#' || is_sign(**b)))
        .count()
}

/// Whether the word is this one.
pub fn is_word(word: &[u8], other: &[u8]) -> bool
    ensures { result ≡ is_word word.now other.now }
{
    word == other
}

/// The text without the blanks in front.
pub fn past_blanks(text: &[u8]) -> &[u8]
    ensures { result.now ≡ past_blanks text.now }
{
    &text[blanks_in_front(text)..]
}

/// The text without the blanks at its end.
fn before_blanks(text: &[u8]) -> &[u8]
    ensures { result.now ≡ before_blanks text.now }
{
    &text[..text.len() - blanks_at_end(text)]
}

/// The first word of a text, and what stands behind it.
pub fn split_word(text: &[u8]) -> (&[u8], &[u8])
    ensures word { result.0.now ≡ word_of text.now }
    ensures behind { result.1.now ≡ behind_word text.now }
{
    let text = past_blanks(text);
    text.split_at(word_len(text))
}

/// The first two words of a text.
pub fn two_words(text: &[u8]) -> (&[u8], &[u8])
    ensures first { result.0.now ≡ nth_word 0 text.now }
    ensures second { result.1.now ≡ nth_word 1 text.now }
{
    let (first, behind) = split_word(text);
    let (second, _) = split_word(behind);
    (first, second)
}

/// The first three words of a text.
pub fn three_words(text: &[u8]) -> (&[u8], &[u8], &[u8])
    ensures first { result.0.now ≡ nth_word 0 text.now }
    ensures second { result.1.now ≡ nth_word 1 text.now }
    ensures third { result.2.now ≡ nth_word 2 text.now }
{
    let (first, behind) = split_word(text);
    let (second, behind) = split_word(behind);
    let (third, _) = split_word(behind);
    (first, second, third)
}

/// How many bytes stand before a comment.
fn comment_start(text: &[u8]) -> usize
    ensures { result ≡ length (take_while is_before_comment text.now) }
{
    text.iter().take_while(|b| **b != b'#').count()
}

/// The text before a comment.
fn before_comment(text: &[u8]) -> &[u8]
    ensures { result.now ≡ before_comment text.now }
{
    if text.contains(&b'#') {
        &text[..comment_start(text)]
    } else {
        text
    }
}

/// How many bytes stand before the first colon or relation.
fn sign_place(text: &[u8]) -> usize
    ensures { result ≡ length (take_while is_before_sign text.now) }
{
    text.iter().take_while(|b| !is_sign(**b)).count()
}

/// The text from its first colon or relation on.
fn from_sign(text: &[u8]) -> &[u8]
    ensures { result.now ≡ from_sign text.now }
{
    &text[sign_place(text)..]
}

/// How many bytes the colon or relation in front has.
fn sign_len(text: &[u8]) -> usize
    ensures value { result ≡ sign_len text.now }
    ensures within { result ≤ length text.now }
{
    match text {
        [] => 0,
        [first, next, ..] if ((*first == b'<') | (*first == b'>')) & (*next == b'=') => 2,
        _ => 1,
    }
}

/// The first colon or relation before a comment.
pub fn sign_of(text: &[u8]) -> &[u8]
    ensures { result.now ≡ sign_of text.now }
{
    let text = from_sign(before_comment(text));
    &text[..sign_len(text)]
}

/// What stands between the first colon or relation and a comment, without the blanks around it.
pub fn part_of(text: &[u8]) -> &[u8]
    ensures { result.now ≡ part_of text.now }
{
    let text = from_sign(before_comment(text));
    before_blanks(past_blanks(&text[sign_len(text)..]))
}
