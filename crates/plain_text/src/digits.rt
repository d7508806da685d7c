//! Digits, and the numbers that they spell.
ghost use Rattle.std.specs.Prelude.{◌≡◌, length, min, take_while};
ghost use Rattle.plain_text.specs.Digits.{is_digit, is_nat, number, next_number};

/// Whether the text is one or more digits.
pub fn is_nat(text: &[u8]) -> bool
    ensures { result ≡ is_nat text.now }
{
    for byte in text {
        if !byte.is_ascii_digit() {
            return false;
        }
    }
    !text.is_empty()
}

/// The number that digits spell; `most` stands for all greater ones.
pub fn number_up_to(digits: &[u8], most: u128) -> u128
    ensures { result ≡ min (number digits.now) most }
{
    let mut number = 0;
    for byte in digits {
        number = next(number, byte.saturating_sub(b'0'), most);
    }
    number
}

/// How many digits stand in front.
pub fn digits_len(text: &[u8]) -> usize
    ensures { result ≡ length (take_while is_digit text.now) }
{
    text.iter().take_while(|b| b.is_ascii_digit()).count()
}

/// The number with one more digit.
fn next(number: u128, digit: u8, most: u128) -> u128
    ensures { result ≡ next_number most number digit }
{
    number
        .saturating_mul(10)
        .saturating_add(digit as u128)
        .min(most)
}
