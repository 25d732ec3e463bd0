// The numbers of a command line.
ghost use Rattle.std.specs.Prelude.{◌≡◌, ◌<◌, MatchOption, true, false};
ghost use Rattle.std.specs.Char.{is_ascii_digit, digit_value};
ghost use Rattle.nl_script.specs.Spellings.{digits_of};

fn digit_of(byte: u8) -> Option<u8>
    ensures { MatchOption result (is_ascii_digit byte ≡ false) (λ d. (is_ascii_digit byte ≡ true) × (d ≡ digit_value byte) × (d < 10)) }
{
    match byte {
        b'0'..=b'9' => Some(byte - b'0'),
        _ => None,
    }
}

/// The value of 1 to 19 decimal digits, where it is below 2^63.
pub fn number_of(word: &[u8]) -> Option<u64>
    ensures { result ≡ digits_of word.now }
{
    if word.is_empty() || word.len() > 19 {
        return None;
    }
    let mut value = 0u64;
    for byte in word {
        let digit = digit_of(*byte)?;
        value = value * 10 + u64::from(digit);
    }
    if value < 1 << 63 { Some(value) } else { None }
}
