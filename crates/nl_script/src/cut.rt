// Cuts bytes in two at the first separator.
ghost use Rattle.std.specs.Prelude.{◌≡◌, ◌<◌, ◌+◌, [], ◌∷◌, length, IfSome, MatchOption, ◌==◌, position};
ghost use Rattle.nl_script.specs.Words.{parts};

fn position_of(bytes: &[u8], separator: u8) -> Option<usize>
    ensures { result ≡ position (λ b. b == separator) bytes.now }
{
    bytes.iter().position(|b| *b == separator)
}

// The bytes before the first that equals the separator, and those behind it.
pub(crate) fn cut(bytes: &[u8], separator: u8) -> (&[u8], Option<&[u8]>)
    ensures lengths { MatchOption result.1 (length result.0.now ≡ length bytes.now)
        (λ rest. length result.0.now + 1 + length rest.now ≡ length bytes.now) }
    ensures parts { MatchOption result.1 (parts separator bytes.now ≡ result.0.now ∷ [])
        (λ rest. parts separator bytes.now ≡ result.0.now ∷ parts separator rest.now) }
{
    match position_of(bytes, separator) {
        None => (bytes, None),
        Some(end) => (&bytes[..end], Some(&bytes[end + 1..])),
    }
}
