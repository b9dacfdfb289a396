//! Numbers of a script text.
ghost use Rattle.std.specs.Prelude.{◌≡◌};
ghost use Rattle.mk_script.specs.Operands.{number_of_word, value_of_digits};

/// The number that the word is, decimal.
pub fn parse_number(word: &[u8]) -> Option<u64>
    ensures { result ≡ number_of_word word.now }
{
    match word {
        [] | [b'0', _, ..] => None,
        _ => from_digits(word),
    }
}

fn from_digits(digits: &[u8]) -> Option<u64>
    ensures { result ≡ value_of_digits digits.now }
{
    let mut value: u64 = 0;
    for byte in digits {
        if !byte.is_ascii_digit() {
            return None;
        }
        let digit = u64::from(*byte - b'0');
        value = value.checked_mul(10)?.checked_add(digit)?;
    }
    Some(value)
}
