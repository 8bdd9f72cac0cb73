// Numbers as words.
ghost use Rattle.std.specs.Prelude.{◌≡◌, ◌≤◌};
ghost use Rattle.script.specs.Numerals.{numeral, number_of};

// The number that some digits of a base write.
fn numeral_value(base: u32, digits: &[u8]) -> Option<u32>
    requires { (2 ≤ base) × (base ≤ 36) }
    ensures { result ≡ numeral base digits.now }
{
    if digits.is_empty() {
        return None;
    }
    let mut value: u32 = 0;
    for byte in digits {
        let digit = char::from(*byte).to_digit(base)?;
        value = value.checked_mul(base)?.checked_add(digit)?;
    }
    Some(value)
}

// The number that a word is: hexadecimal behind `0x`, else decimal.
#[tactic(auto, using(crate::proofs::Values::hexadecimal))]
pub(crate) fn number_of(word: &[u8]) -> Option<u32>
    ensures { result ≡ number_of word.now }
{
    match word {
        [b'0', b'x', digits @ ..] => numeral_value(16, digits),
        _ => numeral_value(10, word),
    }
}
