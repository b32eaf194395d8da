// Numbers that are written in decimal.
ghost use Rattle.std.specs.Prelude.{◌≡◌, ◌+◌, ◌-◌, ◌*◌, ◌^◌, ◌<◌, ◌&&◌, if◌then◌else◌, Some, None, nat_lt};
ghost use Rattle.line_text.specs.Numerals.{is_digit, numeral};

// The number with one digit more, where that is a digit and the number fits 32 bits.
fn with_digit(n: u32, byte: u8) -> Option<u32>
    ensures { result ≡ (if is_digit byte && nat_lt (n * 10 + (byte - 48)) (2 ^ 32) then Some (n * 10 + (byte - 48)) else None) }
{
    let digit = char::from(byte).to_digit(10)?;
    n.checked_mul(10)?.checked_add(digit)
}

/// The number that the digits write. None where one of them is no digit, there is none at all, or the number does not fit 32
/// bits; no sign or space is passed over, so a number is written in one way but for zeros in front.
pub fn number(digits: &[u8]) -> Option<u32>
    ensures { result ≡ numeral digits.now }
{
    if digits.is_empty() {
        return None;
    }
    digits.iter().try_fold(0, |n, byte| with_digit(n, *byte))
}
