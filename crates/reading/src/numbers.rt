//! Numbers as they are written.
ghost use Rattle.std.specs.Prelude.{◌≡◌, ◌+◌, ◌-◌, ◌*◌, ◌≤◌, ◌&&◌, IfSome, nat_le};
ghost use Rattle.std.specs.Bool.{then_some};
ghost use Rattle.std.specs.Char.{is_ascii_digit};
ghost use Rattle.reading.specs.Numbers.{leading_zero, number_up_to};

/// Whether a text begins with a zero and goes on.
fn has_leading_zero(text: &[u8]) -> bool
    ensures { result ≡ leading_zero text.now }
{
    matches!(text, [b'0', _, ..])
}

/// A number with one more digit behind it; none if that is no digit, or if the number is above the limit then.
fn with_digit(number: u32, byte: u8, limit: u32) -> Option<u32>
    ensures { result ≡ then_some (is_ascii_digit byte && nat_le (10 * number + (byte - 48)) limit) (10 * number + (byte - 48)) }
{
    if !byte.is_ascii_digit() {
        return None;
    }
    let number = 10 * u64::from(number) + u64::from(byte - b'0');
    u32::try_from(number).ok().filter(|number| *number <= limit)
}

/// The number that a text is: decimal digits with no leading zero, and at most the limit.
pub fn number(text: &[u8], limit: u32) -> Option<u32>
    ensures value { result ≡ number_up_to limit text.now }
    ensures bound { IfSome result (λ n. n ≤ limit) }
{
    if text.is_empty() || has_leading_zero(text) {
        return None;
    }
    // By a loop, which ends where a digit is wrong or the number too large: `parse` wants a text that has been gone
    // through whole, and a field may be as long as a book.
    let mut number = 0;
    for byte in text {
        number = with_digit(number, *byte, limit)?;
    }
    Some(number)
}
