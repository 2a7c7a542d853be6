// Decimal texts.
ghost use Rattle.std.specs.Prelude.{◌≡◌};
ghost use Rattle.lama_num.specs.Decimals.{decimal_of};

/// The value of a text of one or more ASCII digits, leading zeros allowed.
///
/// `None` where the text is empty, has another byte, or is above `u64::MAX`.
pub fn read_decimal(text: &[u8]) -> Option<u64>
    ensures { result ≡ decimal_of text.now }
{
    if text.is_empty() {
        return None;
    }
    let mut value = 0u64;
    for byte in text {
        if !byte.is_ascii_digit() {
            return None;
        }
        value = value.checked_mul(10)?.checked_add(u64::from(*byte - b'0'))?;
    }
    Some(value)
}
