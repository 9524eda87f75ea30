// Numbers in decimal digits.
ghost use Rattle.std.specs.Prelude.{◌≡◌};
ghost use Rattle.text.specs.Digits.{one_behind, decimal_value};

// The value with one digit more behind it.
fn behind(value: u32, digit: u8) -> Option<u32>
    ensures { result ≡ one_behind value digit }
{
    match digit {
        b'0'..=b'9' => value.checked_mul(10)?.checked_add(u32::from(digit - b'0')),
        _ => None,
    }
}

// The value of one or more digits, of which the first may be 0; none above 4,294,967,295. The library's `parse` takes a sign too.
pub fn decimal(digits: &[u8]) -> Option<u32>
    ensures { result ≡ decimal_value digits.now }
{
    if digits.is_empty() {
        return None;
    }
    digits
        .iter()
        .try_fold(0, |value, digit| behind(value, *digit))
}
