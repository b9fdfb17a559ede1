ghost use Rattle.std.specs.Prelude.{◌≡◌, ◌<◌, ◌≤◌, IfSome};
ghost use Rattle.std.specs.Char.{is_ascii_digit};
ghost use Rattle.std.specs.List.{list_all};
ghost use Rattle.word_schema.specs.Numbers.{byte_of, digit_of, is_decimal, number_within};

// The byte that two lower-case hexadecimal digits are.
pub(crate) fn byte_of(digits: &str) -> Option<u8>
    ensures { result ≡ byte_of digits.now }
{
    match digits.as_bytes() {
        [high, low] => Some(16 * digit_of(*high)? + digit_of(*low)?),
        _ => None,
    }
}

fn digit_of(digit: u8) -> Option<u8>
    ensures number { result ≡ digit_of digit }
    ensures within { IfSome result (λ number. number < 16) }
{
    match digit {
        b'0'..=b'9' => Some(digit - b'0'),
        b'a'..=b'f' => Some(digit - b'a' + 10),
        _ => None,
    }
}

// The decimal number that `digits` are, where it's one from `least` to `most`.
pub(crate) fn number_within(least: u64, most: u64, digits: &str) -> Option<u64>
    ensures number { result ≡ number_within least most digits.now }
    ensures within { IfSome result (λ number. (least ≤ number) × (number ≤ most)) }
{
    if !is_decimal(digits.as_bytes()) {
        return None;
    }
    let number = digits.parse::<u64>().ok()?;
    if least <= number && number <= most {
        Some(number)
    } else {
        None
    }
}

// Whether these are decimal digits, of which the first is no zero, except for a zero alone.
fn is_decimal(digits: &[u8]) -> bool
    ensures { result ≡ is_decimal digits.now }
{
    match digits {
        [] => false,
        [digit] => digit.is_ascii_digit(),
        [first, ..] => *first != b'0' && are_digits(digits),
    }
}

fn are_digits(bytes: &[u8]) -> bool
    ensures { result ≡ list_all is_ascii_digit bytes.now }
{
    bytes.iter().all(|byte| byte.is_ascii_digit())
}
