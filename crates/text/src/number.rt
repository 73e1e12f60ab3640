// Decimal fields.
ghost use Rattle.std.specs.Prelude.{◌≡◌, ◌≤◌, length};
ghost use Rattle.textrules.specs.Text.{most_digits};
ghost use Rattle.text.specs.Read.{decimal_of, digits_of};

// The digits that a number has room for.
pub const MOST_DIGITS: usize = 9;

// One digit or more, no more than there is room for; a first digit 0 is the only one.
pub(crate) fn number(s: &[u8]) -> Option<usize>
    ensures { result ≡ decimal_of s.now }
{
    if s.is_empty() || s.len() > MOST_DIGITS {
        return None;
    }
    if s.len() > 1 && s[0] == b'0' {
        return None;
    }
    digits_value(s)
}

// The value of no more digits than there is room for.
fn digits_value(s: &[u8]) -> Option<usize>
    requires { length s.now ≤ most_digits }
    ensures { result ≡ digits_of 0 s.now }
{
    let mut value = 0;
    for &digit in s {
        if !digit.is_ascii_digit() {
            return None;
        }
        value = value * 10 + (digit - b'0') as usize;
    }
    Some(value)
}
