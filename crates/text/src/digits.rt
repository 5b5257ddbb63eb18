//! Decimal numbers.
ghost use Rattle.std.specs.Prelude.{◌≡◌, ◌<◌, ◌≤◌, min, length, IfSome};
ghost use Rattle.text.specs.Decimal.{value, decimal as numeral, signed as literal};

/// The number that `text` writes in at most `most` digits, without leading zeros. More than nine are never read.
pub fn decimal(text: &[u8], most: usize) -> Option<u32>
    ensures value { result ≡ numeral (min most 9) text.now }
    ensures small { IfSome result (λ n. n < 1000000000) }
{
    match text {
        [] | [b'0', _, ..] => None,
        _ if text.len() > most.min(9) => None,
        _ => digits_value(text),
    }
}

/// The number that `text` writes in at most `most` digits, perhaps after a `-`; `-0` is none.
pub fn signed(text: &[u8], most: usize) -> Option<i32>
    ensures { result ≡ literal (min most 9) text.now }
{
    let [b'-', digits @ ..] = text else {
        let n = decimal(text, most)?;
        return Some(n as i32);
    };
    match decimal(digits, most)? {
        0 => None,
        n => Some(-(n as i32)),
    }
}

/// The number whose digits these are.
fn digits_value(text: &[u8]) -> Option<u32>
    requires { length text.now ≤ 9 }
    ensures value { result ≡ value 0 text.now }
    ensures small { IfSome result (λ n. n < 1000000000) }
{
    let mut n: u32 = 0;
    for b in text {
        if !b.is_ascii_digit() {
            return None;
        }
        n = n * 10 + u32::from(*b - b'0');
    }
    Some(n)
}
