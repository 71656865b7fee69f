//! Numbers as text: decimal, without a sign but `-`, and without leading zeros.
ghost use Rattle.std.specs.Prelude.{◌≡◌, ℕ, ℤ, ◌+◌, ◌-◌, ◌*◌, ◌^◌, ◌<◌, ◌≤◌, ◌++◌, length, drop};
ghost use Rattle.std.specs.Prelude.{FitsSigned, IfSome, IfNone, OnOk, OnErr};
ghost use Rattle.std.specs.Int.{w64};
ghost use Rattle.std.specs.Fmt.{decimal, signed_decimal};
ghost use Rattle.pota_base.specs.Number.{is_digit, is_leading_zero, digits_end, number_at};
ghost use Rattle.pota_base.specs.Number.{minus_at, plus_at, signed_at, seen, whole};

use crate::{Bytes, NoMemory};

fn is_digit(byte: u8) -> bool
    ensures { result ≡ is_digit byte }
{
    byte >= b'0' && byte <= b'9'
}

fn is_leading_zero(value: u64, len: usize) -> bool
    ensures { result ≡ is_leading_zero value len }
{
    value == 0 && len > 0
}

fn digits_end(bytes: &[u8], len: usize, value: u64) -> Option<(u64, &[u8])>
    requires { len ≤ length bytes.now }
    ensures gives { seen result ≡ digits_end value len (drop len bytes.now) }
    ensures same { IfSome result (λ n. n.0 ≡ value) }
{
    if len == 0 {
        None
    } else {
        Some((value, &bytes[len..]))
    }
}

// A number below this has room for one digit more.
const ROOMY: u64 = 1_000_000_000_000_000_000;

// The number `value` with one digit more, where that is at most `most`.
fn next_value(most: u64, value: u64, digit: u8) -> Option<u64>
    requires { 48 ≤ digit }
    ensures none { IfNone result (most < value * 10 + (digit - 48)) }
    ensures some { IfSome result (λ sum. (sum ≡ value * 10 + (digit - 48)) × (sum ≤ most)) }
{
    let units = u64::from(digit - b'0');
    if value < ROOMY {
        let sum = value * 10 + units;
        return if sum > most { None } else { Some(sum) };
    }
    let tens = value.checked_mul(10)?;
    let sum = tens.checked_add(units)?;
    if sum > most {
        return None;
    }
    Some(sum)
}

/// The number of at most `most` at the front, and the bytes after its last digit.
pub fn number_at(most: u64, bytes: &[u8]) -> Option<(u64, &[u8])>
    ensures gives { seen result ≡ number_at most bytes.now }
    ensures bound { IfSome result (λ n. n.0 ≤ most) }
{
    let mut value = 0u64;
    'digits: for i in 0..bytes.len() {
        let digit = bytes[i];
        if !is_digit(digit) {
            return digits_end(bytes, i, value);
        }
        if is_leading_zero(value, i) {
            return None;
        }
        let Some(sum) = next_value(most, value, digit) else {
            return None;
        };
        value = sum;
    }
    digits_end(bytes, bytes.len(), value)
}

// The number after a `-`.
fn minus_at(bytes: &[u8]) -> Option<(i64, &[u8])>
    ensures { seen result ≡ minus_at bytes.now }
{
    let (size, rest) = number_at(1 << 63, bytes)?;
    if size == 0 {
        return None;
    }
    Some((-((size - 1) as i64) - 1, rest))
}

fn plus_at(bytes: &[u8]) -> Option<(i64, &[u8])>
    ensures { seen result ≡ plus_at bytes.now }
{
    let (size, rest) = number_at((1 << 63) - 1, bytes)?;
    Some((size as i64, rest))
}

/// The number of 64 bits with a sign at the front, and the bytes after its last digit.
#[tactic(auto, unfolding(crate::specs::Number::signed_at))]
pub fn signed_at(bytes: &[u8]) -> Option<(i64, &[u8])>
    ensures { seen result ≡ signed_at bytes.now }
{
    match bytes {
        [] => None,
        [b'-', rest @ ..] => minus_at(rest),
        [_, ..] => plus_at(bytes),
    }
}

// What was read, where it is all that there was.
fn alone<T: Copy>(found: Option<(T, &[u8])>) -> Option<T>
    ensures { result ≡ whole (seen found.entry) }
{
    match found {
        Some((value, [])) => Some(value),
        _ => None,
    }
}

/// The number that the text spells, and `None` for any other text.
pub fn read_u64(text: &[u8]) -> Option<u64>
    ensures spelled { IfSome result (λ n. text.now ≡ decimal n) }
    ensures only { (n : ℕ) → n < 2 ^ 64 → text.now ≡ decimal n → result ≡ Some n }
{
    alone(number_at(u64::MAX, text))
}

/// The number that the text spells, with `-` before a negative one, and `None` for any other text.
pub fn read_i64(text: &[u8]) -> Option<i64>
    ensures spelled { IfSome result (λ n. text.now ≡ signed_decimal n) }
    ensures only { (n : ℤ) → FitsSigned w64 n → text.now ≡ signed_decimal n → result ≡ Some n }
{
    alone(signed_at(text))
}

/// Appends the spelling of a number.
pub fn put_u64(out: &mut Bytes, value: u64) -> Result<(), NoMemory>
    ensures ok { OnOk result (out.new ≡ out.old ++ decimal value) }
    ensures err { OnErr result (out.new ≡ out.old) }
{
    let mut buffer = itoa::Buffer::new();
    out.extend_from_slice(buffer.format(value).as_bytes())
}

/// Appends the spelling of a number, with `-` before a negative one.
pub fn put_i64(out: &mut Bytes, value: i64) -> Result<(), NoMemory>
    ensures ok { OnOk result (out.new ≡ out.old ++ signed_decimal value) }
    ensures err { OnErr result (out.new ≡ out.old) }
{
    let mut buffer = itoa::Buffer::new();
    out.extend_from_slice(buffer.format(value).as_bytes())
}
