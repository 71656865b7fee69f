//! The counts of clocks.

ghost use Rattle.std.specs.Prelude.{◌≡◌, ◌-◌, ◌^◌, ◌<◌, ◌≤◌, false, length, drop, IsTrue};
ghost use Rattle.pota_base.specs.Number.{number_at, seen, digits_end, is_leading_zero};
ghost use Rattle.pota_base.specs.Number.{is_digit as is_digit_byte};

use pota_base::number_at;

/// A count below this has room for one digit more.
const ROOMY: u32 = 429_496_729;

fn is_digit(byte: u8) -> bool
    ensures { result ≡ is_digit_byte byte }
{
    byte >= b'0' && byte <= b'9'
}

// Whether one digit more may follow, and makes no number of more than 32 bits.
fn has_room(count: u32, len: usize) -> bool
    ensures { IsTrue result → (is_leading_zero count len ≡ false) × (count < 429496729) }
{
    count < ROOMY && (count > 0 || len == 0)
}

// The count of the first `len` bytes, and the bytes after them.
fn count_end(bytes: &[u8], len: usize, count: u32) -> Option<(u32, &[u8])>
    requires { len ≤ length bytes.now }
    ensures { seen result ≡ digits_end count len (drop len bytes.now) }
{
    if len == 0 {
        None
    } else {
        Some((count, &bytes[len..]))
    }
}

// The same as `count_at`, with a test of the size at each digit.
fn any_count_at(bytes: &[u8]) -> Option<(u32, &[u8])>
    ensures { seen result ≡ number_at (2 ^ 32 - 1) bytes.now }
{
    let (count, rest) = number_at(u64::from(u32::MAX), bytes)?;
    Some((count as u32, rest))
}

/// The number of 32 bits at the front, and the bytes after its last digit.
#[inline(always)]
pub fn count_at(bytes: &[u8]) -> Option<(u32, &[u8])>
    ensures { seen result ≡ number_at (2 ^ 32 - 1) bytes.now }
{
    let mut count = 0_u32;
    'digits: for i in 0..bytes.len() {
        let digit = bytes[i];
        if !is_digit(digit) {
            return count_end(bytes, i, count);
        }
        if !has_room(count, i) {
            return any_count_at(bytes);
        }
        count = count * 10 + u32::from(digit - b'0');
    }
    any_count_at(bytes)
}
