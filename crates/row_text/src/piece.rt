//! Pieces of text, in which `\` and two hexadecimal digits stand for one byte.

ghost use Rattle.std.specs.Prelude.{◌<◌, length, IfSome};

use std::alloc::{AllocError, Global};

// The value of a hexadecimal digit, 0 of another byte.
fn hexadecimal(digit: u8) -> u8
    ensures { result < 16 }
{
    match digit {
        b'0'..=b'9' => digit - b'0',
        b'a'..=b'f' => digit - b'a' + 10,
        _ => 0,
    }
}

// The first byte that a piece stands for, and the piece behind it.
fn first_byte(piece: &[u8]) -> Option<(u8, &[u8])>
    ensures { IfSome result (λ found. length found.1.now < length piece.now) }
{
    match piece {
        [] => None,
        [b'\\', high, low, behind @ ..] => {
            Some((hexadecimal(*high) * 16 + hexadecimal(*low), behind))
        }
        [first, behind @ ..] => Some((*first, behind)),
    }
}

/// Appends the bytes that the piece stands for.
///
/// # Errors
///
/// Where there is no memory.
pub fn put_piece(to: &mut Vec<u8>, piece: &str) -> Result<(), AllocError> {
    let mut rest = piece.as_bytes();
    while let Some((byte, behind)) = first_byte(rest) {
        to.push(byte)?;
        rest = behind;
    }
    Ok(())
}

/// The word that the piece stands for, if it is text.
///
/// # Errors
///
/// Where there is no memory.
pub fn word_of(alloc: Global, piece: &str) -> Result<Option<String>, AllocError> {
    let mut bytes = Vec::new(alloc);
    put_piece(&mut bytes, piece)?;
    Ok(String::from_utf8(bytes).ok())
}

/// Appends them as many times as `count` says, and gives false where that is no number.
///
/// # Errors
///
/// Where there is no memory.
pub fn put_times(to: &mut Vec<u8>, count: &str, piece: &str) -> Result<bool, AllocError> {
    let Ok(count) = count.parse::<u32>() else {
        return Ok(false);
    };
    for _ in 0..count {
        put_piece(to, piece)?;
    }
    Ok(true)
}
