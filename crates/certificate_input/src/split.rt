//! Where lines end.

ghost use Rattle.std.specs.Prelude.{◌≡◌, ◌++◌, ◌∷◌, IfSome, IfNone};
ghost use Rattle.certificate_text.specs.Bytes.{HasNoFeed};

use memchr::memchr;

/// The first line, without its line feed, and the bytes behind that.
pub fn split_line(bytes: &[u8]) -> Option<(&[u8], &[u8])>
    ensures some { IfSome result (λ x. HasNoFeed x.0.now × (bytes.now ≡ x.0.now ++ 10 ∷ x.1.now)) }
    ensures none { IfNone result (HasNoFeed bytes.now) }
{
    let end = memchr(b'\n', bytes)?;
    Some((&bytes[..end], &bytes[end + 1..]))
}
