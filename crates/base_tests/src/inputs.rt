ghost use Rattle.std.specs.Prelude.{◌<◌};

use input_reading::{End, Intake, Kept, Turn, read_all};
use pota_base::{MemSource, NoMemory, Source};
use std::alloc::Global;
use std::test::Fail;

// It is done at so many bytes more.
#[derive(Drop)]
struct Few {
    left: usize,
}

impl Intake for Few {
    ghost open_ = { λ f bytes. 0 < f.left };

    ghost done = { λ f bytes. Unit {0} };

    ghost room = { λ f. f.left };

    fn take(&mut self, piece: &[u8]) -> Result<Turn, NoMemory> {
        if piece.len() < self.left {
            self.left -= piece.len();
            Ok(Turn::More)
        } else {
            Ok(Turn::Done)
        }
    }
}

/// A text of which two bytes are read at a time, the calls that fail, how its reading ends, and
/// what is kept.
type Case = (&'static [u8], &'static [u64], End, &'static [u8]);

const CASES: [Case; 5] = [
    (b"abcdefg", &[], End::Ended, b"abcdefg"),
    (b"", &[], End::Ended, b""),
    // a failed read ends the reading, and is not tried again
    (b"abcdefg", &[1, 4], End::Failed, b""),
    // the bytes before it are kept
    (b"abcdefg", &[3, 9], End::Failed, b"abcd"),
    // one at the end of the bytes is one too
    (b"abcd", &[3], End::Failed, b"abcd"),
];

// How the reading of the text ends, and whether these bytes are kept.
fn read(
    alloc: Global,
    text: &[u8],
    failing: &[u64],
    wanted: &[u8],
) -> Result<(End, bool), NoMemory> {
    let mut source = MemSource::new(alloc, text, 2, failing)?;
    let mut kept = Kept::new(alloc);
    let end = read_all(alloc, &mut source, &mut kept)?;
    Ok((end, kept.bytes.as_slice() == wanted))
}

#[test]
fn an_input_is_read_to_its_end_or_to_a_failure(rt: HostRuntime) -> Result<(), Fail> {
    for (text, failing, end, wanted) in CASES {
        let (found, is_kept) = read(rt.alloc(), text, failing, wanted)?;
        assert!(rt; found == end);
        assert!(rt; is_kept);
    }
    Ok(())
}

#[test]
fn nothing_is_read_behind_what_matters(rt: HostRuntime) -> Result<(), Fail> {
    let mut source = MemSource::new(rt.alloc(), b"abcdefg", 2, &[])?;
    let mut few = Few { left: 3 };
    let end = read_all(rt.alloc(), &mut source, &mut few)?;
    assert!(rt; end == End::Done);
    let mut into = [0; 2];
    assert!(rt; matches!(source.read(&mut into), Ok(2)));
    assert!(rt; &into == b"ef");
    Ok(())
}
