ghost use Rattle.pota_base.specs.Blanks.{IsBlankOf};
ghost use Rattle.std.specs.Prelude.{◌≡◌, ◌⊎◌, ◌+◌, ◌<◌, None, true};
ghost use Rattle.certificate_lines.specs.declared.line.Line.TheVariants as line;

use certificate_input::{Told, read_certificate};
use certificate_lines::Line;
use certificate_text::Said;
use pota_base::{List, MemSource, NoMemory, Source, Steps};
use std::alloc::Global;
use std::marker::Brand;
use std::sync::ledger::{Blank, Ledger};
use std::test::Fail;
use verifier::{Takes, Verifier};

// So many rows are left, which follow from the last to the first, and then a true verdict.
#[derive(Drop)]
struct Rows {
    left: u32,
}

impl Said for Rows {
    ghost follows = { λ v said after.
        ((said ≡ line.Row v.left None) × (after.left + 1 ≡ v.left))
        ⊎ ((said ≡ line.Verdict true) × (v.left ≡ 0)) };
}

impl Takes for Rows {
    ghost looks = { λ v said after. 0 };

    fn take_line<L: Ledger>(
        &mut self,
        _alloc: Global,
        line: Line,
        _steps: &mut Steps<L>,
    ) -> Result<bool, NoMemory> {
        match line {
            Line::Row(row, None) => {
                if row != self.left || row == 0 {
                    return Ok(false);
                }
                self.left -= 1;
                Ok(true)
            }
            Line::Verdict(true) => Ok(self.left == 0),
            _ => Ok(false),
        }
    }
}

// What is told of the bytes that the source has behind the first ones.
fn told_by<L: Ledger>(
    blank: Blank,
    alloc: Global,
    front: &[u8],
    source: &mut MemSource,
) -> Result<Told, NoMemory>
    requires blank { IsBlankOf L.name L.parts blank }
{
    let mut formula = List::new(alloc);
    formula.extend_from_slice(b"formula true")?;
    let verifier = Verifier::new(alloc, formula, Rows { left: 2 });
    let mut steps = Steps::<L>::new(blank);
    read_certificate(alloc, verifier, front, source, &mut steps)
}

// What is told of the bytes, of which the first ones are there and at most `most` come at a time.
fn told_of<L: Ledger>(
    blank: Blank,
    alloc: Global,
    bytes: &[u8],
    first: usize,
    most: usize,
) -> Result<Told, NoMemory>
    requires blank { IsBlankOf L.name L.parts blank }
{
    let (front, rest) = bytes.split_at(first.min(bytes.len()));
    let mut source = MemSource::new(alloc, rest, most.max(1), &[])?;
    told_by::<L>(blank, alloc, front, &mut source)
}

// What is told of the bytes, which come one by one, and the byte that comes next.
fn told_and_next<L: Ledger>(
    blank: Blank,
    alloc: Global,
    bytes: &[u8],
) -> Result<(Told, Option<u8>), NoMemory>
    requires blank { IsBlankOf L.name L.parts blank }
{
    let mut source = MemSource::new(alloc, bytes, 1, &[])?;
    let told = told_by::<L>(blank, alloc, b"", &mut source)?;
    let mut next = [0; 1];
    match source.read(&mut next) {
        Ok(1) => Ok((told, Some(next[0]))),
        _ => Ok((told, None)),
    }
}

/// Bytes, and what is told of them.
const CASES: [(&[u8], Told); 8] = [
    (
        b"pota-cert 1\nformula true\nrow 2\nrow 1\nverdict true\nend\n",
        Told::Accepted(true),
    ),
    // a row is left out
    (
        b"pota-cert 1\nformula true\nrow 2\nverdict true\nend\n",
        Told::Refused(4),
    ),
    // another verdict
    (
        b"pota-cert 1\nformula true\nrow 2\nrow 1\nverdict false\nend\n",
        Told::Refused(5),
    ),
    // no last line
    (
        b"pota-cert 1\nformula true\nrow 2\nrow 1\nverdict true\n",
        Told::Refused(6),
    ),
    // no last line feed
    (
        b"pota-cert 1\nformula true\nrow 2\nrow 1\nverdict true\nend",
        Told::Refused(6),
    ),
    // a byte behind the last line, and a line feed
    (
        b"pota-cert 1\nformula true\nrow 2\nrow 1\nverdict true\nend\nx",
        Told::Refused(7),
    ),
    (
        b"pota-cert 1\nformula true\nrow 2\nrow 1\nverdict true\nend\n\n",
        Told::Refused(7),
    ),
    (b"", Told::Refused(1)),
];

#[test]
fn certificates_come_in_any_pieces(rt: HostRuntime) -> Result<(), Fail> {
    for (bytes, wanted) in &CASES {
        for most in [1, 7, usize::MAX] {
            for first in [0, 5] {
                let told = told_of::<Brand>(Blank::new(1), rt.alloc(), bytes, first, most)?;
                assert!(rt; told == *wanted);
            }
        }
    }
    Ok(())
}

#[test]
fn nothing_is_read_behind_a_refused_line(rt: HostRuntime) -> Result<(), Fail> {
    let bytes = b"pota-cert 1\nfalse\nrow";
    let (told, next) = told_and_next::<Brand>(Blank::new(1), rt.alloc(), bytes)?;
    assert!(rt; told == Told::Refused(2));
    assert!(rt; next == Some(b'r'));
    Ok(())
}
