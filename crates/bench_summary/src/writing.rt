//! The text of the summary.
ghost use Rattle.std.specs.Prelude.{◌≡◌, ◌+◌, [], ◌∷◌, ◌++◌, IfOk, OnOk, codes};
ghost use Rattle.event_log.specs.LogText.{text_of};
ghost use Rattle.report_lines.specs.Spelling.{formula_line, verdict_line};
ghost use Rattle.run_report.specs.Benches.{number_line, slice_lines, summary_text};

use call_options::Sizes;
use pota_base::{Bytes, NoMemory, put_u64};
use report::{Report, SliceText};
use report_lines::put_slice;
use std::alloc::Global;

// The line of a word and a number.
fn put_number(out: &mut Bytes, word: &[u8], number: u64) -> Result<(), NoMemory>
    ensures { OnOk result (out.new ≡ out.old ++ text_of (number_line word.now number ∷ [])) }
{
    out.extend_from_slice(word)?;
    put_u64(out, number)?;
    out.push(b'\n')
}

// The lines of the sizes. A row is that of an event or that of the bottom.
fn put_sizes(out: &mut Bytes, sizes: Sizes) -> Result<(), NoMemory>
    ensures { OnOk result (out.new ≡ out.old ++ text_of
        (number_line (codes "seed ") sizes.seed ∷ number_line (codes "procs ") sizes.procs
        ∷ number_line (codes "events ") sizes.events
        ∷ number_line (codes "rows ") (sizes.events + 1) ∷ [])) }
{
    put_number(out, b"seed ", sizes.seed)?;
    put_number(out, b"procs ", u64::from(sizes.procs))?;
    put_number(out, b"events ", u64::from(sizes.events))?;
    put_number(out, b"rows ", u64::from(sizes.events) + 1)
}

// The line of the formula.
fn put_formula(out: &mut Bytes, text: &Bytes) -> Result<(), NoMemory>
    ensures { OnOk result (out.new ≡ out.old ++ text_of (formula_line text.now ∷ [])) }
{
    out.extend_from_slice(b"formula ")?;
    out.extend_from_slice(text.as_slice())?;
    out.push(b'\n')
}

// The line of the verdict.
fn put_verdict(out: &mut Bytes, verdict: bool) -> Result<(), NoMemory>
    ensures { OnOk result (out.new ≡ out.old ++ text_of (verdict_line verdict ∷ [])) }
{
    if verdict {
        return out.extend_from_slice(b"verdict true\n");
    }
    out.extend_from_slice(b"verdict false\n")
}

// The bounds of the slice and how many edges it has, where there is one.
fn put_slice_lines(out: &mut Bytes, slice: &Option<SliceText>) -> Result<(), NoMemory>
    ensures { OnOk result (out.new ≡ out.old ++ text_of (slice_lines slice.now)) }
{
    match slice {
        None => Ok(()),
        Some(slice) => {
            put_slice(out, &slice.bounds)?;
            put_number(out, b"edges ", slice.edges.len() as u64)
        }
    }
}

/// The text of the summary of a bench on a log of these sizes, on which this is the report.
pub fn write_summary(alloc: Global, sizes: Sizes, report: &Report) -> Result<Bytes, NoMemory>
    ensures { IfOk result (λ text. text ≡ summary_text sizes report.now) }
{
    let mut out = Bytes::new(alloc);
    out.extend_from_slice(b"pota-bench 1\n")?;
    put_sizes(&mut out, sizes)?;
    put_formula(&mut out, &report.formula)?;
    put_verdict(&mut out, report.verdict)?;
    put_slice_lines(&mut out, &report.slice)?;
    out.extend_from_slice(b"end\n")?;
    Ok(out)
}
