//! The text of an expression over the states of one process.
ghost use Rattle.part_text.specs.inside.Members.{joint_of, shape_over};
ghost use Rattle.rctl_print.specs.Canonical.{canonical, needs_brackets, truth_word};
ghost use Rattle.rctl_print.specs.inside.Members.{joined_of, member};
ghost use Rattle.std.specs.Prelude.{◌≡◌, ◌++◌, OnOk, map};

use crate::atoms::{put_comparison, put_pair};
use crate::joined::Joined;
use pota_base::{Bytes, NoMemory};
use rctl_class::NamedExpr;

/// Whether brackets stand round the expression where it is a member of what is joined so.
#[cycle(brackets)]
#[tactic(auto, using(crate::proofs::Shapes::expressions))]
pub fn needs_brackets(joined: Joined, process: &[u8], expr: &NamedExpr) -> bool
    ensures { result ≡ needs_brackets (joint_of joined) (shape_over process.now expr.now) }
{
    match expr {
        NamedExpr::And(members) => joined_brackets(
            joined,
            process,
            members.as_slice(),
            Joined::All,
        ),
        NamedExpr::Or(members) => joined_brackets(joined, process, members.as_slice(), Joined::Any),
        NamedExpr::Truth(_) => false,
        NamedExpr::Compare { .. } => false,
        NamedExpr::Watch { .. } => false,
        NamedExpr::Not(_) => false,
    }
}

// The same of an expression that has these members. One alone counts as that one.
#[cycle(brackets)]
fn joined_brackets(joined: Joined, process: &[u8], members: &[NamedExpr], inner: Joined) -> bool
    ensures { result ≡ needs_brackets (joint_of joined)
        (joined_of (joint_of inner) (map (shape_over process.now) members.now)) }
{
    match members {
        [] => false,
        [only] => needs_brackets(joined, process, only),
        _ => joined.encloses(inner),
    }
}

// Appends the text of a member, or of the operand of `!`, which stands in brackets as one of those
// of which all are asked.
#[cycle(expr)]
fn put_member(
    out: &mut Bytes,
    process: &[u8],
    expr: &NamedExpr,
    joined: Joined,
) -> Result<(), NoMemory>
    ensures { OnOk result (out.new ≡ out.old
        ++ member (joint_of joined) (shape_over process.now expr.now)) }
{
    if !needs_brackets(joined, process, expr) {
        return put_expr(out, process, expr);
    }
    out.extend_from_slice(b"(")?;
    put_expr(out, process, expr)?;
    out.extend_from_slice(b")")
}

// Appends the members: two or more with what joins them between each two, one as it is.
#[cycle(expr)]
fn put_joined(
    out: &mut Bytes,
    process: &[u8],
    members: &[NamedExpr],
    joined: Joined,
) -> Result<(), NoMemory>
    ensures { OnOk result (out.new ≡ out.old ++ canonical
        (joined_of (joint_of joined) (map (shape_over process.now) members.now))) }
{
    let Some((first, rest)) = members.split_first() else {
        return out.extend_from_slice(joined.of_none());
    };
    if rest.is_empty() {
        return put_expr(out, process, first);
    }
    put_member(out, process, first, joined)?;
    'members: for member in rest {
        out.extend_from_slice(joined.text())?;
        put_member(out, process, member, joined)?;
    }
    Ok(())
}

// Appends `true` or `false`.
fn put_truth(out: &mut Bytes, value: bool) -> Result<(), NoMemory>
    ensures { OnOk result (out.new ≡ out.old ++ truth_word value) }
{
    out.extend_from_slice(if value { b"true" } else { b"false" })
}

/// Appends the text of the expression over the states of the process.
#[cycle(expr)]
#[tactic(auto, using(crate::proofs::Shapes::expressions))]
pub fn put_expr(out: &mut Bytes, process: &[u8], expr: &NamedExpr) -> Result<(), NoMemory>
    ensures { OnOk result (out.new ≡ out.old ++ canonical (shape_over process.now expr.now)) }
{
    match expr {
        NamedExpr::Truth(value) => put_truth(out, *value),
        NamedExpr::Compare {
            left,
            compare,
            side,
        } => put_comparison(out, process, left, *compare, side),
        NamedExpr::Watch { watch } => put_pair(out, process, b"@", watch),
        NamedExpr::Not(inner) => {
            out.extend_from_slice(b"!")?;
            put_member(out, process, inner.get(), Joined::All)
        }
        NamedExpr::And(members) => put_joined(out, process, members.as_slice(), Joined::All),
        NamedExpr::Or(members) => put_joined(out, process, members.as_slice(), Joined::Any),
    }
}
