//! The text of a tree, with the brackets that it needs.
ghost use Rattle.std.specs.Prelude.{◌≡◌, ◌++◌, OnOk, codes, map};
ghost use Rattle.rctl_grammar.specs.Shape.{shape_of};
ghost use Rattle.rctl_print.specs.Canonical.{canonical, next_words, operator_word, until_word};
ghost use Rattle.rctl_print.specs.inside.Members.{joined_of, member};

use crate::atom::{put_atom, put_name};
use crate::joint::Joint;
use pota_base::{Bytes, NoMemory};
use rctl_grammar::{Operator, Place, Tree};

fn operator_word(operator: Operator) -> &'static [u8]
    ensures { result.now ≡ operator_word operator }
{
    match operator {
        Operator::Ef => b"EF",
        Operator::Ag => b"AG",
        Operator::Eg => b"EG",
        Operator::Ex(_) => b"EX ",
        Operator::Af => b"AF",
        Operator::Ax => b"AX",
    }
}

// Appends the operator's word and a blank.
fn put_operator(out: &mut Bytes, operator: Operator) -> Result<(), NoMemory>
    ensures { OnOk result (out.new ≡ out.old ++ operator_word operator ++ codes " ") }
{
    out.extend_from_slice(operator_word(operator))?;
    out.extend_from_slice(b" ")
}

// Appends `EX P `.
fn put_next(out: &mut Bytes, process: &Place) -> Result<(), NoMemory>
    ensures { OnOk result (out.new ≡ out.old ++ next_words process.now.name) }
{
    out.extend_from_slice(b"EX ")?;
    put_name(out, &process.name)?;
    out.extend_from_slice(b" ")
}

fn until_word(all: bool) -> &'static [u8]
    ensures { result.now ≡ until_word all }
{
    if all { b"A" } else { b"E" }
}

/// Appends the text of a member, or of the operand of `!` or of an operator, which stands in
/// brackets as a member of an And.
#[cycle(tree)]
fn put_member(out: &mut Bytes, tree: &Tree, joint: Joint) -> Result<(), NoMemory>
    ensures { OnOk result (out.new ≡ out.old ++ member joint (shape_of tree.now)) }
{
    if !joint.needs_brackets(tree) {
        return put_tree(out, tree);
    }
    out.extend_from_slice(b"(")?;
    put_tree(out, tree)?;
    out.extend_from_slice(b")")
}

/// Appends the text of an And or an Or of these members: two or more with the joint between each
/// two, one as it is.
#[cycle(tree)]
fn put_joined(out: &mut Bytes, members: &[Tree], joint: Joint) -> Result<(), NoMemory>
    ensures { OnOk result (out.new ≡ out.old
        ++ canonical (joined_of joint (map shape_of members.now))) }
{
    let Some((first, rest)) = members.split_first() else {
        return out.extend_from_slice(joint.of_none());
    };
    if rest.is_empty() {
        return put_tree(out, first);
    }
    put_member(out, first, joint)?;
    'members: for member in rest {
        out.extend_from_slice(joint.text())?;
        put_member(out, member, joint)?;
    }
    Ok(())
}

/// Appends the text of the tree.
#[cycle(tree)]
#[tactic(auto, using(crate::proofs::Rules::shapes))]
pub fn put_tree(out: &mut Bytes, tree: &Tree) -> Result<(), NoMemory>
    ensures { OnOk result (out.new ≡ out.old ++ canonical (shape_of tree.now)) }
{
    match tree {
        Tree::Leaf { atom, .. } => put_atom(out, atom),
        Tree::Not { inner, .. } => {
            out.extend_from_slice(b"!")?;
            put_member(out, inner.get(), Joint::Amp)
        }
        Tree::And { members, .. } => put_joined(out, members.as_slice(), Joint::Amp),
        Tree::Or { members, .. } => put_joined(out, members.as_slice(), Joint::Bar),
        Tree::Temporal {
            operator,
            inner,
            ..
        } => {
            put_operator(out, *operator)?;
            put_member(out, inner.get(), Joint::Amp)
        }
        Tree::Next { process, inner, .. } => {
            put_next(out, process)?;
            put_member(out, inner.get(), Joint::Amp)
        }
        Tree::Until {
            all,
            left,
            right,
            ..
        } => {
            out.extend_from_slice(until_word(*all))?;
            out.extend_from_slice(b"[")?;
            put_tree(out, left.get())?;
            out.extend_from_slice(b" U ")?;
            put_tree(out, right.get())?;
            out.extend_from_slice(b"]")
        }
    }
}
