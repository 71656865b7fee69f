//! The alternatives of a formula: what stands between its bars that are in no brackets.
ghost use Rattle.std.specs.Prelude.{◌≡◌, IfOk};
ghost use Rattle.view_text.specs.Alternatives.{between, alternatives, is_first};
ghost use Rattle.view_text.specs.Alternatives.{begin_with_operators, told_alternatives};
ghost use Rattle.view_text.specs.Claims.{start};

use crate::claims::{Stand, claim_of, depth_behind, is_outer_bar, is_plain, start, walked};
use pota_base::{Bytes, List, NoMemory};
use rctl_grammar::Token;
use std::alloc::Global;

// The bytes from this one up to that one, where they are there.
fn between(bytes: &[u8], begin: usize, end: usize) -> &[u8]
    ensures { result.now ≡ between bytes.now begin end }
{
    if begin <= end && end <= bytes.len() {
        return &bytes[begin..end];
    }
    &[]
}

fn copy_of(alloc: Global, text: &[u8]) -> Result<Bytes, NoMemory>
    ensures { IfOk result (λ copy. copy ≡ text.now) }
{
    let mut copy = Bytes::new(alloc);
    copy.extend_from_slice(text)?;
    Ok(copy)
}

// The texts of the alternatives of the formula of these tokens.
fn alternatives(alloc: Global, formula: &[u8], tokens: &[Token]) -> Result<List<Bytes>, NoMemory>
    ensures { IfOk result (λ texts. texts ≡ alternatives formula.now 0 0 tokens.now) }
{
    let mut texts = List::new(alloc);
    let (mut begin, mut depth) = (0usize, 0usize);
    for i in 0..tokens.len() {
        let token = &tokens[i];
        if is_outer_bar(depth, &token.kind) {
            let bar = token.at as usize;
            texts.push(copy_of(alloc, between(formula, begin, bar.saturating_sub(1)))?)?;
            begin = bar + 2;
        } else {
            depth = depth_behind(depth, &token.kind);
        }
    }
    texts.push(copy_of(alloc, between(formula, begin, formula.len()))?)?;
    Ok(texts)
}

fn is_first(stand: Stand) -> bool
    ensures { result ≡ is_first stand }
{
    matches!(stand, Stand::First)
}

// Whether each alternative begins with an operator.
fn begin_with_operators(tokens: &[Token]) -> bool
    ensures { result ≡ begin_with_operators start tokens.now }
{
    let mut walk = start();
    for i in 0..tokens.len() {
        let kind = &tokens[i].kind;
        let rest = &tokens[i + 1..];
        if is_first(walk.stand) && is_plain(claim_of(kind, rest)) {
            return false;
        }
        walk = walked(walk, kind, rest);
    }
    true
}

/// The alternatives of the formula that are told of: where there are several, and each begins with
/// an operator.
pub fn told_alternatives(
    alloc: Global,
    formula: &[u8],
    tokens: &[Token],
) -> Result<List<Bytes>, NoMemory>
    ensures { IfOk result (λ texts. texts ≡ told_alternatives formula.now tokens.now) }
{
    let texts = alternatives(alloc, formula, tokens)?;
    if begin_with_operators(tokens) && texts.len() > 1 {
        return Ok(texts);
    }
    Ok(List::new(alloc))
}
