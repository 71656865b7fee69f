//! The leaves of a formula.

ghost use Rattle.pota_base.specs.declared.fault.Refused.TheVariants.{Fault};
ghost use Rattle.rctl_grammar.specs.FirstFault.{number_at};
ghost use Rattle.rctl_grammar.specs.Grammar.{Spelled, Channel, Variable, in_range, number_of};
ghost use Rattle.rctl_grammar.specs.Grammar.{placed_name};
ghost use Rattle.rctl_grammar.specs.Machine.{word_in, compare_in, number_in, ChannelWord, compared};
ghost use Rattle.rctl_grammar.specs.Machine.{process_dot, process_at, channel_word, of_transit};
ghost use Rattle.rctl_grammar.specs.Machine.{of_emptiness, transit_compared, subtracting};
ghost use Rattle.rctl_grammar.specs.Machine.{difference_compared};
ghost use Rattle.rctl_grammar.specs.declared.tree.Compare.{Compare as Compared};
ghost use Rattle.rctl_grammar.specs.declared.tree.Side.TheVariants.{Number};
ghost use Rattle.rctl_parse.specs.Reading.{Faults};
ghost use Rattle.rctl_parse.specs.inside.Reading.{Misses, found, place_in, comparison_in};
ghost use Rattle.rctl_parse.specs.inside.Reading.{BoundRead, CountRead, SideRead, ChannelRead};
ghost use Rattle.rctl_parse.specs.inside.Reading.{LeafRead, LeafFault};
ghost use Rattle.run_model.specs.Run.{Name as Bytes};
ghost use Rattle.std.specs.Prelude.{◌≡◌, ℕ, false, true, IfOk, MatchOption, MatchResult};

use crate::around::{Stop, fault, refused_here};
use crate::symbol::{Symbol, after, wanted};
use pota_base::NoMemory;
use pota_names::Name;
use rctl_grammar::{Atom, Compare, End, FormulaCode, Kind, Place, Side, Token};
use std::alloc::Global;

/// The name at this place, of its own.
pub fn place_of(alloc: Global, name: &Name, at: u32) -> Result<Place, NoMemory>
    ensures { IfOk result (λ place. place ≡ record { name = name.now; at = at }) }
{
    Ok(Place {
        name: name.copy(alloc)?,
        at,
    })
}

/// The name at the front, and the tokens behind it.
pub fn place(alloc: Global, tokens: &[Token], end: End) -> Result<(Place, &[Token]), Stop>
    ensures { MatchResult result (λ x. found place_in tokens.now ≡ Some (x.0, x.1.now))
        (λ stop. Misses word_in tokens.now end stop) }
{
    match tokens {
        [
            Token {
                kind: Kind::Word(_, name),
                at,
            },
            rest @ ..,
        ] => Ok((place_of(alloc, name, *at)?, rest)),
        _ => Err(refused_here(tokens, end)),
    }
}

fn compare(tokens: &[Token], end: End) -> Result<(Compare, &[Token]), Stop>
    ensures { MatchResult result (λ x. found comparison_in tokens.now ≡ Some (x.0, x.1.now))
        (λ stop. Misses compare_in tokens.now end stop) }
{
    match tokens {
        [
            Token {
                kind: Kind::Compare(compare),
                ..
            },
            rest @ ..,
        ] => Ok((*compare, rest)),
        _ => Err(refused_here(tokens, end)),
    }
}

// The number at the front with its place, and the tokens behind it.
fn number(tokens: &[Token]) -> Option<(Option<i64>, u32, &[Token])>
    ensures { MatchOption result (found number_in tokens.now ≡ None)
        (λ x. found number_in tokens.now ≡ Some ((x.0, x.1), x.2.now)) }
{
    match tokens {
        [
            Token {
                kind: Kind::Number(value),
                at,
            },
            rest @ ..,
        ] => Some((*value, *at, rest)),
        _ => None,
    }
}

fn number_side(value: Option<i64>, at: u32) -> Result<Side, Stop>
    ensures { MatchResult result (λ side. (in_range value ≡ true)
        × (side ≡ Number (number_of value)))
        (λ stop. (in_range value ≡ false) × (stop ≡ Fault (number_at at))) }
{
    match value {
        Some(x) => Ok(Side::Number(x)),
        None => Err(fault(FormulaCode::Number, at)),
    }
}

// The number that messages under way are compared with.
fn count(tokens: &[Token], end: End) -> Result<(u64, &[Token]), Stop>
    ensures { MatchResult result (λ x. CountRead tokens.now x.1.now x.0)
        (λ stop. Faults stop (λ f. (name : Bytes) (at : ℕ) (channel : Channel) (compare : Compare)
        (compare_at : ℕ) → LeafFault (transit_compared name at channel compare compare_at)
        tokens.now end f)) }
{
    let Some((value, at, rest)) = number(tokens) else {
        return Err(refused_here(tokens, end));
    };
    match value {
        Some(value) => match u64::try_from(value) {
            Ok(k) => Ok((k, rest)),
            Err(_) => Err(fault(FormulaCode::Number, at)),
        },
        None => Err(fault(FormulaCode::Number, at)),
    }
}

// The number that a difference is compared with.
fn bound(tokens: &[Token], end: End) -> Result<(i64, &[Token]), Stop>
    ensures { MatchResult result (λ x. BoundRead tokens.now x.1.now x.0)
        (λ stop. Faults stop (λ f. (left : Variable) (minus : ℕ) (right : Variable) (c : Compared)
        (at : ℕ) → LeafFault (difference_compared left minus right c at) tokens.now end f)) }
{
    match number(tokens) {
        Some((Some(k), _, rest)) => Ok((k, rest)),
        Some((None, at, _)) => Err(fault(FormulaCode::Number, at)),
        None => Err(refused_here(tokens, end)),
    }
}

fn side(alloc: Global, tokens: &[Token], end: End) -> Result<(Side, &[Token]), Stop>
    ensures { MatchResult result (λ x. SideRead tokens.now x.1.now end x.0)
        (λ stop. Faults stop (λ f. (left : Variable) (c : Compared) (at : ℕ)
        → LeafFault (compared left c at) tokens.now end f)) }
{
    if let Some((value, at, rest)) = number(tokens) {
        return Ok((number_side(value, at)?, rest));
    }
    let (process, rest) = place(alloc, tokens, end)?;
    let (_, rest) = wanted(rest, end, Symbol::Dot)?;
    let (variable, rest) = place(alloc, rest, end)?;
    Ok((Side::Variable { process, variable }, rest))
}

// A difference, from behind its `-`.
fn difference(
    alloc: Global,
    left_process: Place,
    left: Place,
    tokens: &[Token],
    end: End,
) -> Result<(Atom, &[Token]), Stop>
    ensures { MatchResult result (λ x. (v : Variable) (minus : ℕ)
        → placed_name v.process ≡ left_process → placed_name v.variable ≡ left
        → LeafRead (subtracting v minus) tokens.now x.1.now end x.0 v.process.at)
        (λ stop. Faults stop (λ f. (v : Variable) (minus : ℕ)
        → LeafFault (subtracting v minus) tokens.now end f)) }
{
    let (right_process, rest) = place(alloc, tokens, end)?;
    let (_, rest) = wanted(rest, end, Symbol::Dot)?;
    let (right, rest) = place(alloc, rest, end)?;
    let (compare, rest) = compare(rest, end)?;
    let (k, rest) = bound(rest, end)?;
    Ok((
        Atom::Difference {
            left_process,
            left,
            right_process,
            right,
            compare,
            k,
        },
        rest,
    ))
}

/// A comparison of a variable or of a difference, from behind its first dot.
pub fn comparison(
    alloc: Global,
    process: Place,
    tokens: &[Token],
    end: End,
) -> Result<(Atom, &[Token]), Stop>
    ensures { MatchResult result (λ x. (p : Spelled) (dot : ℕ) → placed_name p ≡ process
        → LeafRead (process_dot p dot) tokens.now x.1.now end x.0 p.at)
        (λ stop. Faults stop (λ f. (p : Spelled) (dot : ℕ)
        → LeafFault (process_dot p dot) tokens.now end f)) }
{
    let (variable, rest) = place(alloc, tokens, end)?;
    if let Some((_, behind)) = after(rest, Symbol::Minus) {
        return difference(alloc, process, variable, behind, end);
    }
    let (compare, rest) = compare(rest, end)?;
    let (side, rest) = side(alloc, rest, end)?;
    Ok((
        Atom::Local {
            process,
            variable,
            compare,
            side,
        },
        rest,
    ))
}

/// A watch, from behind its `@`.
pub fn watch(
    alloc: Global,
    process: Place,
    tokens: &[Token],
    end: End,
) -> Result<(Atom, &[Token]), Stop>
    ensures { MatchResult result (λ x. (p : Spelled) (at : ℕ) → placed_name p ≡ process
        → LeafRead (process_at p at) tokens.now x.1.now end x.0 p.at)
        (λ stop. Faults stop (λ f. (p : Spelled) (at : ℕ)
        → LeafFault (process_at p at) tokens.now end f)) }
{
    let (watch, rest) = place(alloc, tokens, end)?;
    Ok((Atom::Watch { process, watch }, rest))
}

// The sender and the receiver, between round brackets.
fn channel(alloc: Global, tokens: &[Token], end: End) -> Result<(Place, Place, &[Token]), Stop>
    ensures { MatchResult result (λ x. ChannelRead tokens.now x.2.now end x.0 x.1)
        (λ stop. Faults stop (λ f. (w : ChannelWord) (name : Bytes) (at : ℕ)
        → LeafFault (channel_word w name at) tokens.now end f)) }
{
    let (_, rest) = wanted(tokens, end, Symbol::OpenRound)?;
    let (sender, rest) = place(alloc, rest, end)?;
    let (_, rest) = wanted(rest, end, Symbol::Comma)?;
    let (receiver, rest) = place(alloc, rest, end)?;
    let (_, rest) = wanted(rest, end, Symbol::CloseRound)?;
    Ok((sender, receiver, rest))
}

/// A count of messages under way, from behind its word.
pub fn transit(alloc: Global, tokens: &[Token], end: End) -> Result<(Atom, &[Token]), Stop>
    ensures { MatchResult result (λ x. (name : Bytes) (at : ℕ)
        → LeafRead (channel_word of_transit name at) tokens.now x.1.now end x.0 at)
        (λ stop. Faults stop (λ f. (name : Bytes) (at : ℕ)
        → LeafFault (channel_word of_transit name at) tokens.now end f)) }
{
    let (sender, receiver, rest) = channel(alloc, tokens, end)?;
    let (compare, rest) = compare(rest, end)?;
    let (k, rest) = count(rest, end)?;
    Ok((
        Atom::InTransit {
            sender,
            receiver,
            compare,
            k,
        },
        rest,
    ))
}

/// An empty channel, from behind its word.
pub fn emptiness(alloc: Global, tokens: &[Token], end: End) -> Result<(Atom, &[Token]), Stop>
    ensures { MatchResult result (λ x. (name : Bytes) (at : ℕ)
        → LeafRead (channel_word of_emptiness name at) tokens.now x.1.now end x.0 at)
        (λ stop. Faults stop (λ f. (name : Bytes) (at : ℕ)
        → LeafFault (channel_word of_emptiness name at) tokens.now end f)) }
{
    let (sender, receiver, rest) = channel(alloc, tokens, end)?;
    Ok((Atom::Empty { sender, receiver }, rest))
}
