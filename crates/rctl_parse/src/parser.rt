//! Formulas, by recursive descent. No call goes deeper than the levels of a formula, since each
//! level that opens is counted.

ghost use Rattle.rctl_grammar.specs.FirstFault.{too_many_at};
ghost use Rattle.rctl_grammar.specs.Grammar.{path_word, spelled, tok};
ghost use Rattle.rctl_grammar.specs.Machine.{no_sign};
ghost use Rattle.rctl_grammar.specs.declared.token.Kind.TheVariants.{OpenRound};
ghost use Rattle.rctl_grammar.specs.declared.token.Token.{Token as First};
ghost use Rattle.rctl_grammar.specs.declared.token.Word.{Word as WordIs};
ghost use Rattle.rctl_grammar.specs.declared.token.Word.TheVariants.{Ex};
ghost use Rattle.rctl_parse.specs.inside.Parts.{sign_of, IsLeafRole, WordRead, WordFault, place_by};
ghost use Rattle.rctl_parse.specs.inside.Parts.{UnaryFault, UnaryRead, PathRead, SteppingRead};
ghost use Rattle.rctl_parse.specs.inside.Parts.{EnclosedRead, EnclosedFault, ConjunctionFault};
ghost use Rattle.rctl_parse.specs.inside.Parts.{ConjunctionRead, FormulaFails, FormulaRead};
ghost use Rattle.rctl_parse.specs.inside.Prefixes.{IsPrefix, prefix_tree};
ghost use Rattle.rctl_parse.specs.Reading.{Faults};
ghost use Rattle.run_model.specs.Run.{Name as Bytes};
ghost use Rattle.std.specs.Prelude.{◌≡◌, ◌∷◌, ◌++◌, [], ◌+◌, ◌<◌, ◌≤◌, length, Bool, IfOk};
ghost use Rattle.std.specs.Prelude.{MatchResult};
ghost use Rattle.pota_base.specs.Limits.{most_nodes};

use crate::around::{Around, Stop, refused_here};
use crate::leaf::{comparison, emptiness, place, place_of, transit, watch};
use crate::role::{LeafRole, Opening, Role, opening_of, role_of};
use crate::symbol::{Symbol, after, wanted};
use pota_base::{List, NoMemory};
use pota_names::Name;
use rctl_grammar::{Atom, Boxed, End, Operator, Place, Token, Tree, Word};
use std::alloc::Global;

/// A part of a formula: its tree, the nodes up to its end, and the tokens behind it.
#[derive(Drop)]
pub struct Part<'a> {
    pub tree: Tree,
    pub nodes: u32,
    pub rest: &'a [Token],
}

/// What stands before a unary inside another.
#[derive(Clone, Copy)]
pub enum Prefix {
    Negation,
    Operator(Operator),
}

impl Prefix {
    /// The tree of the prefix at `at` over `tree`.
    fn over(self, alloc: Global, tree: Tree, at: u32) -> Result<Tree, NoMemory>
        ensures { IfOk result (λ whole. whole ≡ prefix_tree self tree at) }
    {
        let inner = Boxed::new(alloc, tree)?;
        match self {
            Prefix::Negation => Ok(Tree::Not { inner, at }),
            Prefix::Operator(operator) => Ok(Tree::Temporal {
                operator,
                inner,
                at,
            }),
        }
    }
}

// What the leaf says that the word at `at` begins.
fn atom<'a>(
    alloc: Global,
    role: LeafRole<'a>,
    name: &Name,
    at: u32,
    rest: &'a [Token],
    end: End,
) -> Result<(Atom, &'a [Token]), Stop>
    ensures { (w : WordIs) → IsLeafRole role.entry w rest.now
        → MatchResult result (λ x. WordRead (record { word = w; name = name.now; at = at }) rest.now
        x.1.now end x.0) (λ stop. Faults stop
        (λ f. WordFault (record { word = w; name = name.now; at = at }) rest.now end f)) }
{
    match role {
        LeafRole::Compared(behind) => comparison(alloc, place_of(alloc, name, at)?, behind, end),
        LeafRole::Watched(behind) => watch(alloc, place_of(alloc, name, at)?, behind, end),
        LeafRole::Constant(value) => Ok((Atom::Truth(value), rest)),
        LeafRole::Transit => transit(alloc, rest, end),
        LeafRole::Emptiness => emptiness(alloc, rest, end),
        LeafRole::Nothing => Err(refused_here(rest, end)),
    }
}

// The leaf that the word at `at` begins.
fn leaf<'a>(
    alloc: Global,
    role: LeafRole<'a>,
    name: &Name,
    at: u32,
    rest: &'a [Token],
    around: Around,
) -> Result<Part<'a>, Stop>
    ensures { (w : WordIs) → IsLeafRole role.entry w rest.now
        → MatchResult result (λ part. UnaryRead (spelled w name.now at ∷ rest.now) part.rest.now
        around part.nodes part.tree) (λ stop. Faults stop
        (λ f. UnaryFault (spelled w name.now at ∷ rest.now) around f)) }
{
    let behind = around.counted(at)?;
    let (atom, rest) = atom(alloc, role, name, at, rest, around.end)?;
    let tree = Tree::Leaf { atom, at };
    Ok(Part {
        tree,
        nodes: behind.nodes,
        rest,
    })
}

// From behind the `E` or `A` at `at`: what stands around behind the `[`, and the tokens there.
fn path(at: u32, rest: &[Token], around: Around) -> Result<(Around, &[Token]), Stop>
    ensures shorter { IfOk result (λ x. length x.1.now < length rest.now) }
    ensures path { (all : Bool) (name : Bytes) → sign_of rest.now ≡ no_sign
        → MatchResult result (λ x. PathRead all (place_by name at) rest.now x.1.now around x.0)
        (λ stop. Faults stop (λ f. UnaryFault (spelled (path_word all) name at ∷ rest.now) around
        f)) }
{
    let behind = around.counted(at)?;
    let (opened, rest) = wanted(rest, around.end, Symbol::OpenSquare)?;
    Ok((behind.opened(opened)?, rest))
}

// From behind the `EX` at `at`: what stands around behind the process, the process, and the tokens
// there.
fn stepped(
    alloc: Global,
    at: u32,
    rest: &[Token],
    around: Around,
) -> Result<(Around, Place, &[Token]), Stop>
    ensures shorter { IfOk result (λ x. length x.2.now < length rest.now) }
    ensures step { (name : Bytes) → sign_of rest.now ≡ no_sign
        → MatchResult result (λ x. SteppingRead (place_by name at) rest.now x.2.now around x.0 x.1)
        (λ stop. Faults stop (λ f. UnaryFault (spelled Ex name at ∷ rest.now) around f)) }
{
    let inside = around.entered(at)?;
    let (process, rest) = place(alloc, rest, around.end)?;
    Ok((inside, process, rest))
}

#[cycle(parser)]
fn unary<'a>(alloc: Global, tokens: &'a [Token], around: Around) -> Result<Part<'a>, Stop>
    ensures { MatchResult result (λ part. UnaryRead tokens.now part.rest.now around part.nodes
        part.tree) (λ stop. Faults stop (λ f. UnaryFault tokens.now around f)) }
{
    match opening_of(tokens) {
        Opening::Negation(at, rest) => prefixed(alloc, Prefix::Negation, at, rest, around),
        Opening::Group(at, rest) => group(alloc, at, rest, around),
        Opening::Word(word, name, at, rest) => match role_of(word, rest) {
            Role::Operator(operator) => prefixed(
                alloc,
                Prefix::Operator(operator),
                at,
                rest,
                around,
            ),
            Role::Stepping => stepping(alloc, at, rest, around),
            Role::Path(all) => until(alloc, all, at, rest, around),
            Role::Leaf(role) => leaf(alloc, role, name, at, rest, around),
        },
        Opening::Nothing => Err(refused_here(tokens, around.end)),
    }
}

// From behind the `!` or the operator's word at `at`.
#[cycle(parser)]
fn prefixed<'a>(
    alloc: Global,
    prefix: Prefix,
    at: u32,
    rest: &'a [Token],
    around: Around,
) -> Result<Part<'a>, Stop>
    ensures { (first : First) → IsPrefix prefix first at rest.now
        → MatchResult result (λ part. UnaryRead (first ∷ rest.now) part.rest.now around part.nodes
        part.tree) (λ stop. Faults stop (λ f. UnaryFault (first ∷ rest.now) around f)) }
{
    let inside = around.entered(at)?;
    let Part { tree, nodes, rest } = unary(alloc, rest, inside)?;
    let tree = prefix.over(alloc, tree, at)?;
    Ok(Part { tree, nodes, rest })
}

// From behind the `EX` at `at`.
#[cycle(parser)]
fn stepping<'a>(alloc: Global, at: u32, rest: &'a [Token], around: Around) -> Result<Part<'a>, Stop>
    ensures { (name : Bytes) → sign_of rest.now ≡ no_sign
        → MatchResult result (λ part. UnaryRead (spelled Ex name at ∷ rest.now) part.rest.now around
        part.nodes part.tree)
        (λ stop. Faults stop (λ f. UnaryFault (spelled Ex name at ∷ rest.now) around f)) }
{
    let (inside, process, rest) = stepped(alloc, at, rest, around)?;
    let Part { tree, nodes, rest } = unary(alloc, rest, inside)?;
    let inner = Boxed::new(alloc, tree)?;
    let tree = Tree::Next { process, inner, at };
    Ok(Part { tree, nodes, rest })
}

// From behind the `(` at `at`.
#[cycle(parser)]
fn group<'a>(alloc: Global, at: u32, rest: &'a [Token], around: Around) -> Result<Part<'a>, Stop>
    ensures { MatchResult result (λ part. UnaryRead (tok OpenRound at ∷ rest.now) part.rest.now
        around part.nodes part.tree) (λ stop. Faults stop
        (λ f. UnaryFault (tok OpenRound at ∷ rest.now) around f)) }
{
    let inside = around.opened(at)?;
    enclosed(alloc, rest, inside, Symbol::CloseRound)
}

// From behind the `E` or `A` at `at`.
#[cycle(parser)]
fn until<'a>(
    alloc: Global,
    all: bool,
    at: u32,
    rest: &'a [Token],
    around: Around,
) -> Result<Part<'a>, Stop>
    ensures { (name : Bytes) → sign_of rest.now ≡ no_sign
        → MatchResult result (λ part. UnaryRead (spelled (path_word all) name at ∷ rest.now)
        part.rest.now around part.nodes part.tree)
        (λ stop. Faults stop (λ f. UnaryFault (spelled (path_word all) name at ∷ rest.now) around
        f)) }
{
    let (inside, rest) = path(at, rest, around)?;
    let Part { tree, nodes, rest } = enclosed(alloc, rest, inside, Symbol::Until)?;
    let left = Boxed::new(alloc, tree)?;
    let inside = inside.at_nodes(nodes);
    let Part { tree, nodes, rest } = enclosed(alloc, rest, inside, Symbol::CloseSquare)?;
    let right = Boxed::new(alloc, tree)?;
    let tree = Tree::Until {
        all,
        left,
        right,
        at,
    };
    Ok(Part { tree, nodes, rest })
}

// The formula at the front, and the symbol that ends it.
#[cycle(parser)]
fn enclosed<'a>(
    alloc: Global,
    tokens: &'a [Token],
    inside: Around,
    symbol: Symbol,
) -> Result<Part<'a>, Stop>
    ensures { MatchResult result (λ part. EnclosedRead symbol tokens.now part.rest.now inside
        part.nodes part.tree)
        (λ stop. Faults stop (λ f. EnclosedFault symbol tokens.now inside f)) }
{
    let Part { tree, nodes, rest } = formula(alloc, tokens, inside)?;
    match wanted(rest, inside.end, symbol) {
        Ok((_, rest)) => Ok(Part { tree, nodes, rest }),
        Err(stop) => {
            drop(tree);
            Err(stop)
        }
    }
}

// The members with one more behind them.
fn with_member(mut members: List<Tree>, tree: Tree) -> Result<List<Tree>, NoMemory>
    ensures { IfOk result (λ all. all ≡ members ++ tree ∷ []) }
{
    match members.push(tree) {
        Ok(()) => Ok(members),
        Err(full) => {
            drop(members);
            Err(full)
        }
    }
}

// The first member alone, and the nodes up to that of the members, whose place is `at`.
fn begun(alloc: Global, first: Tree, behind: Around, at: u32) -> Result<(List<Tree>, u32), Stop>
    ensures { MatchResult result
        (λ x. (x.0 ≡ first ∷ []) × ((behind.nodes < most_nodes) × (x.1 ≡ behind.nodes + 1)))
        (λ stop. Faults stop (λ f. (most_nodes ≤ behind.nodes) × (f ≡ too_many_at at))) }
{
    match behind.counted(at) {
        Ok(Around { nodes, .. }) => Ok((with_member(List::new(alloc), first)?, nodes)),
        Err(stop) => {
            drop(first);
            Err(stop)
        }
    }
}

#[cycle(parser)]
fn conjunction<'a>(alloc: Global, tokens: &'a [Token], around: Around) -> Result<Part<'a>, Stop>
    ensures { MatchResult result (λ part. ConjunctionRead tokens.now part.rest.now around part.nodes
        part.tree) (λ stop. Faults stop (λ f. ConjunctionFault tokens.now around f)) }
{
    let first = unary(alloc, tokens, around)?;
    let Some((at, mut more)) = after(first.rest, Symbol::Amp) else {
        return Ok(first);
    };
    let behind = around.at_nodes(first.nodes);
    let (mut members, mut nodes) = begun(alloc, first.tree, behind, at)?;
    'members: loop {
        let part = match unary(alloc, more, around.at_nodes(nodes)) {
            Ok(part) => part,
            Err(stop) => {
                drop(members);
                return Err(stop);
            }
        };
        let Part {
            tree,
            nodes: total,
            rest,
        } = part;
        members = with_member(members, tree)?;
        nodes = total;
        match after(rest, Symbol::Amp) {
            Some((_, behind)) => more = behind,
            None => {
                let tree = Tree::And { members, at };
                return Ok(Part { tree, nodes, rest });
            }
        }
    }
}

/// The formula at the front of the tokens.
#[cycle(parser)]
pub fn formula<'a>(alloc: Global, tokens: &'a [Token], around: Around) -> Result<Part<'a>, Stop>
    ensures { MatchResult result (λ part. FormulaRead tokens.now part.rest.now around part.nodes
        part.tree) (λ stop. Faults stop (λ f. FormulaFails tokens.now around f)) }
{
    let first = conjunction(alloc, tokens, around)?;
    let Some((at, mut more)) = after(first.rest, Symbol::Bar) else {
        return Ok(first);
    };
    let behind = around.at_nodes(first.nodes);
    let (mut members, mut nodes) = begun(alloc, first.tree, behind, at)?;
    'members: loop {
        let part = match conjunction(alloc, more, around.at_nodes(nodes)) {
            Ok(part) => part,
            Err(stop) => {
                drop(members);
                return Err(stop);
            }
        };
        let Part {
            tree,
            nodes: total,
            rest,
        } = part;
        members = with_member(members, tree)?;
        nodes = total;
        match after(rest, Symbol::Bar) {
            Some((_, behind)) => more = behind,
            None => {
                let tree = Tree::Or { members, at };
                return Ok(Part { tree, nodes, rest });
            }
        }
    }
}
