//! What a formula says of the initial cut, in words.
ghost use Rattle.std.specs.Prelude.{◌≡◌, ◌+◌, ◌<◌, ◌^◌, ◌++◌, [], IfOk, OnOk};
ghost use Rattle.view_text.specs.Claims.{is_name_sign, follow_a_name, claim_of_word, claim_of};
ghost use Rattle.view_text.specs.Claims.{phrase, joint, is_within, is_plain, said, depth_behind};
ghost use Rattle.view_text.specs.Claims.{is_bar, is_amp, stand_behind, is_outer_bar, plain_behind};
ghost use Rattle.view_text.specs.Claims.{walked, start, disjunct_claims, is_among, told_new};
ghost use Rattle.view_text.specs.Claims.{told_once, claims};

use pota_base::{Bytes, List, NoMemory};
use rctl_grammar::{Kind, Token, Word};
use std::alloc::Global;

/// What a member of a disjunct says, by the operator that it begins with.
#[derive(Clone, Copy, Debug, PartialEq, Eq)]
pub enum Claim {
    /// `EF`
    Ef,
    /// `AG`
    Ag,
    /// `EG`
    Eg,
    /// `EX`
    Ex,
    /// There is no such operator.
    Plain,
}

/// Where a token stands among the members of the formula.
#[derive(Clone, Copy, Debug, PartialEq, Eq)]
pub enum Stand {
    /// It begins the first member of a disjunct.
    First,
    /// It begins a later member of a disjunct.
    Further,
    /// It begins none.
    Within,
}

/// What is known of the tokens before one.
#[derive(Clone, Copy, Debug, PartialEq, Eq)]
pub struct Walk {
    /// How many brackets are open.
    pub depth: usize,
    pub stand: Stand,
    /// Whether a member of this disjunct had no operator.
    pub plain: bool,
}

fn is_name_sign(kind: &Kind) -> bool
    ensures { result ≡ is_name_sign kind.now }
{
    match kind {
        Kind::Dot | Kind::At => true,
        _ => false,
    }
}

// Whether a process's name stands before the tokens.
fn follow_a_name(tokens: &[Token]) -> bool
    ensures { result ≡ follow_a_name tokens.now }
{
    match tokens {
        [sign, ..] => is_name_sign(&sign.kind),
        [] => false,
    }
}

fn claim_of_word(word: Word) -> Claim
    ensures { result ≡ claim_of_word word }
{
    match word {
        Word::Ef => Claim::Ef,
        Word::Ag => Claim::Ag,
        Word::Eg => Claim::Eg,
        Word::Ex => Claim::Ex,
        _ => Claim::Plain,
    }
}

/// What a member says that begins with this token.
pub fn claim_of(kind: &Kind, rest: &[Token]) -> Claim
    ensures { result ≡ claim_of kind.now rest.now }
{
    match kind {
        Kind::Word(word, _) if !follow_a_name(rest) => claim_of_word(*word),
        _ => Claim::Plain,
    }
}

fn phrase(claim: Claim) -> &'static [u8]
    ensures { result.now ≡ phrase claim }
{
    match claim {
        Claim::Ef => b"some order leads to a cut where the operand of EF holds",
        Claim::Ag => b"the operand of AG holds at each cut of each order",
        Claim::Eg => b"in some order the operand of EG holds at each cut",
        Claim::Ex => b"the operand of EX holds right behind the next event of its process",
        Claim::Plain => b"what stands under no operator holds where nothing has happened yet",
    }
}

// What joins a member with those before it in its disjunct.
fn joint(stand: Stand) -> &'static [u8]
    ensures { result.now ≡ joint stand }
{
    match stand {
        Stand::First | Stand::Within => b"",
        Stand::Further => b", and ",
    }
}

fn is_within(stand: Stand) -> bool
    ensures { result ≡ is_within stand }
{
    matches!(stand, Stand::Within)
}

/// Whether it is what a member says without an operator.
pub fn is_plain(claim: Claim) -> bool
    ensures { result ≡ is_plain claim }
{
    matches!(claim, Claim::Plain)
}

// Appends what is said of a token.
fn put_said(out: &mut Bytes, walk: Walk, claim: Claim) -> Result<(), NoMemory>
    ensures { OnOk result (out.new ≡ out.old ++ said walk claim) }
{
    if is_within(walk.stand) || (is_plain(claim) && walk.plain) {
        return Ok(());
    }
    out.extend_from_slice(joint(walk.stand))?;
    out.extend_from_slice(phrase(claim))
}

/// How many brackets are open behind a token.
pub fn depth_behind(depth: usize, kind: &Kind) -> usize
    requires { depth < 2 ^ 63 }
    ensures { result ≡ depth_behind depth kind.now }
{
    match kind {
        Kind::OpenRound | Kind::OpenSquare => depth + 1,
        Kind::CloseRound | Kind::CloseSquare => depth.saturating_sub(1),
        _ => depth,
    }
}

fn is_bar(kind: &Kind) -> bool
    ensures { result ≡ is_bar kind.now }
{
    matches!(kind, Kind::Bar)
}

fn is_amp(kind: &Kind) -> bool
    ensures { result ≡ is_amp kind.now }
{
    matches!(kind, Kind::Amp)
}

fn stand_behind(depth: usize, kind: &Kind) -> Stand
    ensures { result ≡ stand_behind depth kind.now }
{
    if depth != 0 {
        Stand::Within
    } else if is_bar(kind) {
        Stand::First
    } else if is_amp(kind) {
        Stand::Further
    } else {
        Stand::Within
    }
}

/// Whether the token is a bar behind so many open brackets that is in none.
pub fn is_outer_bar(depth: usize, kind: &Kind) -> bool
    ensures { result ≡ is_outer_bar depth kind.now }
{
    depth == 0 && is_bar(kind)
}

fn plain_behind(walk: Walk, kind: &Kind, claim: Claim) -> bool
    ensures { result ≡ plain_behind walk kind.now claim }
{
    if is_outer_bar(walk.depth, kind) {
        return false;
    }
    walk.plain || (!is_within(walk.stand) && is_plain(claim))
}

/// What is known before the first token.
pub fn start() -> Walk
    ensures { result ≡ start }
{
    Walk {
        depth: 0,
        stand: Stand::First,
        plain: false,
    }
}

/// What is known behind a token.
pub fn walked(walk: Walk, kind: &Kind, rest: &[Token]) -> Walk
    requires { walk.depth < 2 ^ 63 }
    ensures { result ≡ walked walk kind.now rest.now }
{
    Walk {
        depth: depth_behind(walk.depth, kind),
        stand: stand_behind(walk.depth, kind),
        plain: plain_behind(walk, kind, claim_of(kind, rest)),
    }
}

// The claims of each disjunct of the formula of these tokens.
fn disjunct_claims(alloc: Global, tokens: &[Token]) -> Result<List<Bytes>, NoMemory>
    ensures { IfOk result (λ texts. texts ≡ disjunct_claims start [] tokens.now) }
{
    let mut texts = List::new(alloc);
    let mut text = Bytes::new(alloc);
    let mut walk = start();
    for i in 0..tokens.len() {
        let kind = &tokens[i].kind;
        let rest = &tokens[i + 1..];
        if is_outer_bar(walk.depth, kind) {
            texts.push(text)?;
            text = Bytes::new(alloc);
        } else {
            put_said(&mut text, walk, claim_of(kind, rest))?;
        }
        walk = walked(walk, kind, rest);
    }
    texts.push(text)?;
    Ok(texts)
}

fn is_among(text: &[u8], texts: &[Bytes]) -> bool
    ensures { result ≡ is_among text.now texts.now }
{
    texts.iter().any(|other| other.as_slice() == text)
}

// Appends the text unless it is one of the earlier ones.
fn put_new(out: &mut Bytes, earlier: &[Bytes], text: &[u8]) -> Result<(), NoMemory>
    ensures { OnOk result (out.new ≡ out.old ++ told_new earlier.now text.now) }
{
    if is_among(text, earlier) {
        return Ok(());
    }
    match earlier {
        [] => {}
        [_, ..] => out.extend_from_slice(b"; or ")?,
    }
    out.extend_from_slice(text)
}

// Appends the texts, each once.
fn put_once(out: &mut Bytes, texts: &[Bytes]) -> Result<(), NoMemory>
    ensures { OnOk result (out.new ≡ out.old ++ told_once [] texts.now) }
{
    for i in 0..texts.len() {
        put_new(out, &texts[..i], texts[i].as_slice())?;
    }
    Ok(())
}

/// Appends the claims of the formula of these tokens.
pub fn put_claims(out: &mut Bytes, alloc: Global, tokens: &[Token]) -> Result<(), NoMemory>
    ensures { OnOk result (out.new ≡ out.old ++ claims tokens.now) }
{
    let texts = disjunct_claims(alloc, tokens)?;
    put_once(out, texts.as_slice())
}
