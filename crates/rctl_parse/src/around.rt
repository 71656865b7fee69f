//! What stands around a place of the text, and the limits there.

ghost use Rattle.pota_base.specs.declared.fault.Refused.TheVariants.{Fault};
ghost use Rattle.rctl_grammar.specs.FirstFault.{either, level_opens, node_stands, too_deep_at};
ghost use Rattle.rctl_grammar.specs.FirstFault.{too_many_at};
ghost use Rattle.rctl_parse.specs.inside.Limits.{Opened, Entered};
ghost use Rattle.rctl_parse.specs.Reading.{Faults};
ghost use Rattle.rctl_parse.specs.inside.Reading.{cut_short, here};
ghost use Rattle.std.specs.Prelude.{◌≡◌, Some, ◌+◌, ◌<◌, ◌≤◌, MatchResult};
ghost use Rattle.pota_base.specs.Limits.{deepest, most_nodes};

use pota_base::{DEEPEST, MOST_NODES, Refused};
use rctl_grammar::{End, FormulaCode, FormulaFault, Token};

/// Why no formula was read.
pub type Stop = Refused<FormulaFault>;

/// What stands around a part of a formula: the end of the tokens, the levels open there, the nodes
/// whose places stand before it.
#[derive(Clone, Copy)]
pub struct Around {
    pub end: End,
    pub level: u32,
    pub nodes: u32,
}

/// The fault of this code at this place.
pub fn fault(code: FormulaCode, place: u32) -> Stop
    ensures { result ≡ Fault (record { code = code; place = place }) }
{
    Refused::Fault(FormulaFault { code, place })
}

impl Around {
    /// The same behind so many nodes.
    pub fn at_nodes(self, nodes: u32) -> Around
        ensures { result ≡ record self { nodes = nodes } }
    {
        Around { nodes, ..self }
    }

    /// Inside the level that the token at `at` opens. `Fault` where it is too deep.
    pub fn opened(self, at: u32) -> Result<Around, Stop>
        ensures { MatchResult result (λ inside. Opened self inside)
            (λ stop. (deepest ≤ self.level) × (stop ≡ Fault (too_deep_at at))) }
    {
        if self.level >= DEEPEST {
            return Err(fault(FormulaCode::TooDeep, at));
        }
        Ok(Around {
            level: self.level + 1,
            ..self
        })
    }

    /// Behind the node whose place is `at`. `Fault` where there are too many.
    pub fn counted(self, at: u32) -> Result<Around, Stop>
        ensures { MatchResult result (λ behind. (self.nodes < most_nodes)
            × (behind ≡ record self { nodes = self.nodes + 1 }))
            (λ stop. (most_nodes ≤ self.nodes) × (stop ≡ Fault (too_many_at at))) }
    {
        if self.nodes >= MOST_NODES {
            return Err(fault(FormulaCode::TooManyNodes, at));
        }
        Ok(Around {
            nodes: self.nodes + 1,
            ..self
        })
    }

    /// Inside the level that the token at `at` opens, and behind the node whose place it is.
    pub fn entered(self, at: u32) -> Result<Around, Stop>
        ensures { MatchResult result (λ inside. Entered self inside)
            (λ stop. Faults stop (λ f. either (level_opens self.level at)
            (node_stands self.nodes at) ≡ Some f)) }
    {
        self.opened(at)?.counted(at)
    }
}

fn cut_short(end: End) -> Stop
    ensures { result ≡ Fault (cut_short end) }
{
    match end {
        End::Ends(at) => fault(FormulaCode::Syntax, at),
        End::BadToken(at) => fault(FormulaCode::Token, at),
    }
}

/// The fault where no formula goes on with the first token, or ends before it.
pub fn refused_here(tokens: &[Token], end: End) -> Stop
    ensures { result ≡ Fault (here tokens.now end) }
{
    match tokens {
        [] => cut_short(end),
        [first, ..] => fault(FormulaCode::Syntax, first.at),
    }
}
