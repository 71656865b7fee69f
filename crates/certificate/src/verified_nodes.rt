//! The nodes that the lines of a certificate speak of.
ghost use Rattle.std.specs.Prelude.{◌≡◌};

use crate::taking::take_line;
use certificate_lines::Line;
use certificate_nodes::Nodes;
use certificate_text::Said;
use pota_base::{NoMemory, Steps};
use std::alloc::Global;
use std::marker::Model;
use std::sync::ledger::Ledger;
use verifier::Takes;

/// Nodes that take the lines of a certificate. Contracts see the nodes themselves.
#[derive(Debug, Drop)]
pub struct CertificateNodes {
    nodes: Nodes,
}

impl Model for CertificateNodes {
    ghost use Rattle.certificate_nodes.specs.Nodes.{NodesView};

    ghost Value = { NodesView };

    ghost view = { λ n. n.nodes };
}

impl CertificateNodes {
    /// These nodes, of which lines are said from now on.
    pub fn new(nodes: Nodes) -> CertificateNodes
        ensures { result ≡ nodes }
    {
        CertificateNodes { nodes }
    }
}

impl Said for CertificateNodes {
    ghost use Rattle.certificate.specs.Following.{Follows};

    ghost follows = { Follows };
}

impl Takes for CertificateNodes {
    ghost use Rattle.certificate.specs.Following.{looks_for};

    ghost looks = { looks_for };

    fn take_line<L: Ledger>(
        &mut self,
        alloc: Global,
        line: Line,
        steps: &mut Steps<L>,
    ) -> Result<bool, NoMemory> {
        take_line(&mut self.nodes, alloc, line, steps)
    }
}
