//! How many nodes a tree has, and where it is split into disjuncts.
ghost use Rattle.question_forms.specs.inside.Splits.{capped, split_place};
ghost use Rattle.rctl_class.specs.Nodes.{node_count, node_of, nodes_count, nodes_of};
ghost use Rattle.std.specs.Prelude.{◌≡◌, map};

use rctl_grammar::Tree;

/// How many nodes there are, as far as 32 bits go.
#[cycle(counting)]
#[tactic(auto, using(rctl_class::proofs::Rules::nodes))]
pub fn node_count(tree: &Tree) -> u32
    ensures { result ≡ capped (node_count (node_of tree.now)) }
{
    match tree {
        Tree::Leaf { .. } => 1,
        Tree::Not { inner, .. } => node_count(inner.get()).saturating_add(1),
        Tree::And { members, .. } => nodes_count(members.as_slice()).saturating_add(1),
        Tree::Or { members, .. } => nodes_count(members.as_slice()).saturating_add(1),
        Tree::Temporal { inner, .. } => node_count(inner.get()).saturating_add(1),
        Tree::Next { inner, .. } => node_count(inner.get()).saturating_add(1),
        Tree::Until { left, right, .. } => {
            let both = node_count(left.get()).saturating_add(node_count(right.get()));
            both.saturating_add(1)
        }
    }
}

/// Those of members.
#[cycle(counting)]
fn nodes_count(members: &[Tree]) -> u32
    ensures { result ≡ capped (nodes_count (nodes_of (map node_of members.now))) }
{
    let mut count: u32 = 0;
    'members: for member in members {
        count = count.saturating_add(node_count(member));
    }
    count
}

/// The `|`, or the `&` under a negation, at which a formula of several disjuncts is split.
#[tactic(auto, using(rctl_class::proofs::Rules::nodes))]
pub fn split_place(tree: &Tree) -> u32
    ensures { result ≡ split_place (node_of tree.now) }
{
    match tree {
        Tree::Not { inner, .. } => split_place(inner.get()),
        Tree::And { at, .. } => *at,
        Tree::Or { at, .. } => *at,
        Tree::Leaf { .. } => 0,
        Tree::Temporal { .. } => 0,
        Tree::Next { .. } => 0,
        Tree::Until { .. } => 0,
    }
}
