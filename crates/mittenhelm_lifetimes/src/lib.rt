#![tactic(auto)]
// The boundary for hosts, lifetimes of leaves: numbers and slices only. mittenhelm_lifetimes_c exports them to C.
// Kept: C lends each table and each place by itself.
ghost use Rattle.tree.specs.Tree.{tree_of};
ghost use Rattle.tree.specs.Down.{nodes_of};
ghost use Rattle.lifetimes.specs.Needed.{reports_of};
ghost use Rattle.mittenhelm_lifetimes.specs.Most.{HandsLifetimes, HandsTrustedLifetimes};

use tree::{Nodes, Tree};

pub fn mittenhelm_lifetimes(
    keys: &[u64],
    distances: &[f32],
    firsts: &[u16],
    leaves: &[u64],
    exponent: u32,
    first: &mut [u32],
    last: &mut [u32],
    needed: &mut [u32],
    greatest: &mut u32,
) -> u32
    ensures { HandsLifetimes (tree_of keys.now distances.now firsts.now leaves.now) exponent
        (reports_of first.old last.old needed.old) (reports_of first.new last.new needed.new)
        greatest.old result greatest.new }
{
    let tree = Tree {
        nodes: Nodes { keys, firsts },
        distances,
        leaves,
    };
    let answer = lifetimes::lifetimes(&tree, exponent, first, last, needed);
    refusals::hand(answer, greatest)
}

pub fn mittenhelm_lifetimes_trusting(
    keys: &[u64],
    firsts: &[u16],
    exponent: u32,
    first: &mut [u32],
    last: &mut [u32],
    needed: &mut [u32],
    greatest: &mut u32,
) -> u32
    ensures { HandsTrustedLifetimes (nodes_of keys.now firsts.now) exponent
        (reports_of first.old last.old needed.old) (reports_of first.new last.new needed.new)
        greatest.old result greatest.new }
{
    let nodes = Nodes { keys, firsts };
    let answer = lifetimes::lifetimes_trusting(&nodes, exponent, first, last, needed);
    refusals::hand(answer, greatest)
}
