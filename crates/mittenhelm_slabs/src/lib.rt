#![tactic(auto)]
// The boundary for hosts, slabs of cells: numbers and slices only. mittenhelm_slabs_c exports them to C.
// Kept: C lends each table and each place by itself.
ghost use Rattle.tree.specs.Tree.{tree_of};
ghost use Rattle.tree.specs.Down.{nodes_of};
ghost use Rattle.mittenhelm_slabs.specs.Spans.{span_at, HandsSpan, HandsSlabs, HandsTrustedSlabs};

use refusals::Refusal;
use slabs::Reach;
use tree::{Nodes, Tree};

// Hands slabs over: the first and the last to the two out parameters, or their refusal.
fn hand_span(answer: Result<Reach, Refusal>, first: &mut u32, last: &mut u32) -> u32
    ensures { HandsSpan answer (span_at first.old last.old) result (span_at first.new last.new) }
{
    match answer {
        Ok(reach) => {
            *first = reach.first;
            *last = reach.last;
            0
        }
        Err(refusal) => refusal.number(),
    }
}

pub fn mittenhelm_slabs(
    keys: &[u64],
    distances: &[f32],
    firsts: &[u16],
    leaves: &[u64],
    vertex: u64,
    level: u32,
    exponent: u32,
    first: &mut u32,
    last: &mut u32,
) -> u32
    ensures { HandsSlabs (tree_of keys.now distances.now firsts.now leaves.now) level vertex exponent
        (span_at first.old last.old) result (span_at first.new last.new) }
{
    let tree = Tree {
        nodes: Nodes { keys, firsts },
        distances,
        leaves,
    };
    let answer = slabs::slabs(&tree, vertex, level, exponent);
    hand_span(answer, first, last)
}

pub fn mittenhelm_slabs_trusting(
    keys: &[u64],
    firsts: &[u16],
    vertex: u64,
    level: u32,
    exponent: u32,
    first: &mut u32,
    last: &mut u32,
) -> u32
    ensures { HandsTrustedSlabs (nodes_of keys.now firsts.now) level vertex exponent
        (span_at first.old last.old) result (span_at first.new last.new) }
{
    let nodes = Nodes { keys, firsts };
    let answer = slabs::slabs_trusting(&nodes, vertex, level, exponent);
    hand_span(answer, first, last)
}
