#![tactic(auto)]
// The exports of mittenhelm_slabs for C, as include/mittenhelm.h declares them: each says what the function that it calls says.
// It is an object of its own: beside the calls for dual cells, the search that both make would be one function of that object and not part of
// each call, and slower.
// Kept: C lends each table and each place by itself.
ghost use Rattle.tree.specs.Tree.{tree_of};
ghost use Rattle.tree.specs.Down.{nodes_of};
ghost use Rattle.mittenhelm_slabs.specs.Spans.{span_at, HandsSlabs, HandsTrustedSlabs};

#[unsafe(no_mangle)]
pub extern "C" fn mittenhelm_slabs(
    keys: &[u64],
    distances: &[f32],
    firsts: &[u16],
    leaves: &[u64],
    vertex: u64,
    level: u32,
    exponent: u32,
    first: &mut u32,
    last: &mut u32,
) -> u32
    ensures { HandsSlabs (tree_of keys.now distances.now firsts.now leaves.now) level vertex exponent
        (span_at first.old last.old) result (span_at first.new last.new) }
{
    mittenhelm_slabs::mittenhelm_slabs(
        keys, distances, firsts, leaves, vertex, level, exponent, first, last,
    )
}

#[unsafe(no_mangle)]
pub extern "C" fn mittenhelm_slabs_trusting(
    keys: &[u64],
    firsts: &[u16],
    vertex: u64,
    level: u32,
    exponent: u32,
    first: &mut u32,
    last: &mut u32,
) -> u32
    ensures { HandsTrustedSlabs (nodes_of keys.now firsts.now) level vertex exponent
        (span_at first.old last.old) result (span_at first.new last.new) }
{
    mittenhelm_slabs::mittenhelm_slabs_trusting(keys, firsts, vertex, level, exponent, first, last)
}
