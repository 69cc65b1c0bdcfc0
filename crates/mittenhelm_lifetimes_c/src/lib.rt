#![tactic(auto)]
// The exports of mittenhelm_lifetimes for C, as include/mittenhelm.h declares them: each says what the function that it calls says.
// It is an object of its own, so that the other calls stay as they are.
// Kept: C lends each table and each place by itself.
ghost use Rattle.tree.specs.Tree.{tree_of};
ghost use Rattle.tree.specs.Down.{nodes_of};
ghost use Rattle.lifetimes.specs.Needed.{reports_of};
ghost use Rattle.mittenhelm_lifetimes.specs.Most.{HandsLifetimes, HandsTrustedLifetimes};

#[unsafe(no_mangle)]
pub extern "C" fn mittenhelm_lifetimes(
    keys: &[u64],
    distances: &[f32],
    firsts: &[u16],
    leaves: &[u64],
    exponent: u32,
    first: &mut [u32],
    last: &mut [u32],
    needed: &mut [u32],
    greatest: &mut u32,
) -> u32
    ensures { HandsLifetimes (tree_of keys.now distances.now firsts.now leaves.now) exponent
        (reports_of first.old last.old needed.old) (reports_of first.new last.new needed.new)
        greatest.old result greatest.new }
{
    mittenhelm_lifetimes::mittenhelm_lifetimes(
        keys, distances, firsts, leaves, exponent, first, last, needed, greatest,
    )
}

#[unsafe(no_mangle)]
pub extern "C" fn mittenhelm_lifetimes_trusting(
    keys: &[u64],
    firsts: &[u16],
    exponent: u32,
    first: &mut [u32],
    last: &mut [u32],
    needed: &mut [u32],
    greatest: &mut u32,
) -> u32
    ensures { HandsTrustedLifetimes (nodes_of keys.now firsts.now) exponent
        (reports_of first.old last.old needed.old) (reports_of first.new last.new needed.new)
        greatest.old result greatest.new }
{
    mittenhelm_lifetimes::mittenhelm_lifetimes_trusting(
        keys, firsts, exponent, first, last, needed, greatest,
    )
}
