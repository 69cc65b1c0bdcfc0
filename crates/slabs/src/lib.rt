#![tactic(auto)]
// The slabs that a dual cell reaches, from the lowest to the highest of its eight node centres. Ours: the Rust cuts no slabs.
ghost use Rattle.std.specs.Prelude.{◌≡◌, ◌≤◌};
ghost use Rattle.morton.specs.Level.{limit};
ghost use Rattle.tree.specs.Tree.{the_tree};
ghost use Rattle.tree.specs.Down.{the_nodes};
ghost use Rattle.slabs.specs.Heights.{slab_of, slab_at, Reaches, SlabsSays, TrustingSays};

use morton::Key;
use refusals::Refusal;
use tree::{Nodes, Tree};

// The first and the last slab that a cell reaches, from 0 on.
#[derive(Clone, Copy, Debug, PartialEq, Eq, Hash)]
pub struct Reach {
    pub first: u32,
    pub last: u32,
}

// The slab in which a node's centre lies, (2c + 1) / 2^(l+1) high in the cube. With 2^s slabs that is a shift by l + 1 - s, either way.
fn slab_of(key: u64, exponent: u32) -> u32
    requires { exponent ≤ limit }
    ensures { result ≡ slab_of exponent key }
{
    let node = Key { code: key };
    let over = 2 * node.height() + 1;
    let under = node.level() + 1;
    if exponent < under {
        return over >> (under - exponent);
    }
    over << (exponent - under)
}

// The same at any exponent, 0 above the limit, for one who goes over many nodes.
pub fn slab_at(key: u64, exponent: u32) -> u32
    ensures { result ≡ slab_at exponent key }
{
    if exponent > morton::LIMIT {
        return 0;
    }
    slab_of(key, exponent)
}

// From the least to the greatest slab of eight nodes, since rounding down keeps the order of their centres.
fn reach_of(nodes: [u64; 8], exponent: u32) -> Reach
    requires { exponent ≤ limit }
    ensures { Reaches nodes exponent result.first result.last }
{
    let mut first = slab_of(nodes[0], exponent);
    let mut last = first;
    for i in 1..8 {
        let slab = slab_of(nodes[i], exponent);
        first = first.min(slab);
        last = last.max(slab);
    }
    Reach { first, last }
}

// The slabs, for one who knows that the tree is sound: who reads much checks it once. Of other tables, those of the eight keys that
// `dual_cell_trusting` answers. No distance matters, so none is lent.
pub fn slabs_trusting(
    nodes: &Nodes,
    vertex: u64,
    level: u32,
    exponent: u32,
) -> Result<Reach, Refusal>
    ensures { TrustingSays (the_nodes nodes.now) level vertex exponent result }
{
    let cell = dual::dual_cell_trusting(nodes, &[], vertex, level);
    cell.tried?;
    if exponent > morton::LIMIT {
        return Err(Refusal::AboveFifteen);
    }
    Ok(reach_of(cell.keys, exponent))
}

// The first and the last slab that the dual cell of an inner vertex at a level reaches: with exponent s the cube has 2^s slabs along z.
pub fn slabs(tree: &Tree, vertex: u64, level: u32, exponent: u32) -> Result<Reach, Refusal>
    ensures { SlabsSays (the_tree tree.now) level vertex exponent result }
{
    if !tree.sound() {
        return Err(Refusal::NotSound);
    }
    slabs_trusting(&tree.nodes, vertex, level, exponent)
}
