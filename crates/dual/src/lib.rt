#![tactic(auto)]
// The dual cells of a finished tree's vertices. From the search for eight nodes in `extract_surface`, in
// src/linear_hashed_marching_cubes.rs of isosurface 0.0.4.
ghost use Rattle.std.specs.Prelude.{◌≡◌, true, ◌^◌, ◌≤◌};
ghost use Rattle.morton.specs.Field.{sub};
ghost use Rattle.morton.specs.Level.{deepest, Cell};
ghost use Rattle.morton.specs.Vertex.{is_inside};
ghost use Rattle.tree.specs.Tree.{the_tree};
ghost use Rattle.tree.specs.Down.{the_nodes};
ghost use Rattle.dual.specs.Dual.{DualSays, EntryFor, RefusedSays, AroundSays, TrustingSays};

use morton::Key;
use refusals::Refusal;
use tree::{Node, Nodes, Tree};

// A dual cell in corner order: entry w is the cell that has the vertex at its corner w; and how many keys were tried for it.
// Kept: the arrays stand beside the refusal and not in the `Ok`, since `DualSays` says of a refused call that each is empty, and the edit
// `dual_refused_with_a_place` holds it.
#[derive(Clone, Copy)]
pub struct Dual {
    pub tried: Result<u32, Refusal>,
    pub keys: [u64; 8],
    pub distances: [f32; 8],
    pub places: [usize; 8],
}

// One entry of a dual cell.
#[derive(Clone, Copy)]
struct Entry {
    key: u64,
    distance: f32,
    place: usize,
    tried: u32,
}

// The entry for a side, from the node over its parent's first child: beside that, if it is the child itself, else the same node. 0, 0 and 0 where that is the root.
fn entry_for(distances: &[f32], side: u64, level: u32, at: u32, first: usize) -> Entry
    requires { (1 ≤ level) × (level ≤ 20) × (at ≤ level) × (first ≤ 2 ^ 62) × Cell level side }
    ensures { EntryFor distances.now level side at first result.key result.distance result.place result.tried × (result.tried ≤ deepest) }
{
    if at == 0 {
        return Entry {
            key: 0,
            distance: 0.0,
            place: 0,
            tried: level,
        };
    }
    if at == level {
        let place = first + (side % 8) as usize;
        return Entry {
            key: side,
            distance: tree::distance_at(distances, place),
            place: place,
            tried: 1,
        };
    }
    Entry {
        key: side >> (3 * (level - at)),
        distance: tree::distance_at(distances, first),
        place: first,
        tried: level - at + 1,
    }
}

// The entries on the eight sides of a vertex that is `middle` at its level, each written anew. Sides that are children of one parent share a way down: it leads
// to the node over the parent's first child, and is kept at the one side of them that is lower on no axis on which the vertex is odd. The first loop goes from
// one such side to the next below. Both loops stand here, since an array that is handed on is copied.
fn around(nodes: &Nodes, distances: &[f32], middle: u64, level: u32) -> Dual
    requires { (1 ≤ level) × (level ≤ 20) × (is_inside level middle ≡ true) }
    ensures { AroundSays (the_nodes nodes.now) distances.now middle result.keys result.distances result.places result.tried }
{
    let from = Key { code: middle };
    let odd = (middle % 8) as usize;
    let even = 7 - odd;
    let mut ways = [Node { level: 0, place: 0 }; 8];
    let mut above: usize = 8;
    // Kept: no `for`, since it goes over the numbers alone that have no bit of `odd`: to go over all and leave the others out took a dual cell 6 percent more.
    while above > 0 {
        let j = (above - 1) & even;
        let side = from.sub(Key { code: j as u64 });
        ways[j] = nodes.go_down(level, 8 * (side.code / 8));
        above = j;
    }
    let mut found = [0u64; 8];
    let mut theirs = [0.0f32; 8];
    let mut places = [0usize; 8];
    let mut tried: u32 = 0;
    for i in 0..8 {
        let way = ways[i & even];
        let side = from.sub(Key { code: i as u64 });
        let e = entry_for(distances, side.code, level, way.level, way.place);
        found[i] = e.key;
        theirs[i] = e.distance;
        places[i] = e.place;
        tried += e.tried;
    }
    Dual {
        tried: Ok(tried),
        keys: found,
        distances: theirs,
        places: places,
    }
}

// A refusal hands back empty arrays.
fn refused(refusal: Refusal) -> Dual
    ensures { RefusedSays refusal result.keys result.distances result.places result.tried }
{
    Dual {
        tried: Err(refusal),
        keys: [0u64; 8],
        distances: [0.0f32; 8],
        places: [0usize; 8],
    }
}

// Kept: nodes and distances, and a vertex and its level, one by one: who wants no distances lends none, and a vertex may be asked for at any level, also at a wrong one.

// The dual cell, for one who knows that the tree is sound: who reads much checks it once. Of other tables, what the same lookups come to. A
// table of one key is the root alone, which has none.
pub fn dual_cell_trusting(nodes: &Nodes, distances: &[f32], vertex: u64, level: u32) -> Dual
    ensures { TrustingSays (the_nodes nodes.now) distances.now level vertex result.keys result.distances result.places result.tried }
{
    let v = Key { code: vertex };
    if !v.is_inner(level) {
        return refused(Refusal::NotAVertex);
    }
    if nodes.keys.len() == 1 {
        return refused(Refusal::NotAVertex);
    }
    around(nodes, distances, vertex >> (63 - level * 3), level)
}

// The dual cell of an inner vertex at a level: entry i is the deepest ancestor of side i.
pub fn dual_cell(tree: &Tree, vertex: u64, level: u32) -> Dual
    ensures { DualSays (the_tree tree.now) level vertex result.keys result.distances result.places result.tried }
{
    if !tree.sound() {
        return refused(Refusal::NotSound);
    }
    dual_cell_trusting(&tree.nodes, tree.distances, vertex, level)
}
