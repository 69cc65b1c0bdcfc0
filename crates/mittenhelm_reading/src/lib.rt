#![tactic(auto)]
// The boundary for hosts, reading: numbers and slices only. mittenhelm_reading_c exports them to C.
// Kept: C lends each table and each place by itself.
ghost use Rattle.tree.specs.Tree.{tree_of, Sound, Decides};
ghost use Rattle.vertices.specs.Listing.{lists_of};
ghost use Rattle.mittenhelm_reading.specs.Reading.{found_at, HandsFound, HandsLookup, eight_at, HandsEight, HandsDual, HandsList};

use dual::Dual;
use refusals::Refusal;
use tree::{Lookup, Nodes, Tree};

// Hands a lookup over: what it found to the four out parameters, or its refusal.
pub fn hand_found(
    answer: Result<Lookup, Refusal>,
    found: &mut u64,
    distance: &mut f32,
    place: &mut usize,
    tried: &mut u32,
) -> u32
    ensures { HandsFound answer (found_at found.old distance.old place.old tried.old) result
        (found_at found.new distance.new place.new tried.new) }
{
    match answer {
        Ok(
            Lookup::Found {
                key: k,
                distance: d,
                place: p,
                tried: n,
            },
        ) => {
            *found = k;
            *distance = d;
            *place = p;
            *tried = n;
            0
        }
        Ok(Lookup::Nothing { tried: n }) => {
            *found = 0;
            *distance = 0.0;
            *place = 0;
            *tried = n;
            0
        }
        Err(refusal) => refusal.number(),
    }
}

// Hands a dual cell over: its arrays and count to the four out parameters, or its refusal.
pub fn hand_eight(
    cell: Dual,
    nodes: &mut [u64; 8],
    values: &mut [f32; 8],
    places: &mut [usize; 8],
    tried: &mut u32,
) -> u32
    ensures { HandsEight cell.keys cell.distances cell.places cell.tried
        (eight_at nodes.old values.old places.old tried.old) result
        (eight_at nodes.new values.new places.new tried.new) }
{
    let eight = cell.keys;
    let theirs = cell.distances;
    let stand = cell.places;
    match cell.tried {
        Ok(sum) => {
            *nodes = eight;
            *values = theirs;
            *places = stand;
            *tried = sum;
            0
        }
        Err(refusal) => refusal.number(),
    }
}

pub fn mittenhelm_sound(keys: &[u64], distances: &[f32], firsts: &[u16], leaves: &[u64]) -> bool
    ensures { Decides result (Sound (tree_of keys.now distances.now firsts.now leaves.now)) }
{
    let tree = Tree {
        nodes: Nodes { keys, firsts },
        distances,
        leaves,
    };
    tree.sound()
}

pub fn mittenhelm_look_up(
    keys: &[u64],
    distances: &[f32],
    firsts: &[u16],
    leaves: &[u64],
    key: u64,
    found: &mut u64,
    distance: &mut f32,
    place: &mut usize,
    tried: &mut u32,
) -> u32
    ensures { HandsLookup (tree_of keys.now distances.now firsts.now leaves.now) key
        (found_at found.old distance.old place.old tried.old) result
        (found_at found.new distance.new place.new tried.new) }
{
    let tree = Tree {
        nodes: Nodes { keys, firsts },
        distances,
        leaves,
    };
    let answer = tree.look_up(key);
    hand_found(answer, found, distance, place, tried)
}

pub fn mittenhelm_list(
    keys: &[u64],
    distances: &[f32],
    firsts: &[u16],
    leaves: &[u64],
    start: usize,
    vertices: &mut [u64],
    levels: &mut [u8],
    count: &mut usize,
) -> u32
    ensures { HandsList (tree_of keys.now distances.now firsts.now leaves.now) start
        (lists_of vertices.old levels.old) (lists_of vertices.new levels.new)
        count.old result count.new }
{
    let tree = Tree {
        nodes: Nodes { keys, firsts },
        distances,
        leaves,
    };
    let answer = vertices::list(&tree, start, vertices, levels);
    refusals::hand(answer, count)
}

pub fn mittenhelm_dual_cell(
    keys: &[u64],
    distances: &[f32],
    firsts: &[u16],
    leaves: &[u64],
    vertex: u64,
    level: u32,
    nodes: &mut [u64; 8],
    values: &mut [f32; 8],
    places: &mut [usize; 8],
    tried: &mut u32,
) -> u32
    ensures { HandsDual (tree_of keys.now distances.now firsts.now leaves.now) level vertex
        (eight_at nodes.old values.old places.old tried.old) result
        (eight_at nodes.new values.new places.new tried.new) }
{
    let tree = Tree {
        nodes: Nodes { keys, firsts },
        distances,
        leaves,
    };
    let cell = dual::dual_cell(&tree, vertex, level);
    hand_eight(cell, nodes, values, places, tried)
}
