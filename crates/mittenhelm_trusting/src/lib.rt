#![tactic(auto)]
// The boundary for hosts, reading a tree that was checked before: numbers and slices only. mittenhelm_trusting_c exports them to C.
// Kept: C lends each table and each place by itself.
ghost use Rattle.tree.specs.Down.{nodes_of};
ghost use Rattle.tree.specs.Climb.{trusting_of};
ghost use Rattle.vertices.specs.Listing.{lists_of};
ghost use Rattle.vertices.specs.Cells.{cells_of, CellsSays};
ghost use Rattle.mittenhelm_reading.specs.Reading.{found_at, HandsFound, eight_at};
ghost use Rattle.mittenhelm_trusting.specs.Trusting.{HandsTrustedList, HandsTrustedDual};

use tree::Nodes;

pub fn mittenhelm_look_up_trusting(
    keys: &[u64],
    distances: &[f32],
    firsts: &[u16],
    key: u64,
    found: &mut u64,
    distance: &mut f32,
    place: &mut usize,
    tried: &mut u32,
) -> u32
    ensures { HandsFound (trusting_of (nodes_of keys.now firsts.now) distances.now key)
        (found_at found.old distance.old place.old tried.old) result
        (found_at found.new distance.new place.new tried.new) }
{
    let nodes = Nodes { keys, firsts };
    let answer = nodes.look_up_trusting(distances, key);
    mittenhelm_reading::hand_found(answer, found, distance, place, tried)
}

pub fn mittenhelm_list_trusting(
    keys: &[u64],
    firsts: &[u16],
    start: usize,
    vertices: &mut [u64],
    levels: &mut [u8],
    count: &mut usize,
) -> u32
    ensures { HandsTrustedList (nodes_of keys.now firsts.now) start
        (lists_of vertices.old levels.old) (lists_of vertices.new levels.new)
        count.old result count.new }
{
    let nodes = Nodes { keys, firsts };
    let answer = vertices::list_trusting(&nodes, start, vertices, levels);
    refusals::hand(answer, count)
}

pub fn mittenhelm_cells_trusting(
    keys: &[u64],
    firsts: &[u16],
    from: u64,
    vertices: &mut [u64],
    levels: &mut [u8],
    places: &mut [usize],
) -> usize
    ensures { CellsSays (nodes_of keys.now firsts.now) from (cells_of vertices.old levels.old places.old)
        (cells_of vertices.new levels.new places.new) result }
{
    let nodes = Nodes { keys, firsts };
    vertices::cells_trusting(&nodes, from, vertices, levels, places)
}

pub fn mittenhelm_dual_cell_trusting(
    keys: &[u64],
    distances: &[f32],
    firsts: &[u16],
    vertex: u64,
    level: u32,
    nodes: &mut [u64; 8],
    values: &mut [f32; 8],
    places: &mut [usize; 8],
    tried: &mut u32,
) -> u32
    ensures { HandsTrustedDual (nodes_of keys.now firsts.now) distances.now level vertex
        (eight_at nodes.old values.old places.old tried.old) result
        (eight_at nodes.new values.new places.new tried.new) }
{
    let tables = Nodes { keys, firsts };
    let cell = dual::dual_cell_trusting(&tables, distances, vertex, level);
    mittenhelm_reading::hand_eight(cell, nodes, values, places, tried)
}
