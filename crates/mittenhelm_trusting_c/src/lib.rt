#![tactic(auto)]
// The exports of mittenhelm_trusting for C, as include/mittenhelm.h declares them: each says what the function that it calls says.
// Kept: C lends each table and each place by itself.
ghost use Rattle.tree.specs.Down.{nodes_of};
ghost use Rattle.tree.specs.Climb.{trusting_of};
ghost use Rattle.vertices.specs.Listing.{lists_of};
ghost use Rattle.vertices.specs.Cells.{cells_of, CellsSays};
ghost use Rattle.mittenhelm_reading.specs.Reading.{found_at, HandsFound, eight_at};
ghost use Rattle.mittenhelm_trusting.specs.Trusting.{HandsTrustedList, HandsTrustedDual};

#[unsafe(no_mangle)]
pub extern "C" fn mittenhelm_look_up_trusting(
    keys: &[u64],
    distances: &[f32],
    firsts: &[u16],
    key: u64,
    found: &mut u64,
    distance: &mut f32,
    place: &mut usize,
    tried: &mut u32,
) -> u32
    ensures { HandsFound (trusting_of (nodes_of keys.now firsts.now) distances.now key)
        (found_at found.old distance.old place.old tried.old) result
        (found_at found.new distance.new place.new tried.new) }
{
    mittenhelm_trusting::mittenhelm_look_up_trusting(
        keys, distances, firsts, key, found, distance, place, tried,
    )
}

#[unsafe(no_mangle)]
pub extern "C" fn mittenhelm_list_trusting(
    keys: &[u64],
    firsts: &[u16],
    start: usize,
    vertices: &mut [u64],
    levels: &mut [u8],
    count: &mut usize,
) -> u32
    ensures { HandsTrustedList (nodes_of keys.now firsts.now) start
        (lists_of vertices.old levels.old) (lists_of vertices.new levels.new)
        count.old result count.new }
{
    mittenhelm_trusting::mittenhelm_list_trusting(keys, firsts, start, vertices, levels, count)
}

#[unsafe(no_mangle)]
pub extern "C" fn mittenhelm_cells_trusting(
    keys: &[u64],
    firsts: &[u16],
    from: u64,
    vertices: &mut [u64],
    levels: &mut [u8],
    places: &mut [usize],
) -> usize
    ensures { CellsSays (nodes_of keys.now firsts.now) from (cells_of vertices.old levels.old places.old)
        (cells_of vertices.new levels.new places.new) result }
{
    mittenhelm_trusting::mittenhelm_cells_trusting(keys, firsts, from, vertices, levels, places)
}

#[unsafe(no_mangle)]
pub extern "C" fn mittenhelm_dual_cell_trusting(
    keys: &[u64],
    distances: &[f32],
    firsts: &[u16],
    vertex: u64,
    level: u32,
    nodes: &mut [u64; 8],
    values: &mut [f32; 8],
    places: &mut [usize; 8],
    tried: &mut u32,
) -> u32
    ensures { HandsTrustedDual (nodes_of keys.now firsts.now) distances.now level vertex
        (eight_at nodes.old values.old places.old tried.old) result
        (eight_at nodes.new values.new places.new tried.new) }
{
    mittenhelm_trusting::mittenhelm_dual_cell_trusting(
        keys, distances, firsts, vertex, level, nodes, values, places, tried,
    )
}
