#![tactic(auto)]
// The exports of mittenhelm_reading for C, as include/mittenhelm.h declares them: each says what the function that it calls says.
// Kept: C lends each table and each place by itself.
ghost use Rattle.tree.specs.Tree.{tree_of, Sound, Decides};
ghost use Rattle.vertices.specs.Listing.{lists_of};
ghost use Rattle.mittenhelm_reading.specs.Reading.{found_at, HandsLookup, eight_at, HandsDual, HandsList};

#[unsafe(no_mangle)]
pub extern "C" fn mittenhelm_sound(
    keys: &[u64],
    distances: &[f32],
    firsts: &[u16],
    leaves: &[u64],
) -> bool
    ensures { Decides result (Sound (tree_of keys.now distances.now firsts.now leaves.now)) }
{
    mittenhelm_reading::mittenhelm_sound(keys, distances, firsts, leaves)
}

#[unsafe(no_mangle)]
pub extern "C" fn mittenhelm_look_up(
    keys: &[u64],
    distances: &[f32],
    firsts: &[u16],
    leaves: &[u64],
    key: u64,
    found: &mut u64,
    distance: &mut f32,
    place: &mut usize,
    tried: &mut u32,
) -> u32
    ensures { HandsLookup (tree_of keys.now distances.now firsts.now leaves.now) key
        (found_at found.old distance.old place.old tried.old) result
        (found_at found.new distance.new place.new tried.new) }
{
    mittenhelm_reading::mittenhelm_look_up(
        keys, distances, firsts, leaves, key, found, distance, place, tried,
    )
}

#[unsafe(no_mangle)]
pub extern "C" fn mittenhelm_list(
    keys: &[u64],
    distances: &[f32],
    firsts: &[u16],
    leaves: &[u64],
    start: usize,
    vertices: &mut [u64],
    levels: &mut [u8],
    count: &mut usize,
) -> u32
    ensures { HandsList (tree_of keys.now distances.now firsts.now leaves.now) start
        (lists_of vertices.old levels.old) (lists_of vertices.new levels.new)
        count.old result count.new }
{
    mittenhelm_reading::mittenhelm_list(
        keys, distances, firsts, leaves, start, vertices, levels, count,
    )
}

#[unsafe(no_mangle)]
pub extern "C" fn mittenhelm_dual_cell(
    keys: &[u64],
    distances: &[f32],
    firsts: &[u16],
    leaves: &[u64],
    vertex: u64,
    level: u32,
    nodes: &mut [u64; 8],
    values: &mut [f32; 8],
    places: &mut [usize; 8],
    tried: &mut u32,
) -> u32
    ensures { HandsDual (tree_of keys.now distances.now firsts.now leaves.now) level vertex
        (eight_at nodes.old values.old places.old tried.old) result
        (eight_at nodes.new values.new places.new tried.new) }
{
    mittenhelm_reading::mittenhelm_dual_cell(
        keys, distances, firsts, leaves, vertex, level, nodes, values, places, tried,
    )
}
