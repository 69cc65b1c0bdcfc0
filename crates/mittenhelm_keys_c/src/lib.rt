#![tactic(auto)]
// The exports of mittenhelm_keys for C, as include/mittenhelm.h declares them: each says what the function that it calls says.
ghost use Rattle.std.specs.Prelude.{◌≡◌, ◌&&◌, nat_le};
ghost use Rattle.morton.specs.Answers.{child_of, vertex_answer, side_answer};
ghost use Rattle.morton.specs.Field.{add, sub};
ghost use Rattle.morton.specs.Level.{deepest, level, is_cell, parent_of};
ghost use Rattle.morton.specs.Split.{splits};
ghost use Rattle.morton.specs.Vertex.{is_inner};
ghost use Rattle.mittenhelm_keys.specs.Keys.{HandsKey, HandsSize, HandsCentre, three};

#[unsafe(no_mangle)]
pub extern "C" fn mittenhelm_level(key: u64) -> u32
    ensures { result ≡ level key }
{
    mittenhelm_keys::mittenhelm_level(key)
}

#[unsafe(no_mangle)]
pub extern "C" fn mittenhelm_is_cell(key: u64) -> bool
    ensures { result ≡ is_cell key }
{
    mittenhelm_keys::mittenhelm_is_cell(key)
}

#[unsafe(no_mangle)]
pub extern "C" fn mittenhelm_parent(key: u64) -> u64
    ensures { result ≡ parent_of key }
{
    mittenhelm_keys::mittenhelm_parent(key)
}

#[unsafe(no_mangle)]
pub extern "C" fn mittenhelm_add(a: u64, b: u64) -> u64
    ensures { result ≡ add a b }
{
    mittenhelm_keys::mittenhelm_add(a, b)
}

#[unsafe(no_mangle)]
pub extern "C" fn mittenhelm_sub(a: u64, b: u64) -> u64
    ensures { result ≡ sub a b }
{
    mittenhelm_keys::mittenhelm_sub(a, b)
}

#[unsafe(no_mangle)]
pub extern "C" fn mittenhelm_child(key: u64, which: u32, child: &mut u64) -> u32
    ensures { HandsKey (child_of key which) child.old result child.new }
{
    mittenhelm_keys::mittenhelm_child(key, which, child)
}

#[unsafe(no_mangle)]
pub extern "C" fn mittenhelm_half_size(key: u64, half: &mut f32) -> u32
    ensures { HandsSize key half.old result half.new }
{
    mittenhelm_keys::mittenhelm_half_size(key, half)
}

#[unsafe(no_mangle)]
pub extern "C" fn mittenhelm_centre(key: u64, x: &mut f32, y: &mut f32, z: &mut f32) -> u32
    ensures { HandsCentre key (three x.old y.old z.old) result (three x.new y.new z.new) }
{
    mittenhelm_keys::mittenhelm_centre(key, x, y, z)
}

#[unsafe(no_mangle)]
pub extern "C" fn mittenhelm_vertex(key: u64, level: u32, corner: u32, vertex: &mut u64) -> u32
    ensures { HandsKey (vertex_answer key level corner) vertex.old result vertex.new }
{
    mittenhelm_keys::mittenhelm_vertex(key, level, corner, vertex)
}

#[unsafe(no_mangle)]
pub extern "C" fn mittenhelm_is_inner(vertex: u64, level: u32) -> bool
    ensures { result ≡ is_inner level vertex }
{
    mittenhelm_keys::mittenhelm_is_inner(vertex, level)
}

#[unsafe(no_mangle)]
pub extern "C" fn mittenhelm_side(vertex: u64, level: u32, which: u32, cell: &mut u64) -> u32
    ensures { HandsKey (side_answer vertex level which) cell.old result cell.new }
{
    mittenhelm_keys::mittenhelm_side(vertex, level, which, cell)
}

#[unsafe(no_mangle)]
pub extern "C" fn mittenhelm_should_refine(level: u32, bound: u32, distance: f32) -> bool
    ensures { result ≡ (nat_le level deepest && splits level bound distance) }
{
    mittenhelm_keys::mittenhelm_should_refine(level, bound, distance)
}
