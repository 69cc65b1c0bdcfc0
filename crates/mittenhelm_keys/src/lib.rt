#![tactic(auto)]
// The boundary for hosts, keys: numbers only. mittenhelm_keys_c exports them to C.
ghost use Rattle.std.specs.Prelude.{◌≡◌, ◌&&◌, nat_le};
ghost use Rattle.morton.specs.Answers.{child_of, vertex_answer, side_answer};
ghost use Rattle.morton.specs.Field.{add, sub};
ghost use Rattle.morton.specs.Level.{deepest, level, is_cell, parent_of};
ghost use Rattle.morton.specs.Split.{splits};
ghost use Rattle.morton.specs.Vertex.{is_inner};
ghost use Rattle.mittenhelm_keys.specs.Keys.{HandsKey, HandsSize, HandsCentre, three};

use morton::Key;
use refusals::{Refusal, hand};

// A key is handed over as a number.
fn hand_key(answer: Result<Key, Refusal>, out: &mut u64) -> u32
    ensures { HandsKey answer out.old result out.new }
{
    hand(answer.map(|key| key.code), out)
}

pub fn mittenhelm_level(key: u64) -> u32
    ensures { result ≡ level key }
{
    Key { code: key }.level()
}

pub fn mittenhelm_is_cell(key: u64) -> bool
    ensures { result ≡ is_cell key }
{
    Key { code: key }.is_cell()
}

pub fn mittenhelm_parent(key: u64) -> u64
    ensures { result ≡ parent_of key }
{
    Key { code: key }.parent().code
}

pub fn mittenhelm_add(a: u64, b: u64) -> u64
    ensures { result ≡ add a b }
{
    Key { code: a }.add(Key { code: b }).code
}

pub fn mittenhelm_sub(a: u64, b: u64) -> u64
    ensures { result ≡ sub a b }
{
    Key { code: a }.sub(Key { code: b }).code
}

pub fn mittenhelm_child(key: u64, which: u32, child: &mut u64) -> u32
    ensures { HandsKey (child_of key which) child.old result child.new }
{
    hand_key(Key { code: key }.child(which), child)
}

pub fn mittenhelm_half_size(key: u64, half: &mut f32) -> u32
    ensures { HandsSize key half.old result half.new }
{
    hand(Key { code: key }.half_size(), half)
}

pub fn mittenhelm_centre(key: u64, x: &mut f32, y: &mut f32, z: &mut f32) -> u32
    ensures { HandsCentre key (three x.old y.old z.old) result (three x.new y.new z.new) }
{
    let answer = Key { code: key }.centre();
    // Kept: a `match`, and not `hand`, since C lends a place for each axis.
    match answer {
        Ok(p) => {
            *x = p.x;
            *y = p.y;
            *z = p.z;
            0
        }
        Err(refusal) => refusal.number(),
    }
}

pub fn mittenhelm_vertex(key: u64, level: u32, corner: u32, vertex: &mut u64) -> u32
    ensures { HandsKey (vertex_answer key level corner) vertex.old result vertex.new }
{
    hand_key(Key { code: key }.vertex(level, corner), vertex)
}

pub fn mittenhelm_is_inner(vertex: u64, level: u32) -> bool
    ensures { result ≡ is_inner level vertex }
{
    Key { code: vertex }.is_inner(level)
}

pub fn mittenhelm_side(vertex: u64, level: u32, which: u32, cell: &mut u64) -> u32
    ensures { HandsKey (side_answer vertex level which) cell.old result cell.new }
{
    hand_key(Key { code: vertex }.side(level, which), cell)
}

pub fn mittenhelm_should_refine(level: u32, bound: u32, distance: f32) -> bool
    ensures { result ≡ (nat_le level deepest && splits level bound distance) }
{
    morton::should_refine(level, bound, distance)
}
