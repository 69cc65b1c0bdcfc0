#![tactic(auto)]
// Document 01's examples that are run and not proved, a line for each: what is given, and whether it gives what the document says; then what the
// program `counts` prints for some inputs.
ghost use Rattle.std.specs.Prelude.{◌<◌, ◌≤◌};

use build::{Answer, Tables};
use dual::Dual;
use morton::{Key, Vec3};
use refusals::Refusal;
use slabs::Reach;
use std::io;
use tree::{Lookup, Nodes, Tree};

fn say(rt: &impl Print, example: &[u8], holds: bool) -> io::Result<()> {
    rt.write_all(example)?;
    rt.write_all(if holds { b": yes\n" } else { b": NO\n" })
}

fn centre_is(key: u64, x: f32, y: f32, z: f32) -> bool {
    Key { code: key }.centre() == Ok(Vec3 { x, y, z })
}

fn half_size_is(key: u64, half: f32) -> bool {
    Key { code: key }.half_size() == Ok(half)
}

fn is_split(key: u64, bound: u32, distance: f32) -> bool {
    let level = Key { code: key }.level();
    morton::should_refine(level, bound, distance)
}

// A build in which one key has a distance of its own, and every other the same.
#[derive(Clone, Copy)]
struct Field {
    key: u64,
    there: f32,
    elsewhere: f32,
}

impl Field {
    // 1.0 everywhere.
    fn far() -> Field {
        Field {
            key: 1,
            there: 1.0,
            elsewhere: 1.0,
        }
    }

    fn at(self, key: u64) -> f32 {
        if key == self.key {
            self.there
        } else {
            self.elsewhere
        }
    }
}

// The last answer of a build, and how many distances were given for it.
#[derive(Clone, Copy)]
struct Trial {
    answer: Result<Answer, Refusal>,
    given: u64,
}

impl Trial {
    // A build that has begun over these tables.
    fn begun(bound: u32, tables: &Tables) -> Trial {
        Trial {
            answer: build::start(bound, tables.lengths()),
            given: 0,
        }
    }

    // One distance more where a cell is asked for.
    fn give(self, field: Field, tables: &mut Tables) -> Trial {
        let Ok(Answer::Ask(request, state)) = self.answer else {
            return self;
        };
        Trial {
            answer: build::distance(state, tables, field.at(request.key)),
            given: self.given.wrapping_add(1),
        }
    }

    // A finished build was given a distance for each node.
    fn is_finished(self, nodes: usize, leaves: usize) -> bool {
        matches!(self.answer, Ok(Answer::Finished(s)) if s.nodes == nodes && s.leaves == leaves)
            && self.given == nodes as u64
    }

    fn is_refused(self, refusal: Refusal, given: u64) -> bool {
        matches!(self.answer, Err(e) if e == refusal) && self.given == given
    }
}

// A build until it is finished or refused, by so many distances at most.
fn run(bound: u32, field: Field, most: u32, tables: &mut Tables) -> Trial {
    let mut t = Trial::begun(bound, tables);
    for _ in 0..most {
        t = t.give(field, tables);
    }
    t
}

// The same over tables of 100 places and a queue that is given.
fn built(bound: u32, field: Field, queue: &mut [u64]) -> Trial {
    let mut tables = Tables {
        keys: &mut [0; 100],
        distances: &mut [0.0; 100],
        firsts: &mut [0; 100],
        leaves: &mut [0; 100],
        queue,
    };
    run(bound, field, 100, &mut tables)
}

fn finishes(bound: u32, key: u64, there: f32, nodes: usize, leaves: usize) -> bool {
    let field = Field {
        key,
        there,
        elsewhere: 1.0,
    };
    built(bound, field, &mut [0; 100]).is_finished(nodes, leaves)
}

fn finishes_with_64() -> bool {
    built(2, Field::far(), &mut [0; 64]).is_finished(73, 64)
}

fn is_refused_with_63() -> bool {
    built(2, Field::far(), &mut [0; 63]).is_refused(Refusal::QueueFull, 9)
}

// No build has more than 4,096 nodes, however long its tables are: every cell of bound 4 is near, 4,681 in all, and tables of 4,200 are lent.
fn is_refused_past_4096() -> bool {
    let mut tables = Tables {
        keys: &mut [0; 4200],
        distances: &mut [0.0; 4200],
        firsts: &mut [0; 4200],
        leaves: &mut [0; 4200],
        queue: &mut [0; 4200],
    };
    let near = Field {
        key: 1,
        there: 0.0,
        elsewhere: 0.0,
    };
    run(4, near, 5000, &mut tables).is_refused(Refusal::NodesFull, 4097)
}

// Node room is the shortest of three tables.
fn is_refused_past_72() -> bool {
    let mut tables = Tables {
        keys: &mut [0; 73],
        distances: &mut [0.0; 73],
        firsts: &mut [0; 72],
        leaves: &mut [0; 64],
        queue: &mut [0; 64],
    };
    run(2, Field::far(), 73, &mut tables).is_refused(Refusal::NodesFull, 73)
}

// Whether the first distance is refused of a build that goes on over tables with so many keys and first children, where both were 73 at the start.
fn is_refused_elsewhere(keys: &mut [u64], firsts: &mut [u16]) -> bool {
    let begun = Trial::begun(
        2,
        &Tables {
            keys: &mut [0; 73],
            distances: &mut [0.0; 73],
            firsts: &mut [0; 73],
            leaves: &mut [0; 64],
            queue: &mut [0; 64],
        },
    );
    let mut others = Tables {
        keys,
        distances: &mut [0.0; 73],
        firsts,
        leaves: &mut [0; 64],
        queue: &mut [0; 64],
    };
    begun
        .give(Field::far(), &mut others)
        .is_refused(Refusal::NotFitting, 1)
}

// ---- reading a finished tree

fn lists(tree: &Tree, count: usize) -> bool {
    vertices::list(tree, 0, &mut [0; 100], &mut [0; 100]) == Ok(count)
}

// Tables that a build has filled.
fn filled<'a>(tables: &'a Tables) -> Tree<'a> {
    Tree {
        nodes: Nodes {
            keys: tables.keys,
            firsts: tables.firsts,
        },
        distances: tables.distances,
        leaves: tables.leaves,
    }
}

// The same of the tree that a build makes, which fills the tables.
fn grows(bound: u32, field: Field, tables: &mut Tables, count: usize) -> bool {
    let t = run(bound, field, 100, tables);
    let tree = filled(tables);
    t.is_finished(tree.nodes.keys.len(), tree.leaves.len()) && lists(&tree, count)
}

fn finds(tree: &Tree, key: u64, deepest: u64, at: usize, tries: u32) -> bool {
    matches!(
        tree.look_up(key),
        Ok(Lookup::Found { key, place, tried, .. }) if key == deepest && place == at && tried == tries
    )
}

// The vertex at corner 7 of a cell of level 3; 0, which is no vertex, where there is none.
fn far_corner(key: u64) -> u64 {
    Key { code: key }.vertex(3, 7).map_or(0, |v| v.code)
}

// Whether the dual cell of that corner has these nodes, at these places.
fn meet(tree: &Tree, key: u64, eight: [u64; 8], at: [usize; 8], tries: u32) -> bool {
    let cell = dual::dual_cell(tree, far_corner(key), 3);
    cell.tried == Ok(tries) && cell.keys == eight && cell.places == at
}

// A refused dual cell, which has nothing in its arrays.
fn is_empty(cell: Dual, refusal: Refusal) -> bool {
    cell.tried == Err(refusal)
        && cell.keys == [0; 8]
        && cell.distances == [0.0; 8]
        && cell.places == [0; 8]
}

// The slabs that the cell of the vertex at corner 7 of a cell of level 3 reaches.
fn reaches(nodes: &Nodes, key: u64, exponent: u32, low: u32, high: u32) -> bool {
    slabs::slabs_trusting(nodes, far_corner(key), 3, exponent)
        == Ok(Reach {
            first: low,
            last: high,
        })
}

fn say_of_slabs(rt: &impl Print, nodes: &Nodes) -> io::Result<()> {
    // The centres of its nodes are 1/8, 3/16 and 3/8 high.
    say(
        rt,
        b"that tree, vertex of 519, corner 7, level 3: slabs 1 to 3 of 8, 2 to 6 of 16",
        reaches(nodes, 519, 3, 1, 3) && reaches(nodes, 519, 4, 2, 6),
    )?;
    // At 1 on x, 3 on y and 7 on z, of 8, it lies inside one leaf, whose centre is 7/8 high.
    say(
        rt,
        b"that tree, vertex of 816, corner 7, level 3: slab 7 of 8, 3 of 4",
        reaches(nodes, 816, 3, 7, 7) && reaches(nodes, 816, 2, 3, 3),
    )
}

fn say_of_tree(rt: &impl Print, tree: &Tree) -> io::Result<()> {
    say(rt, b"that tree is sound", tree.sound())?;
    say(
        rt,
        b"that tree, key 4152: 519 at place 80; 2 tried",
        finds(tree, 4152, 519, 80, 2),
    )?;
    let outer = [71, 70, 69, 68, 67, 66, 65, 519];
    let outer_at = [16, 15, 14, 13, 12, 11, 10, 80];
    say(
        rt,
        b"that tree, vertex of 519, corner 7, level 3: 71, 70, 69, 68, 67, 66, 65, 519 at 16 down to 10, 80; 15 tried",
        meet(tree, 519, outer, outer_at, 15),
    )?;
    let inner = [519, 518, 517, 516, 515, 514, 513, 512];
    let inner_at = [80, 79, 78, 77, 76, 75, 74, 73];
    say(
        rt,
        b"that tree, vertex of 512, corner 7, level 3: 519 down to 512 at 80 down to 73; 8 tried",
        meet(tree, 512, inner, inner_at, 8),
    )?;
    say(
        rt,
        b"that tree, 0 for a vertex: 4, and nothing in the arrays",
        is_empty(dual::dual_cell(tree, 0, 3), Refusal::NotAVertex),
    )?;
    say_of_slabs(rt, &tree.nodes)
}

fn is_sound_with(tree: &Tree, distances: &[f32]) -> bool {
    Tree { distances, ..*tree }.sound()
}

fn say_of_broken(rt: &impl Print, tree: &Tree) -> io::Result<()> {
    let mut last = [1.0; 81];
    last[80] = 1.0 / 0.0;
    say(
        rt,
        b"that tree, infinity at its last node: not sound",
        !is_sound_with(tree, &last),
    )?;
    let mut first = [1.0; 81];
    first[0] = 0.0 / 0.0;
    say(
        rt,
        b"that tree, NaN at its root: not sound",
        !is_sound_with(tree, &first),
    )
}

fn leads_elsewhere(tree: &Tree, firsts: [u16; 81], place: usize, first: u16) -> bool
    requires { place < 81 }
{
    let mut others = firsts;
    others[place] = first;
    let nodes = Nodes {
        keys: tree.nodes.keys,
        firsts: &others,
    };
    !Tree { nodes, ..*tree }.sound()
}

// Key 64 is split, at place 9, and the last node is a leaf.
fn say_of_firsts(rt: &impl Print, tree: &Tree, firsts: [u16; 81]) -> io::Result<()> {
    say(
        rt,
        b"that tree, the first child of 64 at 72 and not 73: not sound",
        leads_elsewhere(tree, firsts, 9, 72),
    )?;
    say(
        rt,
        b"that tree, a first child of its last leaf: not sound",
        leads_elsewhere(tree, firsts, 80, 1),
    )
}

fn say_of_73(rt: &impl Print) -> io::Result<()> {
    let mut tables = Tables {
        keys: &mut [0; 73],
        distances: &mut [0.0; 73],
        firsts: &mut [0; 73],
        leaves: &mut [0; 64],
        queue: &mut [0; 100],
    };
    say(
        rt,
        b"bound 2, 73 times 1.0: 73 nodes, 64 leaves, 27 vertices",
        grows(2, Field::far(), &mut tables, 27),
    )
}

fn say_of_81(rt: &impl Print) -> io::Result<()> {
    let mut keys = [0u64; 81];
    let mut distances = [0.0f32; 81];
    let mut firsts = [0u16; 81];
    let mut leaves = [0u64; 71];
    let mut tables = Tables {
        keys: &mut keys,
        distances: &mut distances,
        firsts: &mut firsts,
        leaves: &mut leaves,
        queue: &mut [0; 100],
    };
    let first = Field {
        key: 64,
        there: 0.0,
        elsewhere: 1.0,
    };
    say(
        rt,
        b"bound 3, 0.0 for key 64, else 1.0: 81 nodes, 71 leaves, 34 vertices",
        grows(3, first, &mut tables, 34),
    )?;
    let other_firsts = firsts;
    let mut exchanged = leaves;
    exchanged.swap(0, 1);
    let tree = Tree {
        nodes: Nodes {
            keys: &keys,
            firsts: &firsts,
        },
        distances: &distances,
        leaves: &leaves,
    };
    say_of_tree(rt, &tree)?;
    say(
        rt,
        b"that tree, one distance too many: not sound",
        !is_sound_with(&tree, &[0.0; 82]),
    )?;
    say_of_broken(rt, &tree)?;
    say_of_firsts(rt, &tree, other_firsts)?;
    say(
        rt,
        b"that tree, two leaves exchanged: not sound",
        !Tree {
            leaves: &exchanged,
            ..tree
        }
        .sound(),
    )
}

// ---- the program `counts`

// Input for it: a bound, and distances of four bytes that are all the same but for zeros at the places from `first` to before `end`; at each fifth of these
// alone, if so said.
#[derive(Clone, Copy)]
struct Given {
    bound: u8,
    first: usize,
    end: usize,
    fifth: bool,
    other: [u8; 4],
}

impl Given {
    fn is_zero(self, place: usize) -> bool {
        self.first <= place && place < self.end && (!self.fifth || (place - self.first) % 5 == 0)
    }

    fn byte_at(self, i: usize) -> u8 {
        if i == 0 {
            return self.bound;
        }
        if self.is_zero((i - 1) / 4) {
            return 0;
        }
        self.other[(i - 1) % 4]
    }
}

// What it prints for the first bytes of such an input.
fn show(rt: &impl Print, example: &[u8], given: Given, length: usize) -> io::Result<()>
    requires { length ≤ 4200 }
{
    let mut input = [0u8; 4200];
    for (i, byte) in input.iter_mut().enumerate() {
        *byte = given.byte_at(i);
    }
    let text = counting::line(&input[..length]);
    rt.write_all(example)?;
    rt.write_all(b": ")?;
    rt.write_all(text.as_bytes())
}

// 1.0 but for zeros from one place to before another.
fn zeros(bound: u8, first: usize, end: usize) -> Given {
    Given {
        bound,
        first,
        end,
        fifth: false,
        other: [0, 0, 0x80, 0x3f],
    }
}

fn ones(bound: u8) -> Given {
    zeros(bound, 0, 0)
}

fn fifths(end: usize) -> Given {
    Given {
        bound: 15,
        first: 9,
        end,
        fifth: true,
        other: [0, 0, 0x80, 0x3f],
    }
}

fn show_ends(rt: &impl Print) -> io::Result<()> {
    show(rt, b"counts, nothing", ones(2), 0)?;
    show(rt, b"counts, byte 2", ones(2), 1)?;
    show(rt, b"counts, byte 16", ones(16), 1)?;
    show(rt, b"counts, byte 2, 73 times 1.0", ones(2), 293)?;
    show(rt, b"counts, that without its last byte", ones(2), 292)?;
    show(rt, b"counts, that with 9 bytes more", ones(2), 302)
}

fn show_distances(rt: &impl Print) -> io::Result<()> {
    show(rt, b"counts, byte 3, 73 times 1.0", ones(3), 293)?;
    let reversed = Given {
        bound: 3,
        first: 0,
        end: 0,
        fifth: false,
        other: [0x3f, 0x80, 0, 0],
    };
    show(rt, b"counts, byte 3, 585 times 3f 80 00 00", reversed, 2341)?;
    show(
        rt,
        b"counts, byte 3, 0.0 for key 64, else 1.0",
        zeros(3, 9, 10),
        325,
    )?;
    let greatest = Given {
        bound: 3,
        first: 9,
        end: 10,
        fifth: false,
        other: [0xff, 0xff, 0x7f, 0x7f],
    };
    show(
        rt,
        b"counts, byte 3, 0.0 for key 64, else the greatest f32",
        greatest,
        325,
    )
}

// 0.0 nine times, then what the other four bytes are.
fn then(other: [u8; 4]) -> Given {
    Given {
        bound: 3,
        first: 0,
        end: 9,
        fifth: false,
        other,
    }
}

fn show_broken(rt: &impl Print) -> io::Result<()> {
    let nan = then([1, 0, 0x80, 0x7f]);
    show(rt, b"counts, byte 3, 9 times 0.0, then NaN", nan, 41)?;
    show(rt, b"counts, that without its last byte", nan, 40)?;
    show(
        rt,
        b"counts, byte 3, 9 times 0.0, then infinity",
        then([0, 0, 0x80, 0x7f]),
        41,
    )?;
    show(
        rt,
        b"counts, byte 3, 9 times 0.0, then -infinity",
        then([0, 0, 0x80, 0xff]),
        41,
    )
}

fn show_rooms(rt: &impl Print) -> io::Result<()> {
    show(
        rt,
        b"counts, byte 4, 89 times 0.0, then 1.0",
        zeros(4, 0, 89),
        4101,
    )?;
    show(rt, b"counts, byte 4, 0.0", zeros(4, 0, 1025), 4101)?;
    show(
        rt,
        b"counts, byte 4, 128 times 0.0, then 1.0 up to 1,024",
        zeros(4, 0, 128),
        4097,
    )?;
    show(
        rt,
        b"counts, byte 4, 128 times 0.0, then 1.0 up to 1,025",
        zeros(4, 0, 128),
        4101,
    )?;
    show(
        rt,
        b"counts, byte 15, 0.0 for each fifth from place 9 to 324, else 1.0",
        fifths(325),
        4101,
    )?;
    show(
        rt,
        b"counts, byte 15, 0.0 for each fifth from place 9 to 329, else 1.0",
        fifths(330),
        4101,
    )?;
    show(
        rt,
        b"counts, byte 15, 0.0 for each fifth from place 9 to 334, else 1.0",
        fifths(335),
        4101,
    )
}

fn main(rt: HostRuntime) -> io::Result<()> {
    say(
        &rt,
        b"centre of 9 is (0.75, 0.25, 0.25)",
        centre_is(9, 0.75, 0.25, 0.25),
    )?;
    say(&rt, b"half size of 9 is 0.25", half_size_is(9, 0.25))?;
    // Both numerators are below 2^24, so each distance is its fraction exactly.
    say(
        &rt,
        b"key 65, bound 3, 14529495/2^26: split",
        is_split(65, 3, 14529495.0 / 67108864.0),
    )?;
    say(
        &rt,
        b"key 65, bound 3, 14529496/2^26: leaf",
        !is_split(65, 3, 14529496.0 / 67108864.0),
    )?;
    say(
        &rt,
        b"the same in a build: 81 nodes, 71 leaves",
        finishes(3, 65, 14529495.0 / 67108864.0, 81, 71),
    )?;
    say(
        &rt,
        b"the same in a build: 73 nodes, 64 leaves",
        finishes(3, 65, 14529496.0 / 67108864.0, 73, 64),
    )?;
    say(
        &rt,
        b"bound 2, queue 64: finishes, 73 nodes, 64 leaves",
        finishes_with_64(),
    )?;
    say(
        &rt,
        b"bound 2, queue 63: 8 at the ninth distance",
        is_refused_with_63(),
    )?;
    say(
        &rt,
        b"bound 2, the key table or that of first children shorter than at the start: 10 at the first distance",
        is_refused_elsewhere(&mut [0; 72], &mut [0; 73])
            && is_refused_elsewhere(&mut [0; 73], &mut [0; 72]),
    )?;
    say(
        &rt,
        b"bound 2, 1.0 throughout, 72 first children: 6 at the 73rd distance",
        is_refused_past_72(),
    )?;
    say(
        &rt,
        b"bound 4, 0.0 throughout, tables of 4,200: 6 at the 4,097th distance",
        is_refused_past_4096(),
    )?;
    say_of_73(&rt)?;
    say_of_81(&rt)?;
    show_ends(&rt)?;
    show_distances(&rt)?;
    show_broken(&rt)?;
    show_rooms(&rt)
}
