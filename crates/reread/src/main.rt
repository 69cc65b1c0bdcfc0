#![tactic(auto)]
// Replays the sample's lines that read a tree, and counts the lines that agree. The sample is the oracle's answers, written by
// tools/sample. `put` lines write a tree into the tables, and the lines after them lend the first places, as many as A says.
use sample::{Line, Op};
use std::io;
use tree::{Lookup, Nodes, Tree};

// A tree's tables.
#[derive(Drop)]
struct Tables {
    keys: [u64; 1024],
    distances: [f32; 1024],
    firsts: [u16; 1024],
    leaves: [u64; 1024],
}

impl Tables {
    fn new() -> Tables {
        Tables {
            keys: [0; 1024],
            distances: [0.0; 1024],
            firsts: [0; 1024],
            leaves: [0; 1024],
        }
    }

    // Writes one place, if the tables have it.
    fn put(&mut self, l: Line) -> bool {
        let at = l.a as usize % 0x1_0000;
        if at >= self.keys.len() {
            return false;
        }
        self.keys[at] = l.b;
        self.distances[at] = sample::float(l.a >> 32);
        self.firsts[at] = ((l.a >> 16) % 0x1_0000) as u16;
        self.leaves[at] = l.c;
        true
    }

    fn lent(&self, l: Line) -> Tree<'_> {
        let a = sample::length_at(l.a, 0, self.keys.len());
        let b = sample::length_at(l.a, 1, self.distances.len());
        let c = sample::length_at(l.a, 2, self.firsts.len());
        let d = sample::length_at(l.a, 3, self.leaves.len());
        Tree {
            nodes: Nodes {
                keys: &self.keys[..a],
                firsts: &self.firsts[..c],
            },
            distances: &self.distances[..b],
            leaves: &self.leaves[..d],
        }
    }
}

// The tables that vertices are listed in.
#[derive(Drop)]
struct Listed {
    vertices: [u64; 1024],
    levels: [u8; 1024],
}

impl Listed {
    fn new() -> Listed {
        Listed {
            vertices: [0; 1024],
            levels: [0; 1024],
        }
    }

    // A list into tables that are all 0, as long as C says.
    fn list(&mut self, tree: &Tree, l: Line) -> bool {
        self.vertices = [0; 1024];
        self.levels = [0; 1024];
        let Listed { vertices, levels } = self;
        let vertices: &mut [u64] = vertices;
        let levels: &mut [u8] = levels;
        let a = sample::length_at(l.c, 0, vertices.len());
        let b = sample::length_at(l.c, 1, levels.len());
        let answer = vertices::list(tree, l.b as usize, &mut vertices[..a], &mut levels[..b]);
        sample::same(answer, l, |n| sample::first_is(l, n as u64))
    }

    fn has(&self, l: Line) -> bool {
        let at = l.a as usize;
        at < self.vertices.len() && self.vertices[at] == l.x && u64::from(self.levels[at]) == l.y
    }
}

// Z has the place above the number tried.
fn is_found(key: u64, distance: f32, place: usize, tried: u32, l: Line) -> bool {
    tried == sample::low(l.z)
        && place as u64 == l.z >> 32
        && sample::is_float(distance, l.y)
        && sample::first_is(l, key)
}

// Nothing has key, distance and place 0.
fn look_up(tree: &Tree, l: Line) -> bool {
    sample::same(tree.look_up(l.b), l, |found| match found {
        Lookup::Found {
            key,
            distance,
            place,
            tried,
        } => is_found(key, distance, place, tried, l),
        Lookup::Nothing { tried } => is_found(0, 0.0, 0, tried, l),
    })
}

// One corner of a dual cell, which C says above the level.
fn dual_cell(tree: &Tree, l: Line) -> bool {
    let cell = dual::dual_cell(tree, l.b, l.low_c);
    let corner = sample::length_at(l.c, 2, 7);
    let key = cell.keys[corner];
    let distance = cell.distances[corner];
    let place = cell.places[corner];
    sample::same(
        cell.tried,
        l,
        |tried| is_found(key, distance, place, tried, l),
    )
}

// C has the exponent above the level.
fn slabs(tree: &Tree, l: Line) -> bool {
    let exponent = sample::low(l.c >> 32);
    let answer = slabs::slabs(tree, l.b, l.low_c, exponent);
    sample::same(answer, l, |reach| {
        u64::from(reach.last) == l.y && sample::first_is(l, u64::from(reach.first))
    })
}

// A report into tables that are all 0, and lent as long as C says below the exponent. Also where it is refused, what they hold is compared: at the leaf
// and at the slab that B says, the low half being the leaf. Y has the first slab above the last.
fn lifetimes(tree: &Tree, l: Line) -> bool {
    let mut first = [0u32; 1024];
    let mut last = [0u32; 1024];
    let mut needed = [0u32; 1024];
    let a = sample::length_at(l.c, 0, first.len());
    let b = sample::length_at(l.c, 1, last.len());
    let c = sample::length_at(l.c, 2, needed.len());
    let exponent = (l.c >> 48) as u32;
    let answer = lifetimes::lifetimes(
        tree,
        exponent,
        &mut first[..a],
        &mut last[..b],
        &mut needed[..c],
    );
    let leaf = l.low_b as usize;
    let slab = (l.b >> 32) as usize;
    sample::same(answer, l, |n| sample::first_is(l, u64::from(n)))
        && u64::from(first.get(leaf).copied().unwrap_or(0)) == l.y >> 32
        && last.get(leaf).copied().unwrap_or(0) == sample::low(l.y)
        && u64::from(needed.get(slab).copied().unwrap_or(0)) == l.z
}

fn agrees(tables: &mut Tables, listed: &mut Listed, l: Line) -> bool {
    let Some(op) = Op::of(l.op) else {
        return false;
    };
    match op {
        Op::Put => tables.put(l),
        Op::Sound => u64::from(tables.lent(l).sound()) == l.x,
        Op::LookUp => look_up(&tables.lent(l), l),
        Op::List => listed.list(&tables.lent(l), l),
        Op::VertexAt => listed.has(l),
        Op::DualCell => dual_cell(&tables.lent(l), l),
        Op::Slabs => slabs(&tables.lent(l), l),
        Op::Lifetimes => lifetimes(&tables.lent(l), l),
        _ => false,
    }
}

fn main(rt: HostRuntime) -> io::Result<()> {
    let mut tables = Tables::new();
    let mut listed = Listed::new();
    let tally = sample::replay(&mut rt.stdin(), |l| agrees(&mut tables, &mut listed, l))?;
    let mut output = rt.stdout();
    for (name, op) in [
        ("put", Op::Put),
        ("sound", Op::Sound),
        ("look_up", Op::LookUp),
        ("list", Op::List),
        ("vertex at a place", Op::VertexAt),
        ("dual_cell", Op::DualCell),
        ("slabs", Op::Slabs),
        ("lifetimes", Op::Lifetimes),
    ] {
        sample::show(&mut output, name, tally.agreeing(op))?;
    }
    sample::show(&mut output, "differ", tally.differ)
}
