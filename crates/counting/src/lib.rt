#![tactic(auto)]
// What document 01's program `counts` prints for the bytes of its input: a bound byte and then f32 distances, little-endian, in the order in which
// they are asked for.
ghost use Rattle.std.specs.Prelude.{◌≡◌, ◌+◌, ◌≤◌, ◌<◌, [], ◌∷◌, ◌++◌, length, take};
ghost use Rattle.refusals.specs.Refusals.{number};
ghost use Rattle.build.specs.Build.{tables_in, outcome, start_of};
ghost use Rattle.counting.specs.Vertices.{vertex_count};
ghost use Rattle.counting.specs.Printed.{distances_in, after_all, decimal, short_line, refused_line, counts_line, tree_line, line_of, bytes_of, Holds};
ghost use Rattle.counting.specs.Writing.{float_of, Built, listed_of};

use build::{Answer, State, Tables};
use refusals::Refusal;
use std::marker::Model;
use tree::{Nodes, Tree};

// A line's bytes, of which there are 64 at most; zeros follow.
#[derive(Clone, Copy)]
pub struct Text {
    bytes: [u8; 64],
    count: usize,
}

impl Model for Text {
    ghost use Rattle.std.specs.Prelude.{ℕ, List, length, take};
    ghost use Rattle.std.proofs.Common.{sym};
    ghost use Rattle.counting.specs.Printed.{bytes_of, Holds};

    ghost Value = { List ℕ };

    ghost view = { λ t. take t.count t.bytes };

    ghost invariant = { λ t. Holds (take t.count t.bytes) t.bytes t.count };

    // What a contract sees forgets nothing, so that a text may be copied.
    ghost inverse = { λ line. record { bytes = bytes_of line; count = length line } };

    ghost inverse_ok = { λ t h i. record { bytes = sym h.bytes_are i; count = sym h.count_is i } };
}

// ---- writing

impl Text {
    fn new() -> Text
        ensures { result ≡ [] }
    {
        Text {
            bytes: [0; 64],
            count: 0,
        }
    }

    pub fn as_bytes(&self) -> &[u8]
        ensures { result.now ≡ self.now }
    {
        &self.bytes[..self.count]
    }

    // The line, and zeros behind it.
    pub fn bytes(&self) -> [u8; 64]
        ensures { result ≡ bytes_of self.now }
    {
        self.bytes
    }

    // How many of them are the line.
    pub fn length(&self) -> usize
        ensures { result ≡ length self.now }
    {
        self.as_bytes().len()
    }

    fn put(&mut self, byte: u8)
        requires { length self.old < 64 }
        ensures { self.new ≡ self.old ++ byte ∷ [] }
    {
        self.bytes[self.count] = byte;
        self.count += 1;
    }

    fn put_all(&mut self, more: &[u8])
        requires { length self.old + length more.now ≤ 64 }
        ensures { self.new ≡ self.old ++ more.now }
    {
        for byte in more {
            self.put(*byte);
        }
    }

    // Kept: `write!` may fail, and its contract says nothing of the text then, where a line always has its room.
    fn put_decimal(&mut self, n: u64)
        requires { length self.old + length (decimal n) ≤ 64 }
        ensures { self.new ≡ self.old ++ decimal n }
    {
        if n >= 10 {
            self.put_decimal(n / 10);
        }
        self.put(b'0' + (n % 10) as u8);
    }

    // A number in decimals, which are 20 at most, and a byte behind it.
    fn put_number(&mut self, n: u64, end: u8)
        requires { length self.old + 21 ≤ 64 }
        ensures bytes { self.new ≡ self.old ++ (decimal n ++ end ∷ []) }
        ensures room { length self.new ≤ length self.old + 21 }
    {
        self.put_decimal(n);
        self.put(end);
    }
}

#[tactic(auto, unfolding(crate::specs::Printed::short_line))]
fn short() -> Text
    ensures { result ≡ short_line }
{
    let mut text = Text::new();
    text.put_all(b"short\n");
    text
}

#[tactic(auto, unfolding(crate::specs::Printed::refused_line))]
fn refused(refusal: Refusal) -> Text
    ensures { result ≡ refused_line (number refusal) }
{
    let mut text = Text::new();
    text.put_all(b"refused ");
    text.put_number(u64::from(refusal.number()), b'\n');
    text
}

#[tactic(auto, unfolding(crate::specs::Printed::counts_line))]
fn counts(nodes: usize, leaves: usize, vertices: usize) -> Text
    ensures { result ≡ counts_line nodes leaves vertices }
{
    let mut text = Text::new();
    text.put_number(nodes as u64, b' ');
    text.put_number(leaves as u64, b' ');
    text.put_number(vertices as u64, b'\n');
    text
}

// ---- the build

// Little-endian.
#[tactic(auto, unfolding(crate::specs::Printed::little_endian))]
fn distance(four: [u8; 4]) -> f32
    ensures { result ≡ float_of four }
{
    floats::from_bits(u32::from_le_bytes(four))
}

// The last answer of a build: it is finished, refused, or still asks where the input ends.
fn drive(bound: u8, bytes: &[u8], tables: &mut Tables) -> Result<Answer, Refusal>
    ensures { outcome result (tables_in tables.new)
        ≡ after_all (distances_in bytes.now) (outcome (start_of bound (tables_in tables.old)) (tables_in tables.old)) }
{
    let bound = u32::from(bound);
    let mut answer = build::start(bound, tables.lengths())?;
    let (fours, _) = bytes.as_chunks::<4>();
    for four in fours {
        let Answer::Ask(_, s) = answer else {
            return Ok(answer);
        };
        answer = build::distance(s, tables, distance(*four))?;
    }
    Ok(answer)
}

// The vertex list of a finished build, into tables that aren't kept.
fn listed(s: State, tables: &Tables) -> Result<usize, Refusal>
    requires { Built s (tables_in tables.now) }
    ensures { result ≡ listed_of (take s.leaves tables.now.leaves.now) }
{
    let mut vertices = [0u64; 1024];
    let mut levels = [0u8; 1024];
    let tree = Tree {
        nodes: Nodes {
            keys: &tables.keys[..s.nodes],
            firsts: &tables.firsts[..s.nodes],
        },
        distances: &tables.distances[..s.nodes],
        leaves: &tables.leaves[..s.leaves],
    };
    vertices::list(&tree, 0, &mut vertices, &mut levels)
}

fn tree_line(s: State, tables: &Tables) -> Text
    requires { Built s (tables_in tables.now) }
    ensures { result ≡ tree_line s.nodes s.leaves (vertex_count (take s.leaves tables.now.leaves.now)) }
{
    match listed(s, tables) {
        Ok(vertices) => counts(s.nodes, s.leaves, vertices),
        Err(refusal) => refused(refusal),
    }
}

// The whole line, of any bytes at all.
pub fn line(input: &[u8]) -> Text
    ensures line { result ≡ line_of input.now }
    ensures fits { length result ≤ 64 }
    ensures holds { Holds (line_of input.now) (bytes_of result) (length result) }
{
    let Some((bound, bytes)) = input.split_first() else {
        return short();
    };
    let mut tables = Tables {
        keys: &mut [0; 1024],
        distances: &mut [0.0; 1024],
        firsts: &mut [0; 1024],
        leaves: &mut [0; 1024],
        queue: &mut [0; 1024],
    };
    match drive(*bound, bytes, &mut tables) {
        Ok(Answer::Ask(_, _)) => short(),
        Ok(Answer::Finished(s)) => tree_line(s, &tables),
        Err(refusal) => refused(refusal),
    }
}
