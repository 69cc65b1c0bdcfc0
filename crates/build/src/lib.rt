#![tactic(auto)]
// The octree over a distance field, built one request at a time. From `build` in src/linear_hashed_octree.rs of isosurface 0.0.4: its hash
// map and queue are tables that the host lends, and its closures are requests that the host answers.
ghost use Rattle.std.specs.Prelude.{◌≡◌, ◌+◌, ◌*◌, ◌%◌, ◌<◌, ◌≤◌, ◌^◌, min, length, Ok};
ghost use Rattle.build.specs.Build.{tables_in, SameTables, lengths_of, node_room, finest, item_at, request_of, cell_to, Ready};
ghost use Rattle.build.specs.Build.{same_lengths, counts_fit, idle_fits, busy_fits, fits_at, full_of, refusal_at, refusal_of, split_of};
ghost use Rattle.build.specs.Build.{children_to, leaves_of, stored_of, advance_of, accept_of, distance_of, start_at, outcome};

use morton::Key;
use refusals::Refusal;

// No build has more nodes.
const MOST_NODES: usize = 4096;

// How long the lent tables are.
#[derive(Clone, Copy, Debug, PartialEq, Eq)]
pub struct Lengths {
    pub keys: usize,
    pub distances: usize,
    pub firsts: usize,
    pub leaves: usize,
    pub queue: usize,
}

// What a host lends: node keys, node distances, first children, leaf keys, a queue.
#[derive(Drop)]
pub struct Tables<'a> {
    pub keys: &'a mut [u64],
    pub distances: &'a mut [f32],
    pub firsts: &'a mut [u16],
    pub leaves: &'a mut [u64],
    pub queue: &'a mut [u64],
}

// A cell whose distance is asked for: its key, its centre and its half size.
#[derive(Clone, Copy)]
pub struct Request {
    pub key: u64,
    pub x: f32,
    pub y: f32,
    pub z: f32,
    pub half: f32,
}

// What a host keeps between two calls. `asked` is 0 where nothing is asked; the lengths are those of the start.
// Kept: 0 and no `Option`, since it is one of the nine words that a C host keeps, of which any may come back.
#[derive(Clone, Copy)]
pub struct State {
    pub bound: u32,
    pub nodes: usize,
    pub leaves: usize,
    pub asked: u64,
    pub lengths: Lengths,
}

// What to ask for next, if anything.
#[derive(Clone, Copy)]
pub enum Answer {
    Ask(Request, State),
    Finished(State),
}

// The request for a cell.
fn ask_for(key: u64) -> Request
    ensures { result ≡ request_of key }
{
    let e = Key { code: key }.extent();
    Request {
        key,
        x: e.x,
        y: e.y,
        z: e.z,
        half: e.half,
    }
}

// The request for the root. Its numbers are written out, so that `ask_for` has one caller and the compiler makes it part of `distance`.
fn root() -> Request
    ensures { result ≡ request_of 1 }
{
    Request {
        key: 1,
        x: 0.5,
        y: 0.5,
        z: 0.5,
        half: 0.5,
    }
}

// Where item `item` of a ring sits: most builds never come round, and then nothing is divided.
fn place(item: usize, length: usize) -> usize
    requires { 0 < length }
    ensures { result ≡ item % length }
{
    if item < length {
        return item;
    }
    item % length
}

// The place after a place of a ring.
fn after(at: usize, length: usize) -> usize
    requires { at < length }
    ensures { result ≡ (at + 1) % length }
{
    if at + 1 == length {
        return 0;
    }
    at + 1
}

// The key at an item's place, 0 where the queue has no place.
fn item_at(queue: &[u64], item: usize) -> u64
    ensures { result ≡ item_at queue.now item }
{
    if 0 < queue.len() {
        let at = place(item, queue.len());
        queue[at]
    } else {
        0
    }
}

// How many nodes there is room for.
fn node_room(z: Lengths) -> usize
    ensures { result ≡ node_room z }
{
    z.keys.min(z.distances).min(z.firsts).min(MOST_NODES)
}

// Whether the key is a cell key of level at most `top`.
fn is_cell_to(key: u64, top: u32) -> bool
    ensures { result ≡ cell_to top key }
{
    let cell = Key { code: key };
    if !cell.is_cell() {
        return false;
    }
    cell.level() <= top
}

// Whether bound and counts are within the limit and the rooms.
#[tactic(auto, using(crate::proofs::Walk::called), unfolding(crate::specs::Build::counts_fit))]
fn counts_fit(s: State, z: Lengths, room: usize) -> bool
    ensures { result ≡ counts_fit s z room }
{
    if s.bound > morton::LIMIT {
        return false;
    }
    if s.leaves > s.nodes {
        return false;
    }
    if s.nodes > room {
        return false;
    }
    s.leaves <= z.leaves
}

// Whether nothing is asked, as it should be where every cell is a leaf or split.
#[tactic(auto, using(crate::proofs::Walk::called), unfolding(crate::specs::Build::idle_fits))]
fn idle_fits(s: State) -> bool
    requires { (s.nodes ≤ 4096) × (s.leaves ≤ 4096) }
    ensures { result ≡ idle_fits s }
{
    if s.asked != 0 {
        return false;
    }
    7 * s.nodes + 1 == 8 * s.leaves
}

// Whether a cell is asked and the waiting items are in order, `next` being the first of them.
#[tactic(auto, using(crate::proofs::Walk::called), unfolding(crate::specs::Build::busy_fits))]
fn busy_fits(s: State, next: u64, top: u32) -> bool
    requires { (s.nodes ≤ 4096) × (s.leaves ≤ 4096) }
    ensures { result ≡ busy_fits s next top }
{
    let added = 7 * s.nodes;
    let taken = 8 * s.leaves;
    if !is_cell_to(s.asked, top) {
        return false;
    }
    if added < taken {
        return false;
    }
    if s.lengths.queue < added - taken {
        return false;
    }
    if added <= taken {
        return true;
    }
    is_cell_to(next, top)
}

// Whether a state fits tables of the lengths `z`, `next` being the key at item n's place.
#[tactic(auto, using(crate::proofs::Walk::called, crate::proofs::Walk::via_ne_true, crate::proofs::Walk::via_ne_false), unfolding(crate::specs::Build::fits_at, crate::specs::Build::same_lengths))]
fn fits_at(s: State, z: Lengths, next: u64, room: usize, top: u32) -> bool
    requires { room ≤ 4096 }
    ensures { result ≡ fits_at s z next room top }
{
    if s.lengths != z {
        return false;
    }
    if !counts_fit(s, z, room) {
        return false;
    }
    if idle_fits(s) {
        return true;
    }
    busy_fits(s, next, top)
}

// Whether a distance splits the asked cell. `should_refine` in the Rust.
fn is_split(s: State, distance: f32) -> bool
    ensures { result ≡ split_of s distance }
{
    let level = Key { code: s.asked }.level();
    morton::should_refine(level, s.bound, distance)
}

// Refused where there is no room for a leaf or for eight items.
#[tactic(auto, using(crate::proofs::Walk::called), unfolding(crate::specs::Build::full_of))]
fn full(s: State, split: bool) -> Result<(), Refusal>
    requires { (s.nodes ≤ 4096) × (8 * s.leaves ≤ 7 * s.nodes) }
    ensures { result ≡ full_of s split }
{
    if split {
        if s.lengths.queue < 7 * s.nodes - 8 * s.leaves + 8 {
            return Err(Refusal::QueueFull);
        }
        return Ok(());
    }
    if s.leaves == s.lengths.leaves {
        return Err(Refusal::LeavesFull);
    }
    Ok(())
}

// Whether the call is refused. Whether the cell is split is found last: after the other tests the compiler knows its level.
#[tactic(auto, using(crate::proofs::Walk::called), unfolding(crate::specs::Build::refusal_at))]
fn refusal_at(
    s: State,
    z: Lengths,
    next: u64,
    distance: f32,
    room: usize,
    top: u32,
) -> Result<(), Refusal>
    requires { room ≤ 4096 }
    ensures { result ≡ refusal_at s z next (split_of s distance) distance room top }
{
    if !fits_at(s, z, next, room, top) {
        return Err(Refusal::NotFitting);
    }
    if s.asked == 0 {
        return Err(Refusal::NothingAsked);
    }
    if !floats::is_finite(distance) {
        return Err(Refusal::NotFinite);
    }
    if s.nodes == room {
        return Err(Refusal::NodesFull);
    }
    let split = is_split(s, distance);
    full(s, split)
}

// Begins a build over tables of these lengths: the root is asked for first.
#[tactic(auto, using(crate::proofs::Walk::called), unfolding(crate::specs::Build::start_at))]
pub fn start(bound: u32, lengths: Lengths) -> Result<Answer, Refusal>
    ensures { result ≡ start_at bound lengths }
{
    if bound > morton::LIMIT {
        return Err(Refusal::AboveFifteen);
    }
    Ok(Answer::Ask(
        root(),
        State {
            bound,
            nodes: 0,
            leaves: 0,
            asked: 1,
            lengths,
        },
    ))
}

// The eight children of a cell, as items from `item` on.
fn put_children(queue: &mut [u64], key: u64, item: usize)
    requires { (0 < length queue.old) × ((key < 2 ^ 61) × (item < 2 ^ 32)) }
    ensures { queue.new ≡ children_to 8 queue.old key item }
{
    let mut at = place(item, queue.len());
    for i in 0..8 {
        queue[at] = 8 * key + i;
        at = after(at, queue.len());
    }
}

impl Tables<'_> {
    pub fn lengths(&self) -> Lengths
        ensures { result ≡ lengths_of (tables_in self.now) }
    {
        Lengths {
            keys: self.keys.len(),
            distances: self.distances.len(),
            firsts: self.firsts.len(),
            leaves: self.leaves.len(),
            queue: self.queue.len(),
        }
    }

    fn refusal_of(&self, s: State, distance: f32) -> Result<(), Refusal>
        ensures { result ≡ refusal_of s (split_of s distance) distance (tables_in self.now) }
    {
        let z = self.lengths();
        let next = item_at(self.queue, s.nodes);
        let room = node_room(z);
        // The level of the finest grid.
        let top = s.bound.max(2);
        refusal_at(s, z, next, distance, room, top)
    }

    // The answer of an accepted call, `leaves` being how many there are now.
    fn advance(&self, s: State, leaves: usize) -> Answer
        requires { (s.nodes < 4096) × (leaves ≤ s.nodes + 1) }
        ensures { result ≡ advance_of s leaves self.now.queue.now }
    {
        let n = s.nodes;
        let lengths = s.lengths;
        if n < 8 * (n + 1 - leaves) {
            let key = item_at(self.queue, n);
            let next = ask_for(key);
            Answer::Ask(
                next,
                State {
                    bound: s.bound,
                    nodes: n + 1,
                    leaves,
                    asked: key,
                    lengths,
                },
            )
        } else {
            Answer::Finished(State {
                bound: s.bound,
                nodes: n + 1,
                leaves,
                asked: 0,
                lengths,
            })
        }
    }

    // Stores the asked cell, as a leaf or with its children queued, and says how many leaves there are then. Item j becomes node j + 1, the
    // root being node 0 and no item: so a first child's place is known before its distance is.
    fn store(&mut self, s: State, distance: f32, split: bool) -> usize
        requires { Ready s split (tables_in self.old) }
        ensures same { SameTables self.old self.new }
        ensures stored { (result ≡ leaves_of s split) × (tables_in self.new ≡ stored_of s split distance (tables_in self.old)) }
    {
        let n = s.nodes;
        let m = s.leaves;
        let key = s.asked;
        self.keys[n] = key;
        self.distances[n] = distance;
        if split {
            let item = 8 * (n - m);
            self.firsts[n] = (item + 1) as u16;
            put_children(self.queue, key, item);
            return m;
        }
        self.firsts[n] = 0;
        self.leaves[m] = key;
        m + 1
    }

    // An accepted call: what it stores, and its answer.
    fn accept(&mut self, s: State, distance: f32, split: bool) -> Answer
        requires { Ready s split (tables_in self.old) }
        ensures same { SameTables self.old self.new }
        ensures accepted { outcome (Ok result) (tables_in self.new) ≡ accept_of s split distance (tables_in self.old) }
    {
        let m = self.store(s, distance, split);
        self.advance(s, m)
    }
}

// Takes the distance of the asked cell, and says what to ask for next.
pub fn distance(s: State, tables: &mut Tables, distance: f32) -> Result<Answer, Refusal>
    ensures same { SameTables tables.old tables.new }
    ensures answered { outcome result (tables_in tables.new) ≡ distance_of s distance (tables_in tables.old) }
{
    tables.refusal_of(s, distance)?;
    let split = is_split(s, distance);
    Ok(tables.accept(s, distance, split))
}
