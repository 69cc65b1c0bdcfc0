#![tactic(auto)]
// From which slab to which slab each leaf of a tree is needed, over all its dual cells, and how many leaves are needed at each slab. Ours: the Rust frees nothing.
ghost use Rattle.std.specs.Prelude.{◌≡◌, ◌+◌, ◌*◌, ◌^◌, ◌<◌, ◌≤◌, length, take, replicate, slice_index, slice_index_or, None, EachIndex};
ghost use Rattle.morton.specs.Level.{limit};
ghost use Rattle.tree.specs.Tree.{the_tree, Decides};
ghost use Rattle.tree.specs.Down.{the_nodes};
ghost use Rattle.vertices.specs.Walk.{spots_of};
ghost use Rattle.vertices.specs.Cells.{places_of};
ghost use Rattle.lifetimes.specs.Needed.{Room, reports_of, LifetimesSays};
ghost use Rattle.lifetimes.specs.Trusted.{nodes_in, leaves_of, TrustingSays};
ghost use Rattle.lifetimes.specs.Steps.{PutLeaf, ReadyHalves, SameHalves, WidensHalves, Finds, MeetingSays, Inside, PullSays, Widened, Prepared, AllUnpacked, Within, SpansLeft, Differs, SumsUp, most_in, Counted, ReportLeft};

use refusals::Refusal;
use tree::{Nodes, Tree};

// The leaves of a cell, and its least and greatest slab.
#[derive(Clone, Copy)]
struct Meeting {
    numbers: [Option<usize>; 8],
    low: u32,
    high: u32,
}

// ---- the leaves' numbers and slabs

// Takes down the slab of the next leaf, with no least slab so far, and counts it; no further than one past the last place.
fn put_leaf(first: &mut [u32], number: usize, slab: u32) -> usize
    requires { (number ≤ length first.old + 1) × (slab < 2 ^ 15) }
    ensures { PutLeaf first.old number slab first.new result }
{
    if number < first.len() {
        first[number] = 65536 * slab + 65535;
    }
    (number + 1).min(first.len() + 1)
}

// Both tables of slabs with the nodes whose leaves they are for, so many as are looked at. While the cells are gone over, the upper halves are for finding leaves: place i
// of `first` has the slab of leaf i there, and `last` the number of the leaf at each place, in one slot fewer for each eight places: of 8j + 7 and 8j + 8 the first's
// number is the second's less one, if both are leaves.
// Kept: that both tables are equally long is asked for by clauses, since the borrow check covers no ghost field beside a `&mut`.
#[derive(Drop)]
struct Halves<'a> {
    nodes: Nodes<'a>,
    many: usize,
    first: &'a mut [u32],
    last: &'a mut [u32],
}

impl Halves<'_> {
    // Takes down the number of each leaf and its slab.
    fn number_leaves(&mut self, exponent: u32)
        requires many_value { (self.old.many ≡ nodes_in (the_nodes self.old.nodes)) × (exponent ≤ limit) }
        requires first_value { (self.old.first.now ≡ replicate (leaves_of self.old.many) 65535)
            × (self.old.last.now ≡ replicate (leaves_of self.old.many) 0) }
        ensures same { SameHalves self.old self.new }
        ensures prepared { Prepared (the_nodes self.old.nodes) exponent self.new.first.now self.new.last.now }
    {
        let nodes = self.nodes;
        let mut number: usize = 0;
        for place in 0..self.many {
            self.last[place - place / 8] = 65536 * (number + place % 8 / 7) as u32;
            if nodes.first_at(place) == 0 {
                let slab = slabs::slab_at(nodes.keys[place], exponent);
                number = put_leaf(self.first, number, slab);
            }
        }
    }

    // The number of the leaf at a place, if there is one.
    fn number_at(&self, place: usize) -> Option<usize>
        requires { ReadyHalves self.now }
        ensures { Finds self.now.nodes.firsts.now self.now.many place result }
    {
        if place >= self.many {
            return None;
        }
        if self.nodes.first_at(place) != 0 {
            return None;
        }
        let number = (self.last[place - place / 8] / 65536) as usize - place % 8 / 7;
        (number < self.first.len()).then_some(number)
    }

    // ---- the cells

    // Which leaves a cell has, whose eight places stand in a table, and from which slab to which they lie.
    fn leaves_of_cell(&self, places: &[usize], at: usize) -> Meeting
        requires ready { ReadyHalves self.now }
        requires at_in_bounds { 8 * at + 8 ≤ length places.now }
        ensures { MeetingSays self.now.nodes.firsts.now self.now.many self.now.first.now places.now at 8 result.numbers result.low result.high }
    {
        let mut numbers = [None; 8];
        let mut low: u32 = 65535;
        let mut high: u32 = 0;
        for o in 0..8 {
            let number = self.number_at(places[8 * at + o]);
            numbers[o] = number;
            if let Some(number) = number {
                let slab = self.first[number] / 65536;
                low = low.min(slab);
                high = high.max(slab);
            }
        }
        Meeting { numbers, low, high }
    }

    // Pulls the span of a leaf apart, if it is one.
    fn pull(&mut self, number: Option<usize>, low: u32, high: u32)
        requires as_long { (length self.old.first.now ≡ length self.old.last.now) × (low ≤ 65535) × (high ≤ 65535) }
        requires inside { Inside (length self.old.first.now) number }
        ensures same { SameHalves self.old self.new }
        ensures pulled { PullSays low high number self.old.first.now self.old.last.now self.new.first.now self.new.last.now }
    {
        if let Some(number) = number {
            let a = self.first[number];
            self.first[number] = a - a % 65536 + (a % 65536).min(low);
            let b = self.last[number];
            self.last[number] = b - b % 65536 + (b % 65536).max(high);
        }
    }

    // The same for each leaf of a cell.
    fn pull_all(&mut self, cell: Meeting)
        requires as_long { (length self.old.first.now ≡ length self.old.last.now) × (cell.low ≤ 65535) × (cell.high ≤ 65535) }
        requires inside { EachIndex cell.numbers (λ o. Inside (length self.old.first.now) (slice_index_or cell.numbers o None)) }
        ensures same { SameHalves self.old self.new }
        ensures widened { Widened cell.numbers 8 cell.low cell.high self.old.first.now self.old.last.now self.new.first.now self.new.last.now }
    {
        for number in cell.numbers {
            self.pull(number, cell.low, cell.high);
        }
    }

    // Goes over some cells, whose eight places each stand in a table.
    fn widen(&mut self, places: &[usize], cells: usize)
        requires ready { ReadyHalves self.old }
        requires cells_in_bounds { 8 * cells ≤ length places.now }
        ensures same { SameHalves self.old self.new }
        ensures widens { WidensHalves (take (8 * cells) places.now) self.old self.new }
    {
        for at in 0..cells {
            let cell = self.leaves_of_cell(places, at);
            self.pull_all(cell);
        }
    }

    // Goes over the cells of all vertices, 64 at a time: so many that beginning anew at the root costs little, and so few that they fit on the stack.
    // Kept: the like of the one in `spans`. One function of a size and a closure would need a relation over batches in its contract, and be no shorter.
    fn go_over(&mut self)
        requires { ReadyHalves self.old }
        ensures same { SameHalves self.old self.new }
        ensures widens { WidensHalves (places_of (the_nodes self.old.nodes) (spots_of (the_nodes self.old.nodes))) self.old self.new }
    {
        let nodes = self.nodes;
        let mut vertices = [0u64; 64];
        let mut levels = [0u8; 64];
        let mut places = [0usize; 512];
        let mut from: u64 = 0;
        // Kept: how many batches come is known once one isn't full.
        loop {
            let came = vertices::cells_trusting(
                &nodes,
                from,
                &mut vertices,
                &mut levels,
                &mut places,
            );
            self.widen(&places, came);
            if came < 64 {
                return;
            }
            from = vertices[63] + 1;
        }
    }

    // First and last slab of each leaf, from the halves.
    fn unpack(&mut self)
        requires { length self.old.first.now ≡ length self.old.last.now }
        ensures same { SameHalves self.old self.new }
        ensures unpacked { AllUnpacked self.old.first.now self.old.last.now self.new.first.now self.new.last.now }
    {
        for i in 0..self.first.len() {
            let a = self.first[i] % 65536;
            let b = self.last[i] % 65536;
            if b < a {
                self.first[i] = 1;
                self.last[i] = 0;
            } else {
                self.first[i] = a;
                self.last[i] = b;
            }
        }
    }
}

// ---- counting

// Kept: the three tables of a report one by one, since two steps only read what the third writes.

// One up at a leaf's first slab, one down after its last.
fn differ(first: &[u32], last: &[u32], needed: &mut [u32])
    requires first_len { (length first.now ≡ length last.now) × Within last.now (length needed.old) }
    requires needed_value { needed.old ≡ replicate (length needed.old) 0 }
    ensures { Differs first.now last.now (length first.now) needed.old needed.new }
{
    for i in 0..first.len() {
        let a = first[i] as usize;
        let b = last[i] as usize;
        if a <= b {
            needed[a] = needed[a].wrapping_add(1);
            if b + 1 < needed.len() {
                needed[b + 1] = needed[b + 1].wrapping_sub(1);
            }
        }
    }
}

// The sums from slab 0 on.
fn sum_up(first: &[u32], last: &[u32], needed: &mut [u32])
    requires first_len_bound { length first.now < 2 ^ 32 }
    requires differs { Differs first.now last.now (length first.now) needed.old needed.old }
    ensures { SumsUp first.now last.now needed.old needed.new }
{
    let mut here: u32 = 0;
    for number in needed.iter_mut() {
        here = here.wrapping_add(*number);
        *number = here;
    }
}

// The greatest number in a table: in a loop of its own, since the compiler then takes several numbers at once.
// Kept: no plainer. `max` of the iterator answers an `Option`, and of an empty table the answer is 0.
fn greatest_in(table: &[u32]) -> u32
    ensures { result ≡ most_in table.now (length table.now) }
{
    let mut top: u32 = 0;
    for number in table {
        top = top.max(*number);
    }
    top
}

// How many leaves are needed at each slab, and the greatest of these numbers.
fn count(first: &[u32], last: &[u32], needed: &mut [u32]) -> u32
    requires { (length first.now ≡ length last.now) × (length first.now < 2 ^ 32) × Within last.now (length needed.old) }
    ensures { Counted first.now last.now needed.old needed.new result }
{
    needed.fill(0);
    differ(first, last, needed);
    sum_up(first, last, needed);
    greatest_in(needed)
}

// ---- the call

// The spans, in tables that are as long as there are leaves.
fn spans(nodes: &Nodes, many: usize, exponent: u32, first: &mut [u32], last: &mut [u32])
    requires many_value { (many ≡ nodes_in (the_nodes nodes.now)) × (exponent ≤ limit) }
    requires first_len { (length first.old ≡ leaves_of many) × (length last.old ≡ leaves_of many) }
    ensures { SpansLeft (the_nodes nodes.now) exponent first.new last.new }
{
    first.fill(65535);
    last.fill(0);
    let mut halves = Halves {
        nodes: *nodes,
        many,
        first,
        last,
    };
    halves.number_leaves(exponent);
    halves.go_over();
    halves.unpack();
}

// The whole report, in tables that are as long as there are leaves and slabs.
fn report(
    nodes: &Nodes,
    many: usize,
    exponent: u32,
    first: &mut [u32],
    last: &mut [u32],
    needed: &mut [u32],
) -> u32
    requires many_value { (many ≡ nodes_in (the_nodes nodes.now)) × (exponent ≤ limit) }
    requires first_len { (length first.old ≡ leaves_of many) × (length last.old ≡ leaves_of many) × (length needed.old ≡ 2 ^ exponent) }
    ensures { ReportLeft (the_nodes nodes.now) exponent first.new last.new needed.new result }
{
    spans(nodes, many, exponent, first, last);
    count(first, last, needed)
}

// Whether the report tables have a place for each leaf and each slab.
fn have_room(leaves: usize, exponent: u32, first: &[u32], last: &[u32], needed: &[u32]) -> bool
    requires { exponent ≤ limit }
    ensures { Decides result (Room leaves exponent (reports_of first.now last.now needed.now)) }
{
    leaves <= first.len() && leaves <= last.len() && 1 << exponent <= needed.len()
}

// Kept: no plainer. Of the three tables a caller would make a struct for the one call, and the promise would say besides that it holds the same tables.

// The report, for one who knows that the tree is sound; of other tables, what the same walk comes to.
pub fn lifetimes_trusting(
    nodes: &Nodes,
    exponent: u32,
    first: &mut [u32],
    last: &mut [u32],
    needed: &mut [u32],
) -> Result<u32, Refusal>
    ensures { TrustingSays (the_nodes nodes.now) exponent (reports_of first.old last.old needed.old)
        (reports_of first.new last.new needed.new) result }
{
    if exponent > morton::LIMIT {
        return Err(Refusal::AboveFifteen);
    }
    // No sound tree has more nodes, so no more are looked at.
    let many = nodes.keys.len().min(65537);
    let leaves = spans::leaves_in(nodes.keys.len());
    if !have_room(leaves, exponent, first, last, needed) {
        return Err(Refusal::ReportShort);
    }
    let slabs = 1 << exponent;
    Ok(report(
        nodes,
        many,
        exponent,
        &mut first[..leaves],
        &mut last[..leaves],
        &mut needed[..slabs],
    ))
}

// Nothing to do: a proof knows of a parameter that its numbers fit 16 bits, and not of a slice in a struct.
// Kept: the twin of the one in `spans`; as one public function it would owe edits, and a body that does nothing can't be made wrong.
fn have_16_bits(firsts: &[u16])
    ensures { EachIndex firsts.now (λ i. slice_index firsts.now i < 2 ^ 16) }
{}

// For each leaf of a sound tree, in the order of the leaf table, the first and the last slab at which a dual cell of a listed vertex needs it; for each of the 2^exponent
// slabs how many leaves are needed at it; and the greatest such number.
pub fn lifetimes(
    tree: &Tree,
    exponent: u32,
    first: &mut [u32],
    last: &mut [u32],
    needed: &mut [u32],
) -> Result<u32, Refusal>
    ensures { LifetimesSays (the_tree tree.now) exponent
        (reports_of first.old last.old needed.old) (reports_of first.new last.new needed.new) result }
{
    if !tree.sound() {
        return Err(Refusal::NotSound);
    }
    have_16_bits(tree.nodes.firsts);
    lifetimes_trusting(&tree.nodes, exponent, first, last, needed)
}
