#![tactic(auto)]
// From which slab to which slab each leaf of a tree is needed, over all its dual cells. Ours: the Rust frees nothing.
ghost use Rattle.std.specs.Prelude.{◌≡◌, ℕ, ◌+◌, ◌*◌, ◌%◌, ◌^◌, ◌<◌, ◌≤◌, min, ◌++◌, length, get_or};
ghost use Rattle.morton.specs.Level.{limit};
ghost use Rattle.tree.specs.Down.{the_nodes};
ghost use Rattle.vertices.specs.Walk.{spots_of};
ghost use Rattle.vertices.specs.Cells.{places_of};
ghost use Rattle.spans.specs.Trusted.{nodes_in, leaves_of, TrustedSpans, SpansSays};
ghost use Rattle.spans.specs.Tables.{Same};
ghost use Rattle.spans.specs.Steps.{Small, Raised, own, SlabsPut, SmallSlabs, Ready, Reach, RaiseSays, AllRaised, Inside, AllSmall, Widens, Prepared, Takes, Gathered, AllUnpacked};

use refusals::Refusal;
use tree::Nodes;

// No sound tree has more than 65,537 nodes, so no more are looked at.
fn nodes_in(length: usize) -> usize
    ensures { result ≡ min length 65537 }
{
    length.min(65537)
}

// How many leaves a sound tree of so many nodes has.
pub fn leaves_in(length: usize) -> usize
    ensures { result ≡ leaves_of (min length 65537) }
{
    let nodes = nodes_in(length);
    nodes - nodes.saturating_sub(1) / 8
}

// ---- the tables

// While the cells are gone over, both tables are one memory. Its place p has a word of the node at place p, since nodes are many more than leaves, but not twice as
// many: in its lower half the highest slab so far, in its upper half 32,767 less the lowest, and 0 before any. After these words come the nodes' slabs, one for each
// four siblings, which lie equally high.

// How many nodes are looked at, and both tables, which are as long as there are leaves.
// Kept: how long both tables are is asked for by clauses, since the borrow check covers no ghost field beside a `&mut`.
#[derive(Drop)]
struct Tables<'a> {
    many: usize,
    first: &'a mut [u32],
    last: &'a mut [u32],
}

// The highest slab of all, since no more than 2^15 are cut.
const HIGHEST: u32 = 32767;

// What a word's upper half is multiplied by.
const UPPER: u32 = 65536;

// The top bit of each half of a word.
const TOP_BITS: u32 = 0x8000_8000;

// How many vertices are asked for at a time: so many that beginning anew at the root costs little, and so few that they fit on the stack.
const BATCH: usize = 128;

// Takes down the slab of each four siblings.
fn put_slabs(nodes: &Nodes, many: usize, exponent: u32, last: &mut [u32])
    requires { (many ≡ nodes_in (the_nodes nodes.now)) × (exponent ≤ limit) × (length last.old ≡ leaves_of many) }
    ensures { SlabsPut (the_nodes nodes.now) exponent many last.old last.new }
{
    let over = many - last.len();
    if many > 0 {
        last[over] = slabs::slab_at(nodes.keys[0], exponent);
    }
    for place in (1..many).step_by(4) {
        last[over + (place + 3) / 4] = slabs::slab_at(nodes.keys[place], exponent);
    }
}

// The greater of each half by itself. Without a comparison, of which the compiler would make branches that can't be foreseen: the top bit of a half of `over` tells
// whether `a` has the greater there.
fn raised(a: u32, b: u32) -> u32
    requires { Small a × Small b }
    ensures { Raised a b result }
{
    let over = a + TOP_BITS - b;
    let sign = over & TOP_BITS;
    b + (over & (sign - sign / 32768))
}

// Does nothing: of a slice in a struct no proof knows how large its numbers are, of a parameter it does.
// Kept: the twin of the one in `lifetimes`, which says why.
fn have_16_bits(firsts: &[u16])
    ensures { (i : ℕ) → get_or firsts.now i 0 < 2 ^ 16 }
{}

// Takes a word over for the leaf of a number, and answers the next number; where the node has a child, the next one takes its place.
fn take_over(first: &mut [u32], number: usize, word: u32, child: usize) -> usize
    ensures { Takes first.old number word child first.new result }
{
    if number < first.len() {
        first[number] = word;
        if child == 0 {
            return number + 1;
        }
    }
    number
}

impl Tables<'_> {
    // The memory before any cell.
    fn prepare(&mut self, nodes: &Nodes, exponent: u32)
        requires many_value { (self.old.many ≡ nodes_in (the_nodes nodes.now)) × (exponent ≤ limit) }
        requires first_len { (length self.old.first.now ≡ leaves_of self.old.many) × (length self.old.last.now ≡ leaves_of self.old.many) }
        ensures same { Same self.old self.new }
        ensures prepared { Prepared (the_nodes nodes.now) exponent self.new.first.now self.new.last.now }
    {
        self.first.fill(0);
        self.last.fill(0);
        put_slabs(nodes, self.many, exponent, self.last);
    }

    // ---- the cells

    // From which slab to which the nodes of four places of a table lie; as in a node's word.
    fn reach_of_four(&self, places: &[usize], from: usize) -> u32
        requires last_len { (length self.now.last.now ≡ leaves_of self.now.many)
            × (from + 4 ≤ length places.now) × Inside self.now.many places.now }
        requires small_slabs { SmallSlabs self.now.many self.now.last.now }
        ensures { Reach (own self.now.many self.now.last.now) places.now from 4 result }
    {
        let over = self.many - self.last.len();
        let mut low = HIGHEST;
        let mut high: u32 = 0;
        for o in 0..4 {
            let slab = self.last[over + (places[from + o] + 3) / 4];
            low = low.min(slab);
            high = high.max(slab);
        }
        UPPER * (HIGHEST - low) + high
    }

    // The same of a cell: its nodes below the vertex and those above it, since of a longer row of comparisons the compiler makes branches too.
    fn reach_of_cell(&self, places: &[usize], at: usize) -> u32
        requires last_len { (length self.now.last.now ≡ leaves_of self.now.many)
            × (8 * at + 8 ≤ length places.now) × Inside self.now.many places.now }
        requires small_slabs { SmallSlabs self.now.many self.now.last.now }
        ensures { Reach (own self.now.many self.now.last.now) places.now (8 * at) 8 result }
    {
        raised(
            self.reach_of_four(places, 8 * at),
            self.reach_of_four(places, 8 * at + 4),
        )
    }

    // Raises the word of the node at a place.
    fn raise(&mut self, place: usize, reach: u32)
        requires room { place < length self.old.first.now + length self.old.last.now }
        requires small { Small (get_or (self.old.first.now ++ self.old.last.now) place 0) × Small reach }
        ensures same { Same self.old self.new }
        ensures raised { RaiseSays place reach self.old.first.now self.old.last.now self.new.first.now self.new.last.now }
    {
        if place < self.first.len() {
            self.first[place] = raised(self.first[place], reach);
        } else {
            let at = place - self.first.len();
            self.last[at] = raised(self.last[at], reach);
        }
    }

    // The same for each node of a cell.
    fn raise_all(&mut self, places: &[usize], at: usize, reach: u32)
        requires ready { Ready self.old.many self.old.first.now self.old.last.now × Small reach }
        requires at_in_bounds { (8 * at + 8 ≤ length places.now) × Inside self.old.many places.now }
        ensures same { Same self.old self.new }
        ensures raised { AllRaised places.now at 8 reach self.old.first.now self.old.last.now self.new.first.now self.new.last.now }
    {
        for o in 0..8 {
            self.raise(places[8 * at + o], reach);
        }
    }

    // Goes over some cells, whose eight places each stand in a table.
    fn widen(&mut self, places: &[usize])
        requires ready { Ready self.old.many self.old.first.now self.old.last.now }
        requires whole_cells { (length places.now % 8 ≡ 0) × Inside self.old.many places.now }
        ensures same { Same self.old self.new }
        ensures widens { Widens self.old.many places.now self.old.first.now self.old.last.now self.new.first.now self.new.last.now }
    {
        for at in 0..places.len() / 8 {
            let reach = self.reach_of_cell(places, at);
            self.raise_all(places, at, reach);
        }
    }

    // Goes over the cells of all vertices.
    // Kept: the like of the one in `lifetimes`, which says why.
    fn go_over(&mut self, nodes: &Nodes)
        requires many_value { self.old.many ≡ nodes_in (the_nodes nodes.now) }
        requires ready { Ready self.old.many self.old.first.now self.old.last.now }
        ensures same { Same self.old self.new }
        ensures widens { Widens self.old.many (places_of (the_nodes nodes.now) (spots_of (the_nodes nodes.now)))
            self.old.first.now self.old.last.now self.new.first.now self.new.last.now }
    {
        let mut vertices = [0u64; BATCH];
        let mut levels = [0u8; BATCH];
        let mut places = [0usize; 8 * BATCH];
        let mut from: u64 = 0;
        have_16_bits(nodes.firsts);
        // Kept: how many batches come is known once one isn't full.
        loop {
            let came = vertices::cells_trusting(
                nodes,
                from,
                &mut vertices,
                &mut levels,
                &mut places,
            );
            self.widen(&places[..8 * came]);
            if came < BATCH {
                return;
            }
            from = vertices[BATCH - 1] + 1;
        }
    }

    // ---- the leaves

    // The word of the node at a place.
    fn word_at(&self, place: usize) -> u32
        requires { place < length self.now.first.now + length self.now.last.now }
        ensures { result ≡ get_or (self.now.first.now ++ self.now.last.now) place 0 }
    {
        if place < self.first.len() {
            return self.first[place];
        }
        self.last[place - self.first.len()]
    }

    // The leaves' words in the order of the leaves; how many there are.
    fn gather(&mut self, nodes: &Nodes) -> usize
        requires { (length self.old.first.now ≡ leaves_of self.old.many) × (length self.old.last.now ≡ leaves_of self.old.many) }
        ensures same { Same self.old self.new }
        ensures last { self.new.last.now ≡ self.old.last.now }
        ensures gathered { Gathered nodes.now.firsts.now self.old.many (self.old.first.now ++ self.old.last.now)
            self.old.first.now self.new.first.now result }
    {
        let mut number: usize = 0;
        for place in 0..self.many {
            let word = self.word_at(place);
            number = take_over(self.first, number, word, nodes.first_at(place));
        }
        number
    }

    // First and last slab of each leaf, from the words.
    fn unpack(&mut self)
        requires as_long { length self.old.first.now ≡ length self.old.last.now }
        requires small_words { AllSmall self.old.first.now }
        ensures same { Same self.old self.new }
        ensures unpacked { AllUnpacked self.old.first.now self.old.last.now self.new.first.now self.new.last.now }
    {
        for i in 0..self.first.len() {
            let a = HIGHEST - self.first[i] / UPPER;
            let b = self.first[i] % UPPER;
            if b < a {
                self.first[i] = 1;
                self.last[i] = 0;
            } else {
                self.first[i] = a;
                self.last[i] = b;
            }
        }
    }

    // ---- all of it

    // The spans.
    fn report(&mut self, nodes: &Nodes, exponent: u32)
        requires many_value { (self.old.many ≡ nodes_in (the_nodes nodes.now)) × (exponent ≤ limit) }
        requires first_len { (length self.old.first.now ≡ leaves_of self.old.many) × (length self.old.last.now ≡ leaves_of self.old.many) }
        ensures same { Same self.old self.new }
        ensures spans { TrustedSpans (the_nodes nodes.now) exponent self.new.first.now self.new.last.now }
    {
        self.prepare(nodes, exponent);
        self.go_over(nodes);
        let leaves = self.gather(nodes);
        self.first[leaves..].fill(0);
        self.unpack();
    }
}

// ---- the call

// The spans, in tables that are as long as there are leaves.
// Kept: the tables one by one, since of a part of a slice that is lent in a struct no proof knows what it becomes, but of a parameter it does.
fn spans_in(nodes: &Nodes, exponent: u32, first: &mut [u32], last: &mut [u32])
    requires small_exponent { exponent ≤ limit }
    requires first_len { length first.old ≡ leaves_of (nodes_in (the_nodes nodes.now)) }
    requires last_len { length last.old ≡ leaves_of (nodes_in (the_nodes nodes.now)) }
    ensures { TrustedSpans (the_nodes nodes.now) exponent first.new last.new }
{
    let many = nodes_in(nodes.keys.len());
    let mut tables = Tables { many, first, last };
    tables.report(nodes, exponent);
}

// First and last slab of each leaf. Refused, with both tables as they were, where the exponent is above 15, or else where a table has no place for each leaf.
pub fn spans(
    nodes: &Nodes,
    exponent: u32,
    first: &mut [u32],
    last: &mut [u32],
) -> Result<(), Refusal>
    ensures { SpansSays (the_nodes nodes.now) exponent first.old last.old first.new last.new result }
{
    if exponent > morton::LIMIT {
        return Err(Refusal::AboveFifteen);
    }
    let leaves = leaves_in(nodes.keys.len());
    if first.len() < leaves || last.len() < leaves {
        return Err(Refusal::ReportShort);
    }
    spans_in(nodes, exponent, &mut first[..leaves], &mut last[..leaves]);
    Ok(())
}
