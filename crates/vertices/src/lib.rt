#![tactic(auto)]
// The vertices of a finished tree. From `compute_primal_vertices` in src/linear_hashed_marching_cubes.rs of isosurface 0.0.4.
ghost use Rattle.std.specs.Prelude.{◌≡◌, true, false, ◌+◌, ◌-◌, ◌*◌, ◌/◌, ◌^◌, ◌<◌, ◌≤◌, length, get_or};
ghost use Rattle.morton.specs.Level.{limit, Cell};
ghost use Rattle.morton.specs.Field.{sub};
ghost use Rattle.tree.specs.Tree.{the_tree, Decides};
ghost use Rattle.vertices.specs.Walk.{divided, low_corner, walked, spots_of, most_of};
ghost use Rattle.std.proofs.lemmas.List.Edits.{sets};
ghost use Rattle.vertices.specs.Listing.{lists_of, ListSays, TrustingSays};
ghost use Rattle.vertices.specs.Cells.{eight, cells_of, CellsSays};
ghost use Rattle.tree.specs.Down.{the_nodes};
ghost use Rattle.vertices.specs.Block.{seen_by, kept_by, marked, Here, Small, ChildlessSays, ChildMarks, BelowMarks, SeenSays, LoweredMarks, Touched, the_cells, SameOut, PutSays, RoundSays, Laid, Near, Each16, lowered_place, LoweredAt, Stored, TakeSays, Skipped};

use morton::Key;
use refusals::Refusal;
use tree::{Nodes, Tree};

// The walk goes over the cells from the root down (specs/Walk.antt), and so finds the vertices in order. It carries the block of a cell: its eight entries.
// Where no entry is split, the walk ends: the cell's low corner is listed, or nothing is.

// A cell, with its level.
#[derive(Clone, Copy)]
struct Cube {
    level: u8,
    cell: u64,
    ghost shallow: { level ≤ limit },
    ghost key: { Cell level cell },
}

// The block of a cell: where its eight entries stand, of a split one where its first child does; a mask of those that are split, bit o being set where
// entry o has the cell's own level and children; and three bits for the axes on which the cell lies at the cube's low side.
#[derive(Drop)]
struct Block {
    cube: Cube,
    at: [u32; 8],
    mask: u64,
    low: usize,
    ghost near: { Near at },
}

// Which vertices are wanted: those from a number on, up to so many places.
#[derive(Clone, Copy)]
struct Wanted {
    from: u64,
    room: usize,
}

// The tables that the walk writes.
#[derive(Drop)]
struct Out<'a> {
    vertices: &'a mut [u64],
    levels: &'a mut [u8],
    places: &'a mut [usize],
}

// Whether bit i of a mask is set.
#[tactic(auto, unfolding(crate::specs::Block::marked))]
fn marked(mask: u64, i: usize) -> bool
    requires { i < 64 }
    ensures { result ≡ marked mask i }
{
    (mask >> i) % 2 == 1
}

// Whether no first child stands at eight places from one on: they are read all at once, so that most split nodes, whose children are leaves, cost little.
fn childless(firsts: &[u16], place: usize) -> bool
    requires { place ≤ 2 ^ 62 }
    ensures { ChildlessSays firsts.now place result }
{
    if firsts.len() < place + 8 {
        return false;
    }
    // Kept: no `all`, which would end at the first one that stands.
    let mut any = 0u16;
    for w in 0..8 {
        any |= firsts[place + w];
    }
    any == 0
}

// Which children of a node are split themselves, the first of them standing at a place.
fn split_children(nodes: &Nodes, first: usize, node: u64) -> u64
    requires { (first ≤ 2 ^ 62) × (node < 2 ^ 57) }
    ensures { ChildMarks (the_nodes nodes.now) first node result }
{
    if childless(nodes.firsts, first) {
        return 0;
    }
    let mut mask = 0;
    for w in 0..8 {
        let below = nodes.first_at(first + w);
        if nodes.leads(below, 64 * node + 8 * w as u64) {
            mask += 1 << w;
        }
    }
    mask
}

// The cell that lies o lower.
fn lower_cell(cell: u64, o: usize) -> u64
    ensures { result ≡ sub cell o }
{
    let by = Key { code: o as u64 };
    Key { code: cell }.sub(by).code
}

// Which children of the parent's entries the entries of child q are, eight bits for each of the parent's.
// Kept: a choice, of which the compiler makes a table in read-only memory, and of which each case is proved by itself; a `static` array says no more.
fn seen_by(q: usize) -> u64
    requires { q < 8 }
    ensures { result ≡ seen_by q }
{
    match q {
        0 => 0x8040201008040201,
        1 => 0xc00030000c0003,
        2 => 0xa05000000a05,
        3 => 0xf00000000f,
        4 => 0x88442211,
        5 => 0xcc0033,
        6 => 0xaa55,
        _ => 0xff,
    }
}

// The bits of the entries' split children that child q sees. Where there are none, as for most children, its own mask is 0.
fn seen(below: u64, q: usize) -> u64
    requires { q < 8 }
    ensures { SeenSays below q result }
{
    below & seen_by(q)
}

// The mask of child q.
fn lower_mask(below: u64, q: usize) -> u64
    requires { q < 8 }
    ensures { LoweredMarks below q result }
{
    if seen(below, q) == 0 {
        return 0;
    }
    let mut out = 0;
    for o in 0..8 {
        if marked(below, 8 * (o & (7 - q)) + (q ^ o)) {
            out += 1 << o;
        }
    }
    out
}

// Which of the parent's entries the entries of child q lie in: those that are lower on no axis on which q is higher. A choice, as `seen_by`.
fn kept_by(q: usize) -> u64
    requires { q < 8 }
    ensures { result ≡ kept_by q }
{
    match q {
        0 => 255,
        1 => 85,
        2 => 51,
        3 => 17,
        4 => 15,
        5 => 5,
        6 => 3,
        _ => 1,
    }
}

impl Cube {
    // The low corner.
    fn low_corner(self) -> u64
        ensures { result ≡ low_corner self.level self.cell }
    {
        self.cell << (63 - self.level * 3)
    }

    // Whether all vertices of the cell are less than a number.
    fn passed(self, from: u64) -> bool
        ensures { Decides result (low_corner self.level (self.cell + 1) ≤ from) }
    {
        from >> (63 - self.level * 3) > self.cell
    }

    // Whether the cell has nothing that is wanted and has room.
    fn skipped(self, wanted: &Wanted, n: usize) -> bool
        ensures { Decides result (Skipped self.level self.cell wanted.now.from n wanted.now.room) }
    {
        n >= wanted.room || self.passed(wanted.from)
    }
}

impl Block {
    // Which children of each split entry are split themselves, eight bits for each entry: it is the cell that lies that way.
    fn split_below(&self, nodes: &Nodes) -> u64
        requires { Small self.now.cube.cell self.now.mask }
        ensures { BelowMarks (the_nodes nodes.now) self.now.cube.cell self.now.at self.now.mask result }
    {
        let mut below = 0;
        for o in 0..8 {
            if marked(self.mask, o) {
                let cell = lower_cell(self.cube.cell, o);
                below += split_children(nodes, self.at[o] as usize, cell) << (8 * o);
            }
        }
        below
    }

    // Whether the low corner of child q is listed, where none of its entries is split.
    fn touched(&self, q: usize) -> bool
        requires { (q < 8) × (self.now.mask < 2 ^ 8) }
        ensures { Decides result (Touched self.now.low self.now.mask q) }
    {
        self.low & (7 - q) == 0 && self.mask & kept_by(q) != 0
    }

    // The place of entry o of child q.
    fn lower_place(&self, q: usize, o: usize) -> u32
        requires { (q < 8) × (o < 8) }
        ensures { result ≡ lowered_place self.now.at self.now.mask q o }
    {
        let i = o & (7 - q);
        if marked(self.mask, i) {
            return self.at[i] + (q ^ o) as u32;
        }
        self.at[i]
    }

    // Writes the places of child q's entries, for the vertex at a place.
    fn put_places(&self, q: usize, places: &mut [usize], n: usize)
        requires { (q < 8) × (8 * n + 8 ≤ length places.old) }
        ensures { places.new ≡ sets places.old (8 * n) (eight (lowered_place self.now.at self.now.mask q)) }
    {
        for o in 0..8 {
            places[8 * n + o] = self.lower_place(q, o) as usize;
        }
    }

    // The same if the table has room for them.
    fn put_round(&self, q: usize, places: &mut [usize], n: usize)
        requires { q < 8 }
        ensures { RoundSays places.old n (eight (lowered_place self.now.at self.now.mask q)) places.new }
    {
        if n < places.len() / 8 {
            self.put_places(q, places, n);
        }
    }

    // The places of child q's entries, whose mask is known; of the split ones, those of their first children.
    fn lower_at(&self, nodes: &Nodes, q: usize, mask: u64) -> [u32; 8]
        requires { (q < 8) × Each16 nodes.now.firsts.now }
        ensures { LoweredAt nodes.now.firsts.now self.now.at self.now.mask mask q result }
    {
        let mut out = [0u32; 8];
        for o in 0..8 {
            let place = self.lower_place(q, o);
            if marked(mask, o) {
                out[o] = nodes.first_at(place as usize) as u32;
            } else {
                out[o] = place;
            }
        }
        out
    }
}

// Writes a vertex and its level at a place, if both tables have it.
fn put(vertices: &mut [u64], levels: &mut [u8], at: usize, vertex: u64, level: u8)
    ensures { PutSays vertices.old levels.old at vertex level vertices.new levels.new }
{
    if at < vertices.len() && at < levels.len() {
        vertices[at] = vertex;
        levels[at] = level;
    }
}

// Whether n places from a start place on lie in a table.
fn has_room(len: usize, start: usize, n: usize) -> bool
    ensures { Decides result (start + n ≤ len) }
{
    start <= len && n <= len - start
}

impl Out<'_> {
    // Writes the low corner of child q of a block, with its level and the places round it, unless it is less than a number, each in a table that has room;
    // the place after it.
    fn take(&mut self, from: u64, block: &Block, q: usize, child: Cube, n: usize) -> usize
        requires { (q < 8) × (n + 1 < 2 ^ 64) }
        ensures same { SameOut self.old self.new }
        ensures took { TakeSays from (low_corner child.level child.cell) child.level n (eight (lowered_place block.now.at block.now.mask q))
            (the_cells self.old) (the_cells self.new) result }
    {
        let vertex = child.low_corner();
        if vertex < from {
            return n;
        }
        put(self.vertices, self.levels, n, vertex, child.level);
        block.put_round(q, self.places, n);
        n + 1
    }
}

// Writes the wanted vertices of a divided cell from place n on, up to so many; the place after the last.
fn gather(nodes: &Nodes, wanted: &Wanted, block: &Block, out: &mut Out, n: usize) -> usize
    requires here { Here (the_nodes nodes.now) block.now.cube.level block.now.cube.cell block.now.at block.now.mask block.now.low }
    requires cell_value { divided (the_nodes nodes.now) block.now.cube.level block.now.cube.cell ≡ true }
    requires n_le_room { (n ≤ wanted.now.room) × (block.now.cube.level < limit) × Each16 nodes.now.firsts.now }
    ensures same { SameOut out.old out.new }
    ensures stored { Stored (the_nodes nodes.now) wanted.now.from wanted.now.room
        (walked (limit - block.now.cube.level) (the_nodes nodes.now) block.now.cube.level block.now.cube.cell) n result (the_cells out.old)
        (the_cells out.new) }
{
    let below = block.split_below(nodes);
    // By themselves, so that they aren't read anew after each write to the tables.
    let Cube { level, cell } = block.cube;
    let mut m = n;
    for q in 0..8 {
        let child = Cube {
            level: level + 1,
            cell: 8 * cell + q as u64,
        };
        if child.skipped(wanted, m) {
            continue;
        }
        let mask = lower_mask(below, q);
        if mask == 0 {
            if block.touched(q) {
                m = out.take(wanted.from, block, q, child, m);
            }
        } else if u32::from(child.level) < morton::LIMIT {
            let lowered = Block {
                cube: child,
                at: block.lower_at(nodes, q, mask),
                mask,
                low: block.low & (7 - q),
            };
            m = gather(nodes, wanted, &lowered, out, m);
        }
    }
    m
}

// What the table of first children says of the root; 0 if it is empty. That each of its numbers has 16 bits is known here, where it is lent by itself.
fn root_child(firsts: &[u16]) -> u32
    ensures value { result ≡ get_or firsts.now 0 0 }
    ensures each { Each16 firsts.now }
{
    u32::from(firsts.first().copied().unwrap_or(0))
}

// The vertices of the whole tree from a number on, up to so many.
fn from_root(nodes: &Nodes, wanted: &Wanted, out: &mut Out) -> usize
    ensures same { SameOut out.old out.new }
    ensures stored { Stored (the_nodes nodes.now) wanted.now.from wanted.now.room (spots_of (the_nodes nodes.now)) 0 result (the_cells out.old) (the_cells out.new) }
{
    let first = root_child(nodes.firsts);
    if nodes.leads(first as usize, 8) {
        // The root is alone in its block, and at all three sides.
        let block = Block {
            cube: Cube { level: 0, cell: 1 },
            at: [first, 0, 0, 0, 0, 0, 0, 0],
            mask: 1,
            low: 7,
        };
        return gather(nodes, wanted, &block, out, 0);
    }
    0
}

// Lists the whole tree from the tables' first place on; the number of its vertices.
fn whole(nodes: &Nodes, vertices: &mut [u64], levels: &mut [u8]) -> usize
    ensures { Laid (spots_of (the_nodes nodes.now)) 0 result vertices.old levels.old vertices.new levels.new }
{
    let mut out = Out {
        vertices,
        levels,
        places: &mut [],
    };
    let every = Wanted {
        from: 0,
        room: 0x4000000000000000,
    };
    from_root(nodes, &every, &mut out)
}

// No tree of so many keys has more vertices, nor do tables that hold none: each vertex is one of the 19 middles of a split cell, and each split cell
// has eight keys of its own below the root.
#[tactic(auto, unfolding(crate::specs::Walk::most_of))]
fn most_vertices(keys: usize) -> usize
    requires { keys ≤ 2 ^ 61 }
    ensures { result ≡ most_of keys }
{
    19 * (keys.saturating_sub(1) / 8)
}

// Whether the list has room in tables of so many places. Only where there is less room than for the most vertices that there can be are they counted,
// into no tables.
fn list_has_room(nodes: &Nodes, start: usize, len: usize) -> bool
    ensures { Decides result (start + length (spots_of (the_nodes nodes.now)) ≤ len) }
{
    if has_room(len, start, most_vertices(nodes.keys.len())) {
        return true;
    }
    let n = whole(nodes, &mut [], &mut []);
    has_room(len, start, n)
}

// Kept: no plainer. Of the tables that are lent to this call and the next two a caller would make a struct for the one call, and each promise would say besides
// that it holds the same tables.

// The list of a tree's vertices, written from a start place on, for one who knows that the tree is sound; of other tables, what the same walk comes
// to.
pub fn list_trusting(
    nodes: &Nodes,
    start: usize,
    vertices: &mut [u64],
    levels: &mut [u8],
) -> Result<usize, Refusal>
    ensures { TrustingSays (the_nodes nodes.now) start (lists_of vertices.old levels.old) (lists_of vertices.new levels.new) result }
{
    let len = vertices.len().min(levels.len());
    if !list_has_room(nodes, start, len) {
        return Err(Refusal::ListFull);
    }
    let n = whole(nodes, &mut vertices[start..], &mut levels[start..]);
    Ok(n)
}

// The list of a sound tree's vertices, written from a start place on.
pub fn list(
    tree: &Tree,
    start: usize,
    vertices: &mut [u64],
    levels: &mut [u8],
) -> Result<usize, Refusal>
    ensures { ListSays (the_tree tree.now) start (lists_of vertices.old levels.old) (lists_of vertices.new levels.new) result }
{
    if !tree.sound() {
        return Err(Refusal::NotSound);
    }
    list_trusting(&tree.nodes, start, vertices, levels)
}

// The vertices from a number on, as many as have room, each with its level and the places of the eight nodes of its dual cell; how many there are. For
// one who knows that the tree is sound; of other tables, what the same walk comes to.
pub fn cells_trusting(
    nodes: &Nodes,
    from: u64,
    vertices: &mut [u64],
    levels: &mut [u8],
    places: &mut [usize],
) -> usize
    ensures { CellsSays (the_nodes nodes.now) from (cells_of vertices.old levels.old places.old)
        (cells_of vertices.new levels.new places.new) result }
{
    let pairs = vertices.len().min(levels.len());
    let wanted = Wanted {
        from,
        room: pairs.min(places.len() / 8),
    };
    let mut out = Out {
        vertices,
        levels,
        places,
    };
    from_root(nodes, &wanted, &mut out)
}
