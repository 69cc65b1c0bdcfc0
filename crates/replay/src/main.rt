#![tactic(auto)]
// Replays the sample's lines of key operations and of builds, and counts the lines that agree. The sample is the oracle's answers,
// written by tools/sample.
use build::{Answer, Lengths, Request, State, Tables};
use morton::{Key, Vec3};
use refusals::Refusal;
use sample::{Line, Op};
use std::io;

fn same_key(answer: Result<Key, Refusal>, l: Line) -> bool {
    sample::same(answer, l, |k| sample::first_is(l, k.code))
}

fn is_point(p: Vec3, l: Line) -> bool {
    sample::is_float(p.x, l.x) && sample::is_float(p.y, l.y) && sample::is_float(p.z, l.z)
}

// A line of keys.
fn key_agrees(op: Op, l: Line) -> bool {
    let k = Key { code: l.a };
    match op {
        Op::Level => u64::from(k.level()) == l.x,
        Op::IsCell => u64::from(k.is_cell()) == l.x,
        Op::Parent => k.parent().code == l.x,
        Op::Child => same_key(k.child(l.low_b), l),
        Op::Add => k.add(Key { code: l.b }).code == l.x,
        Op::Sub => k.sub(Key { code: l.b }).code == l.x,
        Op::HalfSize => sample::same(k.half_size(), l, |h| sample::is_float(h, l.x)),
        Op::Centre => sample::same(k.centre(), l, |p| is_point(p, l)),
        Op::Vertex => same_key(k.vertex(l.low_b, l.low_c), l),
        Op::IsInner => u64::from(k.is_inner(l.low_b)) == l.x,
        Op::Side => same_key(k.side(l.low_b, l.low_c), l),
        Op::ShouldRefine => {
            u64::from(morton::should_refine(l.low_b, l.low_c, sample::float(l.a))) == l.x
        }
        _ => false,
    }
}

fn same_request(r: Request, l: Line) -> bool {
    sample::is_float(r.x, l.y)
        && sample::is_float(r.y, l.y >> 32)
        && sample::is_float(r.z, l.z)
        && sample::is_float(r.half, l.z >> 32)
        && sample::first_is(l, r.key)
}

// The tables of the build at hand, and its state.
#[derive(Drop)]
struct Build {
    keys: [u64; 1024],
    distances: [f32; 1024],
    firsts: [u16; 1024],
    leaves: [u64; 1024],
    queue: [u64; 1024],
    state: State,
}

impl Build {
    fn new() -> Build {
        Build {
            keys: [0; 1024],
            distances: [0.0; 1024],
            firsts: [0; 1024],
            leaves: [0; 1024],
            queue: [0; 1024],
            state: State {
                bound: 0,
                nodes: 0,
                leaves: 0,
                asked: 0,
                lengths: Lengths {
                    keys: 0,
                    distances: 0,
                    firsts: 0,
                    leaves: 0,
                    queue: 0,
                },
            },
        }
    }

    // A build that is finished asks for the key 0; one that is refused stays as it was.
    fn goes_on(&mut self, answer: Result<Answer, Refusal>, l: Line) -> bool {
        if let Ok(Answer::Ask(_, s) | Answer::Finished(s)) = answer {
            self.state = s;
        }
        sample::same(answer, l, |a| match a {
            Answer::Ask(r, _) => same_request(r, l),
            Answer::Finished(_) => sample::first_is(l, 0),
        })
    }

    // Begins over tables that are all 0, the queue as long as A says above its bound and the others as B says.
    fn start(&mut self, l: Line) -> bool {
        self.keys = [0; 1024];
        self.distances = [0.0; 1024];
        self.firsts = [0; 1024];
        self.leaves = [0; 1024];
        self.queue = [0; 1024];
        let lengths = Lengths {
            keys: sample::length_at(l.b, 0, 1024),
            distances: sample::length_at(l.b, 1, 1024),
            firsts: sample::length_at(l.b, 2, 1024),
            leaves: sample::length_at(l.b, 3, 1024),
            queue: sample::length_at(l.a, 2, 1024),
        };
        let bound = sample::low(l.a);
        self.goes_on(build::start(bound, lengths), l)
    }

    fn distance(&mut self, l: Line) -> bool {
        let Build {
            keys,
            distances,
            firsts,
            leaves,
            queue,
            state,
        } = self;
        let keys: &mut [u64] = keys;
        let distances: &mut [f32] = distances;
        let firsts: &mut [u16] = firsts;
        let leaves: &mut [u64] = leaves;
        let queue: &mut [u64] = queue;
        let lengths = state.lengths;
        let a = lengths.keys.min(keys.len());
        let b = lengths.distances.min(distances.len());
        let c = lengths.firsts.min(firsts.len());
        let d = lengths.leaves.min(leaves.len());
        let e = lengths.queue.min(queue.len());
        let mut tables = Tables {
            keys: &mut keys[..a],
            distances: &mut distances[..b],
            firsts: &mut firsts[..c],
            leaves: &mut leaves[..d],
            queue: &mut queue[..e],
        };
        let answer = build::distance(*state, &mut tables, sample::float(l.a));
        self.goes_on(answer, l)
    }

    fn has_keys(&self, l: Line) -> bool {
        let at = l.a as usize;
        self.keys.get(at).copied().unwrap_or(0) == l.x
            && self.leaves.get(at).copied().unwrap_or(0) == l.y
            && self.queue.get(at).copied().unwrap_or(0) == l.z
    }

    fn has_node(&self, l: Line) -> bool {
        let at = l.a as usize;
        let distance = self.distances.get(at).copied().unwrap_or(0.0);
        let first = self.firsts.get(at).copied().unwrap_or(0);
        sample::is_float(distance, l.x) && u64::from(first) == l.y
    }

    fn agrees(&mut self, l: Line) -> bool {
        let Some(op) = Op::of(l.op) else {
            return false;
        };
        match op {
            Op::Start => self.start(l),
            Op::Distance => self.distance(l),
            Op::KeysAt => self.has_keys(l),
            Op::NodeAt => self.has_node(l),
            _ => key_agrees(op, l),
        }
    }
}

fn main(rt: HostRuntime) -> io::Result<()> {
    let mut build = Build::new();
    let tally = sample::replay(&mut rt.stdin(), |l| build.agrees(l))?;
    let mut output = rt.stdout();
    for (name, op) in [
        ("level", Op::Level),
        ("is_cell", Op::IsCell),
        ("parent", Op::Parent),
        ("child", Op::Child),
        ("add", Op::Add),
        ("sub", Op::Sub),
        ("half_size", Op::HalfSize),
        ("centre", Op::Centre),
        ("vertex", Op::Vertex),
        ("is_inner", Op::IsInner),
        ("side", Op::Side),
        ("should_refine", Op::ShouldRefine),
        ("start", Op::Start),
        ("distance", Op::Distance),
        ("keys at a place", Op::KeysAt),
        ("distance at a place", Op::NodeAt),
    ] {
        sample::show(&mut output, name, tally.agreeing(op))?;
    }
    sample::show(&mut output, "differ", tally.differ)
}
