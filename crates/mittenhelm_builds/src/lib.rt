#![tactic(auto)]
// The boundary for hosts, builds: numbers and slices only. mittenhelm_builds_c exports them to C.
ghost use Rattle.std.specs.Prelude.{◌≡◌, ◌≤◌, length, get_or};
ghost use Rattle.morton.specs.Level.{limit};
ghost use Rattle.build.specs.Build.{tables_of};
ghost use Rattle.mittenhelm_builds.specs.Words.{state_of, words_of, request_at, reply, hand_over, start_replies, effect, distance_effect};

use build::{Answer, Lengths, State, Tables};
use refusals::Refusal;

// Kept: nine words, and none of them typed: the C interface.
// The state that nine words hold. Its bound fits a `u32`: one above the limit was refused before.
fn read_state(words: &[u64]) -> State
    requires { (length words.now ≡ 9) × (get_or words.now 0 0 ≤ limit) }
    ensures { result ≡ state_of words.now }
{
    State {
        bound: words[0] as u32,
        nodes: words[1] as usize,
        leaves: words[2] as usize,
        asked: words[3],
        lengths: Lengths {
            keys: words[4] as usize,
            distances: words[5] as usize,
            firsts: words[6] as usize,
            leaves: words[7] as usize,
            queue: words[8] as usize,
        },
    }
}

// Kept: nine words again: the C interface.
fn write_state(words: &mut [u64], s: State)
    requires { length words.old ≡ 9 }
    ensures { words.new ≡ words_of s }
{
    let lengths = s.lengths;
    words[0] = u64::from(s.bound);
    words[1] = s.nodes as u64;
    words[2] = s.leaves as u64;
    words[3] = s.asked;
    words[4] = lengths.keys as u64;
    words[5] = lengths.distances as u64;
    words[6] = lengths.firsts as u64;
    words[7] = lengths.leaves as u64;
    words[8] = lengths.queue as u64;
}

// Kept: six places, each lent by itself: the C interface.
// A state and a request go to their places, a refusal's number back.
fn hand_over(
    answer: Result<Answer, Refusal>,
    state: &mut [u64],
    key: &mut u64,
    x: &mut f32,
    y: &mut f32,
    z: &mut f32,
    half: &mut f32,
) -> u32
    requires { length state.old ≡ 9 }
    ensures { reply result state.new (request_at key.new x.new y.new z.new half.new)
        ≡ hand_over answer state.old (request_at key.old x.old y.old z.old half.old) }
{
    match answer {
        Ok(Answer::Ask(request, next)) => {
            write_state(state, next);
            *key = request.key;
            *x = request.x;
            *y = request.y;
            *z = request.z;
            *half = request.half;
            0
        }
        Ok(Answer::Finished(next)) => {
            write_state(state, next);
            0
        }
        Err(refusal) => refusal.number(),
    }
}

// Kept: the C interface lends each table by itself, and to a start only to be read.
pub fn mittenhelm_start(
    bound: u32,
    keys: &[u64],
    distances: &[f32],
    firsts: &[u16],
    leaves: &[u64],
    queue: &[u64],
    state: &mut [u64],
    key: &mut u64,
    x: &mut f32,
    y: &mut f32,
    z: &mut f32,
    half: &mut f32,
) -> u32
    ensures { reply result state.new (request_at key.new x.new y.new z.new half.new)
        ≡ start_replies bound (tables_of keys.now distances.now firsts.now leaves.now queue.now)
        state.old (request_at key.old x.old y.old z.old half.old) }
{
    if bound > morton::LIMIT {
        return Refusal::AboveFifteen.number();
    }
    if state.len() != 9 {
        return Refusal::NotFitting.number();
    }
    let lengths = Lengths {
        keys: keys.len(),
        distances: distances.len(),
        firsts: firsts.len(),
        leaves: leaves.len(),
        queue: queue.len(),
    };
    let answer = build::start(bound, lengths);
    hand_over(answer, state, key, x, y, z, half)
}

// Kept: the C interface lends each table by itself.
pub fn mittenhelm_distance(
    state: &mut [u64],
    keys: &mut [u64],
    distances: &mut [f32],
    firsts: &mut [u16],
    leaves: &mut [u64],
    queue: &mut [u64],
    distance: f32,
    key: &mut u64,
    x: &mut f32,
    y: &mut f32,
    z: &mut f32,
    half: &mut f32,
) -> u32
    ensures { effect (reply result state.new (request_at key.new x.new y.new z.new half.new))
        (tables_of keys.new distances.new firsts.new leaves.new queue.new)
        ≡ distance_effect state.old distance (tables_of keys.old distances.old firsts.old leaves.old queue.old)
        (request_at key.old x.old y.old z.old half.old) }
{
    if state.len() != 9 {
        return Refusal::NotFitting.number();
    }
    if state[0] > u64::from(morton::LIMIT) {
        return Refusal::NotFitting.number();
    }
    let mut tables = Tables {
        keys,
        distances,
        firsts,
        leaves,
        queue,
    };
    let answer = build::distance(read_state(state), &mut tables, distance);
    hand_over(answer, state, key, x, y, z, half)
}
