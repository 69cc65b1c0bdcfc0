#![tactic(auto)]
// The exports of mittenhelm_builds for C, as include/mittenhelm.h declares them: each says what the function that it calls says.
// Kept: C lends each table and each place by itself.
ghost use Rattle.std.specs.Prelude.{◌≡◌};
ghost use Rattle.build.specs.Build.{tables_of};
ghost use Rattle.mittenhelm_builds.specs.Words.{request_at, reply, start_replies, effect, distance_effect};

#[unsafe(no_mangle)]
pub extern "C" fn mittenhelm_start(
    bound: u32,
    keys: &[u64],
    distances: &[f32],
    firsts: &[u16],
    leaves: &[u64],
    queue: &[u64],
    state: &mut [u64],
    key: &mut u64,
    x: &mut f32,
    y: &mut f32,
    z: &mut f32,
    half: &mut f32,
) -> u32
    ensures { reply result state.new (request_at key.new x.new y.new z.new half.new)
        ≡ start_replies bound (tables_of keys.now distances.now firsts.now leaves.now queue.now)
        state.old (request_at key.old x.old y.old z.old half.old) }
{
    mittenhelm_builds::mittenhelm_start(
        bound, keys, distances, firsts, leaves, queue, state, key, x, y, z, half,
    )
}

#[unsafe(no_mangle)]
pub extern "C" fn mittenhelm_distance(
    state: &mut [u64],
    keys: &mut [u64],
    distances: &mut [f32],
    firsts: &mut [u16],
    leaves: &mut [u64],
    queue: &mut [u64],
    distance: f32,
    key: &mut u64,
    x: &mut f32,
    y: &mut f32,
    z: &mut f32,
    half: &mut f32,
) -> u32
    ensures { effect (reply result state.new (request_at key.new x.new y.new z.new half.new))
        (tables_of keys.new distances.new firsts.new leaves.new queue.new)
        ≡ distance_effect state.old distance (tables_of keys.old distances.old firsts.old leaves.old queue.old)
        (request_at key.old x.old y.old z.old half.old) }
{
    mittenhelm_builds::mittenhelm_distance(
        state, keys, distances, firsts, leaves, queue, distance, key, x, y, z, half,
    )
}
