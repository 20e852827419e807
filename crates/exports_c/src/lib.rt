// The calls for C: each has the name, the arguments and the promise of the call of exports that it makes.
// A slice is passed as a pointer and then a length in elements.
#![tactic(auto)]

ghost use Rattle.std.specs.Prelude.{◌≡◌, length, ◌/◌};
ghost use Rattle.limits.specs.Limits.{node_numbers};
ghost use Rattle.scope.specs.Numbers.{stream_of};
ghost use Rattle.scope.specs.Reading.{natural_up_to};
ghost use Rattle.scope.specs.Closing.{decode};
ghost use Rattle.scope.specs.Run.{run};
ghost use Rattle.scope.specs.Stages.{walk_stage, arrow_stage, hash_stage, run_stage};
ghost use Rattle.analysis.specs.Limits.{stage_bounds};
ghost use Rattle.exports.specs.Codes.{judged, judged_by, decoding, decoding_by, bounding, bounding_by, staged, staged_by, finished, finished_by, read, read_by};

// The whole job.
#[unsafe(no_mangle)]
pub extern "C" fn drevaloci_run(
    dossier: &[u8],
    nodes: &mut [u32],
    hashes: &mut [u8],
    cells: &mut [u8],
    frames: &mut [u32],
    answer: &mut [u8],
    place: &mut u32,
) -> u32
    ensures { finished result place.new nodes.new hashes.new cells.new frames.new answer.new
        ≡ finished_by (run dossier.now nodes.old hashes.old cells.old frames.old
        answer.old) }
{
    exports::drevaloci_run(dossier, nodes, hashes, cells, frames, answer, place)
}

// A program's bytes into a node store and a hash store; `place` gets the count of nodes, `bytes` the bytes used of the hash store.
#[unsafe(no_mangle)]
pub extern "C" fn drevaloci_decode(
    program: &[u8],
    nodes: &mut [u32],
    hashes: &mut [u8],
    place: &mut u32,
    bytes: &mut u32,
) -> u32
    ensures { decoding result place.new bytes.new nodes.new hashes.new
        ≡ decoding_by (decode program.now (length nodes.old / node_numbers) (length hashes.old))
        nodes.old hashes.old }
{
    exports::drevaloci_decode(program, nodes, hashes, place, bytes)
}

// Lent nodes: 4, 26, 1 and the walk.
#[unsafe(no_mangle)]
pub extern "C" fn drevaloci_walk(
    program: &[u8],
    hashes: &[u8],
    nodes: &[u32],
    place: &mut u32,
) -> u32
    ensures { judged result place.new ≡ judged_by (walk_stage program.now hashes.now nodes.now) }
{
    exports::drevaloci_walk(program, hashes, nodes, place)
}

// Lent tables up to their arrows: 11, 12, and 9 for equal nodes.
#[unsafe(no_mangle)]
pub extern "C" fn drevaloci_arrows(
    types: &[u8],
    nodes: &[u32],
    arrows: &[u8],
    program: &[u8],
    hashes: &[u8],
    place: &mut u32,
) -> u32
    ensures { judged result place.new
        ≡ judged_by (arrow_stage types.now nodes.now arrows.now program.now hashes.now) }
{
    exports::drevaloci_arrows(types, nodes, arrows, program, hashes, place)
}

// Lent tables up to their supplied hashes: 13.
#[unsafe(no_mangle)]
pub extern "C" fn drevaloci_hashes(
    types: &[u8],
    nodes: &[u32],
    arrows: &[u8],
    program: &[u8],
    hashes: &[u8],
    given: &[u8],
    place: &mut u32,
) -> u32
    ensures { judged result place.new
        ≡ judged_by (hash_stage types.now nodes.now arrows.now program.now hashes.now
        given.now) }
{
    exports::drevaloci_hashes(types, nodes, arrows, program, hashes, given, place)
}

// Lent tables up to their bounds, 14: the cells, frames and cost of the whole program; of a refusal `cells` gets the place.
#[unsafe(no_mangle)]
pub extern "C" fn drevaloci_bounds(
    types: &[u8],
    nodes: &[u32],
    arrows: &[u8],
    program: &[u8],
    hashes: &[u8],
    cells: &mut u32,
    frames: &mut u32,
    cost: &mut u32,
) -> u32
    ensures { bounding result cells.new frames.new cost.new
        ≡ bounding_by (stage_bounds types.now nodes.now arrows.now program.now hashes.now) }
{
    exports::drevaloci_bounds(types, nodes, arrows, program, hashes, cells, frames, cost)
}

// A run over lent tables: all of it, as the whole job does it after decoding.
#[unsafe(no_mangle)]
pub extern "C" fn drevaloci_run_tables<'a>(
    types: &'a [u8],
    nodes: &'a [u32],
    arrows: &'a [u8],
    program: &'a [u8],
    hashes: &'a [u8],
    given: &'a [u8],
    witness: &'a [u8],
    witness_bits: u32,
    input: &'a [u8],
    input_bits: u32,
    cells: &mut [u8],
    frames: &mut [u32],
    answer: &mut [u8],
    place: &mut u32,
) -> u32
    ensures { staged result place.new cells.new frames.new answer.new
        ≡ staged_by (run_stage types.now nodes.now arrows.now program.now hashes.now given.now
        witness.now witness_bits input.now input_bits cells.old frames.old answer.old) }
{
    exports::drevaloci_run_tables(
        types,
        nodes,
        arrows,
        program,
        hashes,
        given,
        witness,
        witness_bits,
        input,
        input_bits,
        cells,
        frames,
        answer,
        place,
    )
}

// One natural from the bit position `at` on, at most `bound`: the number, and the position after it.
#[unsafe(no_mangle)]
pub extern "C" fn drevaloci_natural(
    bytes: &[u8],
    at: usize,
    bound: u32,
    value: &mut u32,
    next: &mut usize,
) -> u32
    ensures { read result value.new next.new ≡ read_by (natural_up_to (stream_of bytes.now) bound at) }
{
    exports::drevaloci_natural(bytes, at, bound, value, next)
}
