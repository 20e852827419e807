// The calls that controllers in C and Rust make: the whole job, decoding, and the stages one by one, over lent slices. C reaches them through exports_c.
// Each answers 0, or the number of its refusal. Beside it, through `place`, stands a refusal's place, or the count that an output or a table has.
// Each call promises what the call that it wraps promises.
#![tactic(auto)]

ghost use Rattle.std.specs.Prelude.{◌≡◌, length, ◌/◌};
ghost use Rattle.limits.specs.Limits.{node_numbers};
ghost use Rattle.scope.specs.Numbers.{stream_of};
ghost use Rattle.scope.specs.Reading.{natural_up_to};
ghost use Rattle.scope.specs.Closing.{decode};
ghost use Rattle.scope.specs.Run.{run};
ghost use Rattle.scope.specs.Stages.{walk_stage, arrow_stage, hash_stage, run_stage};
ghost use Rattle.analysis.specs.Limits.{stage_bounds};
ghost use Rattle.exports.specs.Codes.{answer_code, answer_told, judged, judged_by, decoding, decoding_by, bounding, bounding_by, staged, staged_by, finished, finished_by, read, fault_code, read_by};
ghost use Rattle.bititer.specs.Answers.{natural_fault};

use arrow::LentTables;
use bititer::NaturalFault;
use refusal::Answer;

// The number of an answer: 0 for an output.
fn answer_code(said: Answer) -> u32
    ensures { result ≡ answer_code said }
{
    match said {
        Ok(_) => 0,
        Err(why) => refusal::number(why),
    }
}

// The place of an answer, or an output's count of bits.
fn answer_told(said: Answer) -> u32
    ensures { result ≡ answer_told said }
{
    match said {
        Ok(count) => count,
        Err(why) => refusal::place(why),
    }
}

// The number of a fault of reading a natural.
fn fault_code(why: NaturalFault) -> u32
    ensures { result ≡ fault_code (natural_fault why) }
{
    refusal::number(bititer::natural_refusal(why, 0))
}

// The whole job.
pub fn drevaloci_run(
    dossier: &[u8],
    nodes: &mut [u32],
    hashes: &mut [u8],
    cells: &mut [u8],
    frames: &mut [u32],
    answer: &mut [u8],
    place: &mut u32,
) -> u32
    ensures { finished result place.new nodes.new hashes.new cells.new frames.new answer.new
        ≡ finished_by (run dossier.now nodes.old hashes.old cells.old frames.old
        answer.old) }
{
    let said = dossier::run(dossier, nodes, hashes, cells, frames, answer);
    *place = answer_told(said);
    answer_code(said)
}

// A program's bytes into a node store and a hash store; `place` gets the count of nodes, `bytes` the bytes used of the hash store.
pub fn drevaloci_decode(
    program: &[u8],
    nodes: &mut [u32],
    hashes: &mut [u8],
    place: &mut u32,
    bytes: &mut u32,
) -> u32
    ensures { decoding result place.new bytes.new nodes.new hashes.new
        ≡ decoding_by (decode program.now (length nodes.old / node_numbers) (length hashes.old))
        nodes.old hashes.old }
{
    match decode::decode(program, nodes, hashes) {
        Ok(sizes) => {
            *place = sizes.nodes;
            *bytes = sizes.hashes;
            0
        }
        Err(why) => {
            *place = refusal::place(why);
            *bytes = 0;
            refusal::number(why)
        }
    }
}

// Lent nodes: 4, 26, 1 and the walk.
pub fn drevaloci_walk(program: &[u8], hashes: &[u8], nodes: &[u32], place: &mut u32) -> u32
    ensures { judged result place.new ≡ judged_by (walk_stage program.now hashes.now nodes.now) }
{
    let walked = common::answer_of(table::walk_stage(program, hashes, nodes));
    *place = answer_told(walked);
    answer_code(walked)
}

// Lent tables up to their arrows: 11, 12, and 9 for equal nodes.
pub fn drevaloci_arrows(
    types: &[u8],
    nodes: &[u32],
    arrows: &[u8],
    program: &[u8],
    hashes: &[u8],
    place: &mut u32,
) -> u32
    ensures { judged result place.new
        ≡ judged_by (arrow_stage types.now nodes.now arrows.now program.now hashes.now) }
{
    let tables = LentTables {
        types,
        nodes,
        arrows,
        program,
        hashes,
    };
    let said = common::answer_of(stages::arrow_stage(&tables));
    *place = answer_told(said);
    answer_code(said)
}

// Lent tables up to their supplied hashes: 13.
pub fn drevaloci_hashes(
    types: &[u8],
    nodes: &[u32],
    arrows: &[u8],
    program: &[u8],
    hashes: &[u8],
    given: &[u8],
    place: &mut u32,
) -> u32
    ensures { judged result place.new
        ≡ judged_by (hash_stage types.now nodes.now arrows.now program.now hashes.now
        given.now) }
{
    let tables = LentTables {
        types,
        nodes,
        arrows,
        program,
        hashes,
    };
    let said = common::answer_of(stages::hash_stage(&tables, given));
    *place = answer_told(said);
    answer_code(said)
}

// Lent tables up to their bounds, 14: the cells, frames and cost of the whole program; of a refusal `cells` gets the place.
pub fn drevaloci_bounds(
    types: &[u8],
    nodes: &[u32],
    arrows: &[u8],
    program: &[u8],
    hashes: &[u8],
    cells: &mut u32,
    frames: &mut u32,
    cost: &mut u32,
) -> u32
    ensures { bounding result cells.new frames.new cost.new
        ≡ bounding_by (stage_bounds types.now nodes.now arrows.now program.now hashes.now) }
{
    let tables = LentTables {
        types,
        nodes,
        arrows,
        program,
        hashes,
    };
    match analysis::bounds_stage(&tables) {
        Ok(totals) => {
            *cells = totals.cells;
            *frames = totals.frames;
            *cost = totals.cost;
            0
        }
        Err(why) => {
            *cells = refusal::place(why);
            *frames = 0;
            *cost = 0;
            refusal::number(why)
        }
    }
}

// A run over lent tables: all of it, as the whole job does it after decoding.
pub fn drevaloci_run_tables<'a>(
    types: &'a [u8],
    nodes: &'a [u32],
    arrows: &'a [u8],
    program: &'a [u8],
    hashes: &'a [u8],
    given: &'a [u8],
    witness: &'a [u8],
    witness_bits: u32,
    input: &'a [u8],
    input_bits: u32,
    cells: &mut [u8],
    frames: &mut [u32],
    answer: &mut [u8],
    place: &mut u32,
) -> u32
    ensures { staged result place.new cells.new frames.new answer.new ≡ staged_by (run_stage types.now nodes.now arrows.now program.now hashes.now
        given.now witness.now witness_bits input.now input_bits cells.old frames.old answer.old) }
{
    let tables = LentTables {
        types,
        nodes,
        arrows,
        program,
        hashes,
    };
    let said = bit_machine::run_stage(
        &tables,
        given,
        witness,
        witness_bits,
        input,
        input_bits,
        cells,
        frames,
        answer,
    );
    *place = answer_told(said);
    answer_code(said)
}

// One natural from the bit position `at` on, at most `bound`: the number, and the position after it.
pub fn drevaloci_natural(
    bytes: &[u8],
    at: usize,
    bound: u32,
    value: &mut u32,
    next: &mut usize,
) -> u32
    ensures { read result value.new next.new ≡ read_by (natural_up_to (stream_of bytes.now) bound at) }
{
    match bititer::natural(bytes, at, bound) {
        Ok((n, bits)) => {
            *value = n;
            *next = at + bits;
            0
        }
        Err(why) => {
            *value = 0;
            *next = 0;
            fault_code(why)
        }
    }
}
