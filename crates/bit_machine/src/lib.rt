// The Bit Machine over lent stores: cells packed in bytes, frames in records of numbers.
// `rules` moves bits and frames, `values` writes values and hashes, `engine` runs a node with all below it,
// and `run` a whole program. `run_stage` makes every check of a run first: a refusal leaves the stores as they were.
#![tactic(auto)]

mod engine;
mod rules;
mod run;
mod values;

ghost use Rattle.std.specs.Prelude.{◌≡◌};
ghost use Rattle.scope.specs.Run.{left_with};
ghost use Rattle.scope.specs.Stages.{run_stage};

use arrow::LentTables;
use refusal::Answer;

// The lent tables of a run, and beside them what its checks made: the width of each type, its entry in the table of next records, and where the
// value of each witness node stands.
#[derive(Clone, Copy)]
pub(crate) struct Tables<'a> {
    pub(crate) types: &'a [u8],
    pub(crate) widths: &'a [u32],
    pub(crate) next: &'a [u16],
    pub(crate) nodes: &'a [u32],
    pub(crate) arrows: &'a [u8],
    pub(crate) program: &'a [u8],
    pub(crate) hashes: &'a [u8],
    pub(crate) given: &'a [u8],
    pub(crate) witness: &'a [u8],
    pub(crate) positions: &'a [u32],
}

// How many write frames and read frames stand, and the first cell above all frames.
#[derive(Clone, Copy)]
pub(crate) struct Heights {
    pub(crate) writes: usize,
    pub(crate) reads: usize,
    pub(crate) next: u32,
}

// Why a run stopped, and at which node: at a fail node, or at an assertion whose pruned branch was picked.
#[derive(Clone, Copy, Debug, PartialEq, Eq)]
pub(crate) enum Reason {
    Failed(u32),
    Pruned(u32),
}

// A stop: why, and the heights there.
#[derive(Clone, Copy)]
pub(crate) struct Stopped {
    pub(crate) why: Reason,
    pub(crate) heights: Heights,
}

// What is left of a node after its own work: nothing, a stop, one child and then the read cursor so many cells back, or two children.
#[derive(Drop)]
pub(crate) enum Plan {
    Rest,
    Stop(Reason),
    One(u32, u32),
    Two,
}

// A run over lent tables: every check that can be made of them and of what the run is supplied with, then the run.
// What it says, and the cells, the frames and the answer as it leaves them, are those of the requirements' run stage.
pub fn run_stage<'a>(
    tables: &LentTables<'a>,
    given: &'a [u8],
    witness: &'a [u8],
    witness_bits: u32,
    input: &'a [u8],
    input_bits: u32,
    cells: &mut [u8],
    frames: &mut [u32],
    answer: &mut [u8],
) -> Answer
    ensures { left_with result cells.new frames.new answer.new
        ≡ run_stage tables.now.types.now tables.now.nodes.now tables.now.arrows.now
        tables.now.program.now tables.now.hashes.now given.now witness.now witness_bits
        input.now input_bits cells.old frames.old answer.old }
{
    let prepared = ready::check_run(
        tables,
        given,
        witness,
        witness_bits,
        input,
        input_bits,
        cells.len(),
        frames.len(),
        answer.len(),
    )?;
    let checked = Tables {
        types: tables.types,
        widths: &prepared.widths,
        next: &prepared.next,
        nodes: tables.nodes,
        arrows: tables.arrows,
        program: tables.program,
        hashes: tables.hashes,
        given,
        witness,
        positions: &prepared.positions,
    };
    run::run_ready(
        &checked,
        input,
        prepared.cells,
        prepared.frames,
        cells,
        frames,
        answer,
    )
}
