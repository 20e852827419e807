// The whole job: a dossier and five lent stores in, an answer out, and each store left as the requirements say.
// The header and the types are checked (1, 2), the program is decoded (3 to 10, 21), and the run stage does the rest on the decoded table (11 to 19).
// Where `refusal::keeps_table` says no, the node and hash stores are zero: no table is left.
#![tactic(auto)]

ghost use Rattle.std.specs.Prelude.{◌≡◌};
ghost use Rattle.scope.specs.Header.{check_header};
ghost use Rattle.scope.specs.Run.{left_with, ended_with, run};
ghost use Rattle.common.specs.Answers.{check_of};
ghost use Rattle.dossier.specs.Ends.{front, keeps, settled, sections_run};

use arrow::LentTables;
use header::SectionName;
use refusal::{Answer, Refusal};

// The header, then the type table: 1 and 2.
fn check_front(dossier: &[u8]) -> Result<(), Refusal>
    ensures { check_of result ≡ front dossier.now }
{
    header::check_header(dossier)?;
    types::types_hold(SectionName::Types.of(dossier))
}

// Whether an answer leaves the decoded table in its stores.
fn keeps(said: Answer) -> bool
    ensures { result ≡ keeps said }
{
    match said {
        Ok(_) => true,
        Err(why) => refusal::keeps_table(why),
    }
}

// Zeros the node and hash stores after an end that leaves no table.
fn settle(said: Answer, nodes: &mut [u32], hashes: &mut [u8])
    ensures nodes_after { nodes.new ≡ settled said nodes.old }
    ensures hashes_after { hashes.new ≡ settled said hashes.old }
{
    if keeps(said) {
        return;
    }
    common::fill_from(nodes, 0, 0);
    common::fill_from(hashes, 0, 0);
}

// The run stage on a decoded table and the sections of its dossier.
fn run_decoded<'a>(
    dossier: &'a [u8],
    nodes: &'a [u32],
    hashes: &'a [u8],
    cells: &mut [u8],
    frames: &mut [u32],
    answer: &mut [u8],
) -> Answer
    ensures { left_with result cells.new frames.new answer.new
        ≡ sections_run dossier.now nodes.now hashes.now cells.old frames.old answer.old }
{
    let tables = LentTables {
        types: SectionName::Types.of(dossier),
        nodes,
        arrows: SectionName::Arrows.of(dossier),
        program: SectionName::Program.of(dossier),
        hashes,
    };
    bit_machine::run_stage(
        &tables,
        SectionName::Hashes.of(dossier),
        SectionName::Witness.of(dossier),
        SectionName::Witness.count(dossier),
        SectionName::Input.of(dossier),
        SectionName::Input.count(dossier),
        cells,
        frames,
        answer,
    )
}

// The whole job.
pub fn run(
    dossier: &[u8],
    nodes: &mut [u32],
    hashes: &mut [u8],
    cells: &mut [u8],
    frames: &mut [u32],
    answer: &mut [u8],
) -> Answer
    ensures { ended_with result nodes.new hashes.new cells.new frames.new answer.new
        ≡ run dossier.now nodes.old hashes.old cells.old frames.old answer.old }
{
    let front = check_front(dossier);
    let Ok(()) = front else {
        common::fill_from(nodes, 0, 0);
        common::fill_from(hashes, 0, 0);
        return common::answer_of(front);
    };
    let sizes = decode::decode(SectionName::Program.of(dossier), nodes, hashes)?;
    let records = &nodes[..limits::NODE_NUMBERS * sizes.nodes as usize];
    let said = run_decoded(
        dossier,
        records,
        &hashes[..sizes.hashes as usize],
        cells,
        frames,
        answer,
    );
    settle(said, nodes, hashes);
    said
}
