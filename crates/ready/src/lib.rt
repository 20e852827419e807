// What a run needs beyond its tables: the bits of the witness values (15) and of the input (16), and stores that are long enough (17).
// Values are not kept: a witness node's value is found again by its position in the witness bits. Everything is lent by `&`, so a refusal
// leaves all stores as they were.
#![tactic(auto)]

ghost use Rattle.std.specs.Prelude.{◌≡◌, true, false, List, ℕ, ◌-◌, ◌≤◌, ◌<◌, length, take, drop};
ghost use Rattle.limits.specs.Limits.{dossier_bytes};
ghost use Rattle.report.specs.Values.{read_value};
ghost use Rattle.scope.specs.Check.{passed};
ghost use Rattle.scope.specs.Numbers.{zeros, stream_of, held_bits};
ghost use Rattle.scope.specs.Types.{type_records, ty_at};
ghost use Rattle.scope.specs.Nodes.{node_records, nodes_of, node_at, on_witness};
ghost use Rattle.scope.specs.Arrows.{arrow_records};
ghost use Rattle.scope.specs.Closing.{used_up};
ghost use Rattle.scope.specs.Input.{check_input};
ghost use Rattle.scope.specs.Stages.{hash_stage};
ghost use Rattle.types.specs.Table.{check_table, type_widths, type_next, type_table};
ghost use Rattle.ready.specs.Positions.{read_for};
ghost use Rattle.ready.specs.Answers.{verdict, end_of, witness_table, stores_rule, supplied_table, prepared};

use arrow::LentTables;
use refusal::Refusal;
use table::{Kind, NodeTable};
use value::Shapes;

// A run that may begin: its bounds in cells and in frames, and beside the lent tables the width of each type, its entry in the table of next
// records, and the position of each node's value in the witness bits.
#[derive(Drop)]
pub struct Prepared {
    pub cells: u32,
    pub frames: u32,
    pub widths: [u32; limits::TYPE_COUNT],
    pub next: [u16; limits::TYPE_COUNT],
    pub positions: [u32; limits::NODE_COUNT],
}

// Shapes of a type table that the check of the types passes.
#[derive(Clone, Copy)]
pub struct CheckedShapes<'a> {
    pub shapes: Shapes<'a>,
    pub ghost types_pass: { check_table shapes.types.now ≡ passed (length (type_records shapes.types.now)) },
    pub ghost widths_are: { shapes.widths.now ≡ type_widths shapes.types.now },
    pub ghost next_are: { shapes.next.now ≡ type_next shapes.types.now },
}

// Where the compact value of type i at bit p ends, where only the first `count` bits are there.
fn value_end(shapes: &CheckedShapes<'_>, i: usize, s: &[u8], p: usize, count: u32) -> Option<usize>
    requires { p ≤ count }
    ensures { result ≡ end_of p (read_value (ty_at (type_records shapes.now.shapes.types.now) i) (drop p (take count (stream_of s.now)))) }
{
    let end = value::skip(&shapes.shapes, i, s, p)?;
    if common::place(count) < end {
        return None;
    }
    Some(end)
}

// The first bytes of a slice, as many as a dossier may have: values are read from these.
fn held(s: &[u8]) -> &[u8]
    ensures { result.now ≡ take dossier_bytes s.now }
{
    common::part(s, 0, limits::DOSSIER_BYTES)
}

// Whether values that end at a position use up all of the first `count` bits, no byte stands above the limit, and the bits after these are
// but zeros in the last byte.
fn all_used(s: &[u8], end: usize, count: u32) -> bool
    ensures { result ≡ used_up s.now count (drop end (take count (held_bits s.now))) }
{
    if limits::DOSSIER_BYTES < s.len() {
        return false;
    }
    let all = common::place(count);
    if end < all {
        return false;
    }
    bititer::closes(s, all)
}

// Whether node i is a witness.
fn witness_at(nodes: &[u32], i: u32) -> bool
    ensures { (bits hashes : List ℕ) → result ≡ on_witness (node_at (nodes_of bits hashes (node_records nodes.now)) i) true false }
{
    let r = table::record_at(nodes, i);
    table::kind_of(r) == Some(Kind::Witness)
}

// Where the bits of node i end that begin at p: a witness takes those of its value, any other node none.
fn node_end(
    shapes: &CheckedShapes<'_>,
    nodes: &[u32],
    arrows: &[u8],
    i: u32,
    witness: &[u8],
    p: usize,
    count: u32,
) -> Option<usize>
    requires { p ≤ count }
    ensures { (bits hashes : List ℕ) → result ≡ end_of p (read_for (type_records shapes.now.shapes.types.now)
        (nodes_of bits hashes (node_records nodes.now)) (arrow_records arrows.now) (take count (stream_of witness.now)) i p) }
{
    if !witness_at(nodes, i) {
        return Some(p);
    }
    let own = arrow::arrow_at(arrows, i);
    value_end(shapes, own.target, witness, p, count)
}

// The witness bits: a value for each witness node in index order (15 at the node where they run out), and nothing else (15 at the node count).
fn check_witness(
    shapes: &CheckedShapes<'_>,
    table: &NodeTable<'_>,
    arrows: &[u8],
    witness: &[u8],
    count: u32,
) -> Result<[u32; limits::NODE_COUNT], Refusal>
    ensures { (bits hashes : List ℕ) → result ≡ witness_table (type_records shapes.now.shapes.types.now)
        (nodes_of bits hashes (node_records table.now.nodes.now)) (arrow_records arrows.now) witness.now count }
{
    let bits = held(witness);
    let mut positions = [0u32; limits::NODE_COUNT];
    let n = table.count();
    let mut p: usize = 0;
    for i in 0..n {
        let Some(end) = node_end(shapes, table.nodes, arrows, i, bits, p, count) else {
            return Err(Refusal::Witness(i));
        };
        positions[common::place(i)] = p as u32;
        p = end;
    }
    if !all_used(witness, p, count) {
        return Err(Refusal::Witness(n));
    }
    Ok(positions)
}

// The input bits: one value of this type, and nothing else (16).
fn check_input(
    shapes: &CheckedShapes<'_>,
    source: usize,
    input: &[u8],
    count: u32,
) -> Result<(), Refusal>
    ensures { result ≡ verdict (check_input (ty_at (type_records shapes.now.shapes.types.now) source) input.now count) }
{
    let bits = held(input);
    let Some(end) = value_end(shapes, source, bits, 0, count) else {
        return Err(Refusal::Input(0));
    };
    if !all_used(input, end, count) {
        return Err(Refusal::Input(0));
    }
    Ok(())
}

// The stores: cells in bytes (17 at 0), frames in whole records (17 at 1), the answer in bytes (17 at 2).
fn check_stores(
    cell_bound: u32,
    frame_bound: u32,
    width: u32,
    cells: usize,
    frames: usize,
    answer: usize,
) -> Result<(), Refusal>
    ensures { result ≡ verdict (stores_rule cell_bound frame_bound width cells frames answer) }
{
    if cells < common::bytes_for(cell_bound) {
        return Err(Refusal::StoreShort(0));
    }
    if frames / limits::FRAME_NUMBERS < common::place(frame_bound) {
        return Err(Refusal::StoreShort(1));
    }
    if answer < common::bytes_for(width) {
        return Err(Refusal::StoreShort(2));
    }
    Ok(())
}

// The last node, which is the whole program.
fn last_node(table: &NodeTable<'_>) -> u32
    ensures { result ≡ length (node_records table.now.nodes.now) - 1 }
{
    table.count().saturating_sub(1)
}

// What a run is supplied with, after its bounds: witness bits (15), input bits (16), stores (17).
fn check_supplied(
    shapes: &CheckedShapes<'_>,
    table: &NodeTable<'_>,
    arrows: &[u8],
    witness: &[u8],
    witness_bits: u32,
    input: &[u8],
    input_bits: u32,
    cell_bound: u32,
    frame_bound: u32,
    cells: usize,
    frames: usize,
    answer: usize,
) -> Result<[u32; limits::NODE_COUNT], Refusal>
    ensures { (bits hashes : List ℕ) → result ≡ supplied_table (type_records shapes.now.shapes.types.now)
        (nodes_of bits hashes (node_records table.now.nodes.now)) (arrow_records arrows.now) witness.now witness_bits
        input.now input_bits cell_bound frame_bound cells frames answer }
{
    let positions = check_witness(shapes, table, arrows, witness, witness_bits)?;
    let whole = arrow::arrow_at(arrows, last_node(table));
    check_input(shapes, whole.source, input, input_bits)?;
    let width = common::entry_or(shapes.shapes.widths, whole.target, 0);
    check_stores(cell_bound, frame_bound, width, cells, frames, answer)?;
    Ok(positions)
}

// What follows the checks of the tables, with the checked type table: the bounds (14), then what the run is supplied with (15 to 17).
fn check_ready(
    checked: types::TypeTable,
    types: &[u8],
    table: &NodeTable<'_>,
    arrows: &[u8],
    witness: &[u8],
    witness_bits: u32,
    input: &[u8],
    input_bits: u32,
    cells: usize,
    frames: usize,
    answer: usize,
) -> Result<Prepared, Refusal>
    requires { (checked ≡ type_table types.now) × (check_table types.now ≡ passed (length (type_records types.now))) }
    ensures { (program hashes given : List ℕ)
        → hash_stage types.now table.now.nodes.now arrows.now program hashes given ≡ passed tt
        → result ≡ prepared types.now table.now.nodes.now arrows.now program hashes given witness.now witness_bits
        input.now input_bits (zeros cells) (zeros frames) (zeros answer) }
{
    let widths = checked.widths;
    let next = checked.next;
    let bounds = analysis::bounds(types, &widths, table.nodes, arrows)?;
    let shapes = CheckedShapes {
        shapes: Shapes {
            types,
            widths: &widths,
            next: &next,
        },
    };
    let positions = check_supplied(
        &shapes,
        table,
        arrows,
        witness,
        witness_bits,
        input,
        input_bits,
        bounds.cells,
        bounds.frames,
        cells,
        frames,
        answer,
    )?;
    Ok(Prepared {
        cells: bounds.cells,
        frames: bounds.frames,
        widths,
        next,
        positions,
    })
}

// All checks of a run over lent tables, into stores of these lengths: the tables up to their hashes (13), then 14 to 17.
pub fn check_run(
    tables: &LentTables<'_>,
    given: &[u8],
    witness: &[u8],
    witness_bits: u32,
    input: &[u8],
    input_bits: u32,
    cells: usize,
    frames: usize,
    answer: usize,
) -> Result<Prepared, Refusal>
    ensures { result ≡ prepared tables.now.types.now tables.now.nodes.now tables.now.arrows.now
        tables.now.program.now tables.now.hashes.now given.now
        witness.now witness_bits input.now input_bits (zeros cells) (zeros frames) (zeros answer) }
{
    let checked = stages::hash_tables(tables, given)?;
    let table = NodeTable {
        nodes: tables.nodes,
    };
    check_ready(
        checked,
        tables.types,
        &table,
        tables.arrows,
        witness,
        witness_bits,
        input,
        input_bits,
        cells,
        frames,
        answer,
    )
}
