// The engine: a node's own work, its children, and what follows them, over lent tables and stores.
// `node` and `both` call each other with the index falling; what a node does by itself, and what is done around two children,
// stands outside their cycle. A stop is handed on as it is, with the heights at the stop.
ghost use Rattle.std.specs.Prelude.{◌≡◌, List, [], ℕ, ◌+◌, ◌*◌, ◌<◌, ◌≤◌};
ghost use Rattle.report.specs.Bits.{bits_of};
ghost use Rattle.scope.specs.Nodes.{node_records, nodes_of};
ghost use Rattle.scope.specs.Hashes.{branch_hash};
ghost use Rattle.scope.specs.Program.{term_at};
ghost use Rattle.layout.specs.Exec.{run_term, first_of, second_of, third_of};
ghost use Rattle.layout.specs.Safe.{Fed, Safe, FirstOk, SecondOk, ThirdOk, HandOk};
ghost use Rattle.bit_machine.specs.Machine.{machine_of, Within};
ghost use Rattle.bit_machine.specs.Tables.{program_in, ShownIn};
ghost use Rattle.lookup.specs.Lookup.{record_at};
ghost use Rattle.bit_machine.specs.Engine.{out_of, around_of, handed, TwoKind, Planned};

use crate::{Heights, Plan, Reason, Stopped, Tables, rules, values};
use lookup::Around;
use ready::CheckedShapes;
use table::Kind;
use value::Shapes;

// A case or an assertion: the bit at the read cursor picks the child, which is pruned if it is hidden.
fn branch(tables: &Tables<'_>, cells: &mut [u8], frames: &mut [u32], i: u32, h: Heights) -> Plan
    requires shown { ShownIn tables.now }
    requires within { Within cells.old frames.old }
    requires safe { Safe (term_at (program_in tables.now) i)
        (machine_of (bits_of cells.old) frames.old h) }
    requires i_value { (record_at tables.now.nodes.now i).kind ≡ 1 }
    ensures { Planned result tables.now.nodes.now (program_in tables.now) i
        (machine_of (bits_of cells.old) frames.old h) (machine_of (bits_of cells.new) frames.new h) }
{
    let record = table::record_at(tables.nodes, i);
    let sum = types::left_of(tables.types, lookup::source_at(tables.arrows, i));
    let padding = lookup::padding_at(tables.types, tables.widths, sum);
    let bit = rules::peek(cells, frames, h);
    if bit == 0 {
        if table::hidden_at(tables.nodes, record.first) {
            return Plan::Stop(Reason::Pruned(i));
        }
        let n = 1 + padding.left;
        rules::forward(frames, h, n);
        return Plan::One(record.first, n);
    }
    if table::hidden_at(tables.nodes, record.second) {
        return Plan::Stop(Reason::Pruned(i));
    }
    let n = 1 + padding.right;
    rules::forward(frames, h, n);
    Plan::One(record.second, n)
}

// A witness node: its value is read at its position and written padded.
fn witness(tables: &Tables<'_>, cells: &mut [u8], frames: &mut [u32], i: u32, h: Heights) -> Plan
    requires shown { ShownIn tables.now }
    requires within { Within cells.old frames.old }
    requires safe { Safe (term_at (program_in tables.now) i)
        (machine_of (bits_of cells.old) frames.old h) }
    requires i_value { (record_at tables.now.nodes.now i).kind ≡ 12 }
    ensures { Planned result tables.now.nodes.now (program_in tables.now) i
        (machine_of (bits_of cells.old) frames.old h) (machine_of (bits_of cells.new) frames.new h) }
{
    let k = lookup::target_at(tables.arrows, i);
    let p = lookup::position_at(tables.positions, i);
    let shapes = CheckedShapes {
        shapes: Shapes {
            types: tables.types,
            widths: tables.widths,
            next: tables.next,
        },
    };
    values::write_value(&shapes, k, tables.witness, p, cells, frames, h);
    Plan::Rest
}

// A node's own work, before its children. What has no kind, and what a run reaches of fail and what is never run, can only fail.
fn prepare(tables: &Tables<'_>, cells: &mut [u8], frames: &mut [u32], i: u32, h: Heights) -> Plan
    requires shown { ShownIn tables.now }
    requires within { Within cells.old frames.old }
    requires safe { Safe (term_at (program_in tables.now) i)
        (machine_of (bits_of cells.old) frames.old h) }
    ensures { Planned result tables.now.nodes.now (program_in tables.now) i
        (machine_of (bits_of cells.old) frames.old h) (machine_of (bits_of cells.new) frames.new h) }
{
    let record = table::record_at(tables.nodes, i);
    let Some(kind) = table::kind_of(record) else {
        return Plan::Stop(Reason::Failed(i));
    };
    match kind {
        Kind::Comp | Kind::Pair | Kind::Disconnect => Plan::Two,
        Kind::Case => branch(tables, cells, frames, i, h),
        Kind::Injl => {
            let target = lookup::target_at(tables.arrows, i);
            let padding = lookup::padding_at(tables.types, tables.widths, target);
            rules::write_bit(cells, frames, h, 0);
            rules::skip(frames, h, padding.left);
            Plan::One(record.first, 0)
        }
        Kind::Injr => {
            let target = lookup::target_at(tables.arrows, i);
            let padding = lookup::padding_at(tables.types, tables.widths, target);
            rules::write_bit(cells, frames, h, 1);
            rules::skip(frames, h, padding.right);
            Plan::One(record.first, 0)
        }
        Kind::Take => Plan::One(record.first, 0),
        Kind::Drop => {
            let source = lookup::source_at(tables.arrows, i);
            let n = types::left_width(tables.types, tables.widths, source);
            rules::forward(frames, h, n);
            Plan::One(record.first, n)
        }
        Kind::Unit => Plan::Rest,
        Kind::Iden => {
            let n = lookup::source_width(tables.arrows, tables.widths, i);
            rules::copy(cells, frames, h, n);
            Plan::Rest
        }
        Kind::Witness => witness(tables, cells, frames, i, h),
        Kind::Word => {
            let n = lookup::target_width(tables.arrows, tables.widths, i);
            rules::write_bits(tables.program, record.second, n, cells, frames, h);
            Plan::Rest
        }
        Kind::Fail | Kind::Disconnect1 | Kind::Hidden => Plan::Stop(Reason::Failed(i)),
    }
}

// Before the left child of a disconnect: a frame with the right child's hash and the source, which becomes the read frame, and a frame for the left child.
fn hand<'a>(
    nodes: &[u32],
    hashes: &'a [u8],
    given: &'a [u8],
    right: u32,
    source: u32,
    target: u32,
    cells: &mut [u8],
    frames: &mut [u32],
    h: Heights,
) -> Heights
    requires fed { Fed cells.old frames.old }
    requires hand_ok { HandOk (bits_of (branch_hash (nodes_of [] hashes.now (node_records nodes.now)) given.now right)) source target
        (machine_of (bits_of cells.old) frames.old h) }
    ensures { machine_of (bits_of cells.new) frames.new result
        ≡ handed (bits_of (branch_hash (nodes_of [] hashes.now (node_records nodes.now)) given.now right))
        source target (machine_of (bits_of cells.old) frames.old h) }
{
    let size = limits::HASH_BYTES as u32 * 8 + source;
    let a = rules::new_write_frame(frames, h, size);
    values::write_hash(nodes, hashes, given, right, cells, frames, a);
    rules::copy(cells, frames, a, source);
    let b = rules::move_to_read(frames, a);
    rules::new_write_frame(frames, b, target)
}

// What is done before the left child.
fn first<'a>(
    around: Around,
    nodes: &[u32],
    hashes: &'a [u8],
    given: &'a [u8],
    right: u32,
    cells: &mut [u8],
    frames: &mut [u32],
    h: Heights,
) -> Heights
    requires fed { Fed cells.old frames.old }
    requires first_ok { FirstOk (around_of around (bits_of (branch_hash (nodes_of [] hashes.now (node_records nodes.now)) given.now right)))
        (machine_of (bits_of cells.old) frames.old h) }
    ensures { machine_of (bits_of cells.new) frames.new result
        ≡ first_of (around_of around (bits_of (branch_hash (nodes_of [] hashes.now (node_records nodes.now)) given.now right)))
        (machine_of (bits_of cells.old) frames.old h) }
{
    match around {
        Around::Pairing => h,
        Around::Composing(middle) => rules::new_write_frame(frames, h, middle),
        Around::Disconnecting(source, kept, handed) => {
            let target = kept + handed;
            hand(
                nodes, hashes, given, right, source, target, cells, frames, h,
            )
        }
    }
}

// What is done between the children.
fn second(around: Around, cells: &mut [u8], frames: &mut [u32], h: Heights) -> Heights
    requires fed { Fed cells.old frames.old }
    requires second_ok { SecondOk (around_of around []) (machine_of (bits_of cells.old) frames.old h) }
    ensures { (hash : List ℕ) → machine_of (bits_of cells.new) frames.new result
        ≡ second_of (around_of around hash) (machine_of (bits_of cells.old) frames.old h) }
{
    match around {
        Around::Pairing => h,
        Around::Composing(_) => rules::move_to_read(frames, h),
        Around::Disconnecting(_, kept, _) => {
            let t = rules::move_to_read(frames, h);
            rules::copy(cells, frames, t, kept);
            rules::forward(frames, t, kept);
            t
        }
    }
}

// What is done after the right child.
fn third(around: Around, frames: &mut [u32], h: Heights) -> Heights
    requires { ThirdOk (around_of around []) (machine_of [] frames.old h) }
    ensures { (hash b : List ℕ) → machine_of b frames.new result ≡ third_of (around_of around hash) (machine_of b frames.old h) }
{
    match around {
        Around::Pairing => h,
        Around::Composing(_) => rules::drop_read(frames, h),
        Around::Disconnecting(_, _, _) => {
            let t = rules::drop_read(frames, h);
            rules::drop_read(frames, t)
        }
    }
}

// A node: its own work, then its children.
#[cycle(both_node)]
pub(crate) fn node(
    tables: &Tables<'_>,
    cells: &mut [u8],
    frames: &mut [u32],
    i: u32,
    h: Heights,
) -> Result<Heights, Stopped>
    requires shown { ShownIn tables.now }
    requires within { Within cells.old frames.old }
    requires safe { Safe (term_at (program_in tables.now) i)
        (machine_of (bits_of cells.old) frames.old h) }
    ensures { out_of result (bits_of cells.new) frames.new ≡ run_term (term_at (program_in tables.now) i)
        (machine_of (bits_of cells.old) frames.old h) }
{
    let plan = prepare(tables, cells, frames, i, h);
    match plan {
        Plan::Rest => Ok(h),
        Plan::Stop(why) => Err(Stopped { why, heights: h }),
        Plan::Two => both(tables, cells, frames, i, h),
        Plan::One(x, n) => {
            let after = node(tables, cells, frames, x, h)?;
            rules::back(frames, after, n);
            Ok(after)
        }
    }
}

// A comp, a pair or a disconnect: its left child, then its right child, with what is done around them.
#[cycle(both_node)]
fn both(
    tables: &Tables<'_>,
    cells: &mut [u8],
    frames: &mut [u32],
    i: u32,
    h: Heights,
) -> Result<Heights, Stopped>
    requires shown { ShownIn tables.now }
    requires within { Within cells.old frames.old }
    requires two_kind { TwoKind tables.now.nodes.now i }
    requires safe { Safe (term_at (program_in tables.now) i)
        (machine_of (bits_of cells.old) frames.old h) }
    ensures { out_of result (bits_of cells.new) frames.new ≡ run_term (term_at (program_in tables.now) i)
        (machine_of (bits_of cells.old) frames.old h) }
{
    let around = lookup::around_at(tables.types, tables.widths, tables.nodes, tables.arrows, i);
    let record = table::record_at(tables.nodes, i);
    let x = record.first;
    let y = record.second;
    let h1 = first(
        around,
        tables.nodes,
        tables.hashes,
        tables.given,
        y,
        cells,
        frames,
        h,
    );
    let h2 = node(tables, cells, frames, x, h1)?;
    let h3 = second(around, cells, frames, h2);
    let h4 = node(tables, cells, frames, y, h3)?;
    Ok(third(around, frames, h4))
}
