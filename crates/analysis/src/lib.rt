// The bounds of a run (14), after analysis.rs: extra cells, extra frames and cost of every node by the requirements' table, in one pass upwards.
// A number over its limit is held at the limit plus one: such a program is refused, so no answer shows the number itself.
#![tactic(auto)]

ghost use Rattle.std.specs.Prelude.{◌≡◌, List, ℕ, ◌+◌, ◌^◌, ◌<◌, ◌≤◌, min, length};
ghost use Rattle.limits.specs.Limits.{node_count, cost_limit, node_cost};
ghost use Rattle.report.specs.Types.{width, word_ty};
ghost use Rattle.scope.specs.Numbers.{tabulate};
ghost use Rattle.scope.specs.Types.{TypeRecord, type_records};
ghost use Rattle.scope.specs.Nodes.{kind_of, node_records};
ghost use Rattle.scope.specs.Nodes.{NodeRecord as ScopeRecord};
ghost use Rattle.scope.specs.Arrows.{arrow_records};
ghost use Rattle.scope.specs.Bounds.{unit_row, copy_row, child_row, pair_row, case_row, comp_row, disconnect_row, witness_row, fail_row};
ghost use Rattle.scope.specs.Bounds.{Bound as ScopeBound};
ghost use Rattle.analysis.specs.Held.{up_to, held, plain};
ghost use Rattle.analysis.specs.Rows.{case_bound, row_of, below_or, bound_at};
ghost use Rattle.analysis.specs.Limits.{bounded_of, limited, counted_bounds, stage_bounds};

use arrow::LentTables;
use refusal::Refusal;
use table::{Kind, NodeRecord};

// The cells of a hash.
const HASH_CELLS: u64 = 8 * limits::HASH_BYTES as u64;

// A price. It carries its own fixed numbers.
#[derive(Clone, Copy)]
pub struct Cost {
    pub units: u32,
}

// What a node needs beyond its input and its output, and what it costs.
#[derive(Clone, Copy)]
pub struct Bound {
    pub cells: u32,
    pub frames: u32,
    pub cost: Cost,
}

// The whole program's cells, frames and cost.
#[derive(Clone, Copy)]
pub struct Totals {
    pub cells: u32,
    pub frames: u32,
    pub cost: u32,
}

// A number, or one above its limit.
fn up_to(limit: u32, n: u64) -> u32
    requires { (limit + 1 < 2 ^ 32) × (n < 2 ^ 36) }
    ensures { result ≡ up_to limit n }
{
    n.min(common::wide(limit) + 1) as u32
}

impl Cost {
    pub const OVERHEAD: u32 = limits::NODE_COST;

    pub const LIMIT: u32 = limits::COST_LIMIT;

    // The price of a node that costs this much beside its own overhead.
    fn of(n: u64) -> Self
        requires { n < 2 ^ 35 }
        ensures { result.units ≡ up_to cost_limit (node_cost + n) }
    {
        Cost {
            units: up_to(Cost::LIMIT, common::wide(Cost::OVERHEAD) + n),
        }
    }

    // The sum of two prices, held at one above the limit.
    pub fn add(a: Self, b: Self) -> Self
        ensures { result.units ≡ up_to cost_limit (a.units + b.units) }
    {
        Cost {
            units: up_to(Cost::LIMIT, common::wide(a.units) + common::wide(b.units)),
        }
    }
}

// Unit.
#[tactic(auto, unfolding(scope::specs::Bounds::unit_row))]
fn unit_row() -> Bound
    ensures { result ≡ held unit_row }
{
    Bound {
        cells: 0,
        frames: 0,
        cost: Cost::of(0),
    }
}

// Iden and word of this width.
#[tactic(auto, unfolding(scope::specs::Bounds::copy_row))]
fn copy_row(width: u32) -> Bound
    ensures { result ≡ held (copy_row width) }
{
    Bound {
        cells: 0,
        frames: 0,
        cost: Cost::of(common::wide(width)),
    }
}

// Injl, injr, take, drop, assertions.
#[tactic(auto, using(crate::proofs::Sums::child_price), unfolding(scope::specs::Bounds::child_row))]
fn child_row(child: Bound) -> Bound
    ensures { result ≡ held (child_row (plain child)) }
{
    Bound {
        cells: up_to(limits::CELL_COUNT, common::wide(child.cells)),
        frames: up_to(limits::FRAME_COUNT, common::wide(child.frames)),
        cost: Cost::add(Cost::of(0), child.cost),
    }
}

// Pair.
#[tactic(auto, using(crate::proofs::Sums::price), unfolding(scope::specs::Bounds::pair_row))]
fn pair_row(left: Bound, right: Bound) -> Bound
    ensures { result ≡ held (pair_row (plain left) (plain right)) }
{
    Bound {
        cells: up_to(
            limits::CELL_COUNT,
            common::wide(left.cells.max(right.cells)),
        ),
        frames: up_to(
            limits::FRAME_COUNT,
            common::wide(left.frames.max(right.frames)),
        ),
        cost: Cost::add(Cost::of(0), Cost::add(left.cost, right.cost)),
    }
}

// Case: the dearer branch alone.
#[tactic(auto, unfolding(scope::specs::Bounds::case_row))]
fn case_row(left: Bound, right: Bound) -> Bound
    ensures { result ≡ held (case_row (plain left) (plain right)) }
{
    Bound {
        cells: up_to(
            limits::CELL_COUNT,
            common::wide(left.cells.max(right.cells)),
        ),
        frames: up_to(
            limits::FRAME_COUNT,
            common::wide(left.frames.max(right.frames)),
        ),
        cost: Cost::of(common::wide(left.cost.units.max(right.cost.units))),
    }
}

// Comp with a middle of this width.
#[tactic(auto, using(crate::proofs::Sums::price), unfolding(scope::specs::Bounds::comp_row))]
fn comp_row(middle: u32, left: Bound, right: Bound) -> Bound
    ensures { result ≡ held (comp_row middle (plain left) (plain right)) }
{
    Bound {
        cells: up_to(
            limits::CELL_COUNT,
            common::wide(middle) + common::wide(left.cells.max(right.cells)),
        ),
        frames: up_to(
            limits::FRAME_COUNT,
            1 + common::wide(left.frames.max(right.frames)),
        ),
        cost: Cost::add(
            Cost::of(common::wide(middle)),
            Cost::add(left.cost, right.cost),
        ),
    }
}

// Disconnect with a left source of a hash and `source` cells, a left target of kept + handed cells, of which `kept` are copied.
#[tactic(auto, using(crate::proofs::Sums::price), unfolding(scope::specs::Bounds::disconnect_row, report::specs::Types::width, report::specs::Types::word_ty))]
fn disconnect_row(source: u32, kept: u32, handed: u32, left: Bound, right: Bound) -> Bound
    ensures { result ≡ held (disconnect_row (width (word_ty 8) + source) (kept + handed) kept (plain left) (plain right)) }
{
    let s = HASH_CELLS + common::wide(source);
    let t = common::wide(kept) + common::wide(handed);
    Bound {
        cells: up_to(
            limits::CELL_COUNT,
            s + t + common::wide(left.cells.max(right.cells)),
        ),
        frames: up_to(
            limits::FRAME_COUNT,
            2 + common::wide(left.frames.max(right.frames)),
        ),
        cost: Cost::add(
            Cost::of(2 * s + t + common::wide(kept)),
            Cost::add(left.cost, right.cost),
        ),
    }
}

// Witness of this width.
#[tactic(auto, unfolding(scope::specs::Bounds::witness_row))]
fn witness_row(width: u32) -> Bound
    ensures { result ≡ held (witness_row width) }
{
    let w = common::wide(width);
    Bound {
        cells: 0, // it goes straight into the write frame
        frames: 0,
        cost: Cost::of(w),
    }
}

// Fail, and a node that is never run.
#[tactic(auto, unfolding(scope::specs::Bounds::fail_row))]
fn fail_row() -> Bound
    ensures { result ≡ held fail_row }
{
    Bound {
        cells: 0,
        frames: 0,
        cost: Cost { units: 0 },
    }
}

// A case, by whether its first and its second child are hidden: with one hidden it is an assertion.
#[tactic(auto, unfolding(crate::specs::Rows::case_bound, scope::specs::Bounds::fail_row, scope::specs::Bounds::no_row))]
fn case_bound(first: bool, second: bool, left: Bound, right: Bound) -> Bound
    ensures { result ≡ held (case_bound first second (plain left) (plain right)) }
{
    match (first, second) {
        (false, false) => case_row(left, right),
        (false, true) => child_row(left),
        (true, false) => child_row(right),
        (true, true) => fail_row(),
    }
}

// The row of node i, of its record and the bounds of its children; fail, and what is never run, costs nothing.
#[tactic(auto, unfolding(crate::specs::Rows::row_of, scope::specs::Bounds::fail_row, scope::specs::Bounds::no_row))]
fn row(
    types: &[u8],
    widths: &[u32],
    nodes: &[u32],
    arrows: &[u8],
    r: NodeRecord,
    i: u32,
    left: Bound,
    right: Bound,
) -> Bound
    ensures { result ≡ held (row_of (type_records types.now) widths.now (node_records nodes.now)
        (arrow_records arrows.now) i (kind_of r.kind) r.first r.second (plain left) (plain right)) }
{
    let Some(kind) = table::kind_of(r) else {
        return fail_row();
    };
    match kind {
        Kind::Comp => comp_row(lookup::target_width(arrows, widths, r.first), left, right),
        Kind::Case => case_bound(
            table::hidden_at(nodes, r.first),
            table::hidden_at(nodes, r.second),
            left,
            right,
        ),
        Kind::Pair => pair_row(left, right),
        Kind::Disconnect => disconnect_row(
            lookup::source_width(arrows, widths, i),
            lookup::kept_width(types, widths, arrows, i),
            lookup::source_width(arrows, widths, r.second),
            left,
            right,
        ),
        Kind::Injl | Kind::Injr | Kind::Take | Kind::Drop => child_row(left),
        Kind::Iden => copy_row(lookup::source_width(arrows, widths, i)),
        Kind::Unit => unit_row(),
        Kind::Witness => witness_row(lookup::target_width(arrows, widths, i)),
        Kind::Word => copy_row(lookup::target_width(arrows, widths, i)),
        Kind::Fail | Kind::Disconnect1 | Kind::Hidden => fail_row(),
    }
}

// A child's place among the rows made so far; one that is not below its parent has the parent's own, where there is nothing yet.
#[tactic(auto, unfolding(crate::specs::Rows::below_or))]
fn below(child: u32, i: u32) -> usize
    ensures { (result ≡ below_or child i) × (result ≤ i) }
{
    child.min(i) as usize
}

// How many rows there are: one for each node, as far as the limit.
#[tactic(auto, using(common::specs::Nodes::length_records))]
fn row_count(nodes: &[u32]) -> u32
    ensures { result ≡ min (length (node_records nodes.now)) node_count }
{
    (nodes.len() / limits::NODE_NUMBERS).min(limits::NODE_COUNT) as u32
}

// The bounds of every node, in one pass upwards; where there is no node there is nothing.
pub fn node_rows(
    types: &[u8],
    widths: &[u32],
    nodes: &[u32],
    arrows: &[u8],
) -> [Bound; limits::NODE_COUNT]
    ensures { result ≡ tabulate node_count (λ i. held (bound_at (type_records types.now) widths.now
        (node_records nodes.now) (arrow_records arrows.now) i)) }
{
    let none = fail_row();
    let mut rows = [none; limits::NODE_COUNT];
    for i in 0..row_count(nodes) {
        let r = table::record_at(nodes, i);
        let left = rows[below(r.first, i)];
        let right = rows[below(r.second, i)];
        rows[i as usize] = row(types, widths, nodes, arrows, r, i, left, right);
    }
    rows
}

// The numbers of a whole program, or 14 at the first over its limit: 0 cells, 1 frames, 2 cost.
fn judged(cells: u32, frames: u32, cost: u32) -> Result<Totals, Refusal>
    ensures { bounded_of result ≡ limited (record { cells = cells; frames = frames; cost = cost }) }
{
    if limits::CELL_COUNT < cells {
        return Err(Refusal::OverLimit(0));
    }
    if limits::FRAME_COUNT < frames {
        return Err(Refusal::OverLimit(1));
    }
    if Cost::LIMIT < cost {
        return Err(Refusal::OverLimit(2));
    }
    Ok(Totals {
        cells,
        frames,
        cost,
    })
}

// The bounds of the whole program, its last node, within the limits (14), after the count of the nodes (4).
pub fn bounds(types: &[u8], widths: &[u32], nodes: &[u32], arrows: &[u8]) -> Result<Totals, Refusal>
    ensures { bounded_of result ≡ counted_bounds types.now widths.now nodes.now arrows.now }
{
    table::check_count(nodes)?;
    let last = (nodes.len() / limits::NODE_NUMBERS - 1) as u32;
    let rows = node_rows(types, widths, nodes, arrows);
    let own = rows[last as usize];
    let ends = common::wide(lookup::source_width(arrows, widths, last))
        + common::wide(lookup::target_width(arrows, widths, last));
    let cells = up_to(limits::CELL_COUNT, ends + common::wide(own.cells));
    let frames = up_to(limits::FRAME_COUNT, common::wide(own.frames) + 2);
    judged(cells, frames, own.cost.units)
}

// Lent tables: all that the stage of the arrows tests, then the bounds (14).
pub fn bounds_stage(tables: &LentTables<'_>) -> Result<Totals, Refusal>
    ensures { bounded_of result ≡ stage_bounds tables.now.types.now tables.now.nodes.now tables.now.arrows.now
        tables.now.program.now tables.now.hashes.now }
{
    let table = stages::arrow_tables(tables)?;
    bounds(tables.types, &table.widths, tables.nodes, tables.arrows)
}
