// Arrows, after types/arrow.rs, but checked and not inferred: a disconnect with one child is refused (11), then a count of arrows other than
// that of the nodes, then the first node that an earlier one is equal to (9) or whose arrow is not the report's (12). Types are compared by
// their indices in a checked table.
#![tactic(auto, unfolding(scope::specs::Numbers::every, scope::specs::Arrows::goes, scope::specs::Arrows::source, scope::specs::Arrows::target, scope::specs::Arrows::branch_rule, scope::specs::Arrows::kind_rule))]

ghost use Rattle.std.specs.Prelude.{◌≡◌, List, [], ◌∷◌, ℕ, ◌+◌, ◌-◌, ◌<◌, eqb, length, get_or};
ghost use Rattle.refusal.specs.declared.Refusal.TheVariants.{OneChildDisconnect, Arrow as BadArrow};
ghost use Rattle.report.specs.Nodes.{Node, comp, case, pair, disconnect, injl, injr, take, drop, word};
ghost use Rattle.scope.specs.Check.{require, each};
ghost use Rattle.scope.specs.Numbers.{be16};
ghost use Rattle.scope.specs.Types.{TypeRecord, type_records};
ghost use Rattle.scope.specs.Nodes.{node_records};
ghost use Rattle.scope.specs.Arrows.{no_arrow, arrow_records, branch_rule, kind_rule, arrow_rule, no_one_child};
ghost use Rattle.scope.specs.Arrows.{Arrow as ScopeArrow};
ghost use Rattle.common.specs.Answers.{check_of};
ghost use Rattle.table.specs.Answers.{record_of};
ghost use Rattle.table.specs.Lent.{lent_nodes, node_is};
ghost use Rattle.arrow.specs.Answers.{arrow_of};
ghost use Rattle.arrow.specs.Stage.{lent_rule, lent_refusal, counted_arrows};

use refusal::Refusal;
use table::{Kind, NodeRecord, NodeTable};

// Source and target of a node, as indices of the type table.
#[derive(Drop)]
pub struct Arrow {
    pub source: usize,
    pub target: usize,
}

// The tables of a program as they are lent: types, nodes, arrows, the program's bytes, and the hashes of its nodes.
#[derive(Clone, Copy)]
pub struct LentTables<'a> {
    pub types: &'a [u8],
    pub nodes: &'a [u32],
    pub arrows: &'a [u8],
    pub program: &'a [u8],
    pub hashes: &'a [u8],
}

// The arrow of node i; past the end of the table from record 0 to record 0.
pub fn arrow_at(arrows: &[u8], i: u32) -> Arrow
    ensures { arrow_of result ≡ get_or (arrow_records arrows.now) i no_arrow }
{
    let k = common::place(i);
    if k < arrows.len() / limits::ARROW_BYTES {
        let at = limits::ARROW_BYTES * k;
        return Arrow {
            source: usize::from(common::half_at(arrows, at)),
            target: usize::from(common::half_at(arrows, at + 2)),
        };
    }
    Arrow {
        source: 0,
        target: 0,
    }
}

// A comp: the left child's target is the right child's source.
fn comp_fits(arrows: &[u8], s: u32, t: u32, from: usize, to: usize) -> bool
    ensures { (ts : List TypeRecord) (ns : List Node) → result ≡ kind_rule ts ns (arrow_records arrows.now) from to (comp s t) }
{
    let a = arrow_at(arrows, s);
    let b = arrow_at(arrows, t);
    a.source == from && b.source == a.target && b.target == to
}

// A branch of a case: from its part of the sum and the rest to the case's target; a hidden one is free.
fn branch_fits(
    types: &[u8],
    nodes: &[u32],
    arrows: &[u8],
    j: u32,
    part: usize,
    rest: usize,
    to: usize,
) -> bool
    ensures { result ≡ branch_rule (type_records types.now) (lent_nodes [] nodes.now)
        (arrow_records arrows.now) j part rest to }
{
    if table::hidden_at(nodes, j) {
        return true;
    }
    let a = arrow_at(arrows, j);
    types::is_product(types, a.source, part, rest) && a.target == to
}

// A case: the source is a sum and the rest, and each branch goes from its part of the sum and the rest.
fn case_fits(
    types: &[u8],
    nodes: &[u32],
    arrows: &[u8],
    s: u32,
    t: u32,
    from: usize,
    to: usize,
) -> bool
    ensures { result ≡ kind_rule (type_records types.now) (lent_nodes [] nodes.now)
        (arrow_records arrows.now) from to (case s t) }
{
    let sum = types::left_of(types, from);
    let rest = types::right_of(types, from);
    let left = types::left_of(types, sum);
    let right = types::right_of(types, sum);
    types::is_product(types, from, sum, rest)
        && types::is_sum(types, sum, left, right)
        && branch_fits(types, nodes, arrows, s, left, rest, to)
        && branch_fits(types, nodes, arrows, t, right, rest, to)
}

// A pair: both children from the source, and the target their product.
fn pair_fits(types: &[u8], arrows: &[u8], s: u32, t: u32, from: usize, to: usize) -> bool
    ensures { (ns : List Node) → result ≡ kind_rule (type_records types.now) ns (arrow_records arrows.now) from to (pair s t) }
{
    let a = arrow_at(arrows, s);
    let b = arrow_at(arrows, t);
    a.source == from && b.source == from && types::is_product(types, to, a.target, b.target)
}

// A disconnect: the left child goes from 2^256 and the source to B and C, the right one from C to D, and the target is B and D.
fn disconnect_fits(types: &[u8], arrows: &[u8], s: u32, t: u32, from: usize, to: usize) -> bool
    ensures { (ns : List Node) → result ≡ kind_rule (type_records types.now) ns (arrow_records arrows.now) from to (disconnect s t) }
{
    let a = arrow_at(arrows, s);
    let b = arrow_at(arrows, t);
    let word = types::left_of(types, a.source);
    let kept = types::left_of(types, a.target);
    let handed = types::right_of(types, a.target);
    types::is_product(types, a.source, word, from)
        && types::is_word(types, 8, word)
        && types::is_product(types, a.target, kept, handed)
        && b.source == handed
        && types::is_product(types, to, kept, b.target)
}

// A word of 2^(n - 1) bits, from unit; its type has n - 1 products above the bits.
fn word_fits(types: &[u8], n: u32, from: usize, to: usize) -> bool
    ensures { (ns : List Node) (as' : List ScopeArrow) (bs : List ℕ) → result ≡ kind_rule (type_records types.now) ns as' from to (word n bs) }
{
    types::is_unit(types, from) && types::is_word(types, n.saturating_sub(1), to)
}

// An injl: from the child's source to a sum whose left part is the child's target.
fn injl_fits(types: &[u8], arrows: &[u8], s: u32, from: usize, to: usize) -> bool
    ensures { (ns : List Node) → result ≡ kind_rule (type_records types.now) ns (arrow_records arrows.now) from to (injl s) }
{
    let a = arrow_at(arrows, s);
    a.source == from && types::is_sum(types, to, a.target, types::right_of(types, to))
}

// An injr: the same of the right part.
fn injr_fits(types: &[u8], arrows: &[u8], s: u32, from: usize, to: usize) -> bool
    ensures { (ns : List Node) → result ≡ kind_rule (type_records types.now) ns (arrow_records arrows.now) from to (injr s) }
{
    let a = arrow_at(arrows, s);
    a.source == from && types::is_sum(types, to, types::left_of(types, to), a.target)
}

// A take: from a product whose left part is the child's source to the child's target.
fn take_fits(types: &[u8], arrows: &[u8], s: u32, from: usize, to: usize) -> bool
    ensures { (ns : List Node) → result ≡ kind_rule (type_records types.now) ns (arrow_records arrows.now) from to (take s) }
{
    let a = arrow_at(arrows, s);
    types::is_product(types, from, a.source, types::right_of(types, from)) && a.target == to
}

// A drop: the same of the right part.
fn drop_fits(types: &[u8], arrows: &[u8], s: u32, from: usize, to: usize) -> bool
    ensures { (ns : List Node) → result ≡ kind_rule (type_records types.now) ns (arrow_records arrows.now) from to (drop s) }
{
    let a = arrow_at(arrows, s);
    types::is_product(types, from, types::left_of(types, from), a.source) && a.target == to
}

// Whether a node of this record may go from one type to the other; a hidden node goes from record 0 to record 0, what has no kind, as a
// fail node, anywhere.
#[tactic(auto, unfolding(scope::specs::Nodes::node_of))]
fn kind_fits(
    types: &[u8],
    nodes: &[u32],
    arrows: &[u8],
    r: NodeRecord,
    from: usize,
    to: usize,
) -> bool
    ensures { result ≡ kind_rule (type_records types.now) (lent_nodes [] nodes.now)
        (arrow_records arrows.now) from to (node_is [] (record_of r)) }
{
    let Some(kind) = table::kind_of(r) else {
        return true;
    };
    match kind {
        Kind::Comp => comp_fits(arrows, r.first, r.second, from, to),
        Kind::Case => case_fits(types, nodes, arrows, r.first, r.second, from, to),
        Kind::Pair => pair_fits(types, arrows, r.first, r.second, from, to),
        Kind::Disconnect => disconnect_fits(types, arrows, r.first, r.second, from, to),
        Kind::Injl => injl_fits(types, arrows, r.first, from, to),
        Kind::Injr => injr_fits(types, arrows, r.first, from, to),
        Kind::Take => take_fits(types, arrows, r.first, from, to),
        Kind::Drop => drop_fits(types, arrows, r.first, from, to),
        Kind::Iden => from == to,
        Kind::Unit => types::is_unit(types, to),
        Kind::Fail | Kind::Witness => true,
        Kind::Disconnect1 => false,
        Kind::Hidden => from == 0 && to == 0,
        Kind::Word => word_fits(types, r.first, from, to),
    }
}

// Whether the arrow of node i is in the type table and the report's.
#[tactic(auto, using(crate::proofs::KindNumbers::arrow_is, types::proofs::Records::length_records), unfolding(scope::specs::Numbers::every))]
pub fn arrow_fits(types: &[u8], nodes: &[u32], arrows: &[u8], i: u32) -> bool
    ensures { result ≡ arrow_rule (type_records types.now) (lent_nodes [] nodes.now) (arrow_records arrows.now) i }
{
    let own = arrow_at(arrows, i);
    let count = types.len() / limits::TYPE_BYTES;
    let r = table::record_at(nodes, i);
    own.source < count
        && own.target < count
        && kind_fits(types, nodes, arrows, r, own.source, own.target)
}

// No node is a disconnect with one child (11).
fn none_one_child(table: &NodeTable<'_>) -> Result<(), Refusal>
    ensures { (ts : List TypeRecord) (as' : List ScopeArrow) → check_of result
        ≡ each (length (node_records table.now.nodes.now)) (no_one_child ts (lent_nodes [] table.now.nodes.now) as') OneChildDisconnect }
{
    for i in 0..table.count() {
        let r = table::record_at(table.nodes, i);
        if table::kind_of(r) == Some(Kind::Disconnect1) {
            return Err(Refusal::OneChildDisconnect(i));
        }
    }
    Ok(())
}

// As many arrows as nodes (12).
fn one_each(table: &NodeTable<'_>, arrows: &[u8]) -> Result<(), Refusal>
    ensures { check_of result ≡ require (eqb (length (arrow_records arrows.now)) (length (node_records table.now.nodes.now)))
        (BadArrow (length (node_records table.now.nodes.now))) }
{
    let n = table.count();
    if arrows.len() / limits::ARROW_BYTES != common::place(n) {
        return Err(Refusal::Arrow(n));
    }
    Ok(())
}

// Node by node: no earlier node is equal to it (9), and its arrow is the report's (12).
fn every_node(table: &NodeTable<'_>, tables: &LentTables<'_>) -> Result<(), Refusal>
    ensures { check_of result ≡ each (length (node_records table.now.nodes.now))
        (lent_rule tables.now.types.now table.now.nodes.now tables.now.arrows.now tables.now.program.now tables.now.hashes.now)
        (lent_refusal tables.now.types.now table.now.nodes.now tables.now.arrows.now tables.now.program.now tables.now.hashes.now) }
{
    let again = equal::first_repeat(table.nodes, tables.arrows, tables.program, tables.hashes);
    for i in 0..table.count() {
        if again == Some(i) {
            return Err(Refusal::NodeRepeated(i));
        }
        if !arrow_fits(tables.types, table.nodes, tables.arrows, i) {
            return Err(Refusal::Arrow(i));
        }
    }
    Ok(())
}

// The arrows of a lent node table, after its count (4): 11, the count of the arrows, then node by node 9 and 12.
pub fn check_arrows(tables: &LentTables<'_>) -> Result<(), Refusal>
    ensures { check_of result ≡ counted_arrows tables.now.types.now tables.now.nodes.now tables.now.arrows.now
        tables.now.program.now tables.now.hashes.now }
{
    let table = NodeTable::of(tables.nodes)?;
    none_one_child(&table)?;
    one_each(&table, tables.arrows)?;
    every_node(&table, tables)
}
