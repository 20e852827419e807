// The hashes of branches: the supplied ones judged (13), and the hash of a branch, handed back as 32 bytes of the slice that holds it.
// A hidden node's stands in the hash store, at the place that its record names. That of a disconnect's right child is among the supplied
// ones, which follow the disconnects with two children in node order. Any other node has none; where there is no hash the part is empty.
#![tactic(auto)]

ghost use Rattle.std.specs.Prelude.{◌≡◌, not, [], ◌++◌, ◌*◌, ◌^◌, ◌<◌, ◌≤◌, length, take, drop};
ghost use Rattle.promise.specs.Parts.{part_of};
ghost use Rattle.limits.specs.Limits.{node_count, hash_bytes};
ghost use Rattle.refusal.specs.declared.Refusal.TheVariants.{Hash};
ghost use Rattle.scope.specs.Check.{each};
ghost use Rattle.scope.specs.Hashes.{rights, count_place};
ghost use Rattle.common.specs.Answers.{check_of};
ghost use Rattle.table.specs.Lent.{lent_nodes};
ghost use Rattle.hashes.specs.Branch.{whole_part, entry_part, supplied_part, branch_part};
ghost use Rattle.hashes.specs.Hashes.{unlike_at, clash_at, counted_hashes};

use refusal::Refusal;
use table::{Kind, NodeTable};

// The 32 bytes from a place on; empty where they are not all there.
fn hash_at(bytes: &[u8], at: usize) -> &[u8]
    ensures { part_of result ≡ whole_part (part_of bytes.entry) at (take hash_bytes (drop at bytes.now)) }
{
    let hash = common::part(bytes, at, limits::HASH_BYTES);
    if hash.len() == limits::HASH_BYTES {
        return hash;
    }
    common::part(bytes, 0, 0)
}

// Entry e of the supplied hashes; empty where it is not all there.
fn entry_at(given: &[u8], e: usize) -> &[u8]
    ensures { part_of result ≡ entry_part (part_of given.entry) e }
{
    if given.len() / limits::HASH_BYTES <= e {
        return common::part(given, 0, 0);
    }
    hash_at(given, limits::HASH_BYTES * e)
}

// The first supplied hash that is for node j; empty where there is none.
fn supplied<'a>(nodes: &[u32], given: &'a [u8], j: usize) -> &'a [u8]
    ensures { part_of result ≡ supplied_part (part_of given.entry) j 0 (rights (lent_nodes [] nodes.now)) }
{
    let mut e = 0;
    for i in 0..nodes.len() / limits::NODE_NUMBERS {
        let r = table::record_in(nodes, i);
        if table::kind_of(r) == Some(Kind::Disconnect) {
            if common::place(r.second) == j {
                return entry_at(given, e);
            }
            e += 1;
        }
    }
    common::part(given, 0, 0)
}

// The hash of the branch at node j; empty for one that has no hash.
pub fn branch_hash<'a>(nodes: &[u32], hashes: &'a [u8], given: &'a [u8], j: usize) -> &'a [u8]
    ensures { part_of result ≡ branch_part nodes.now (part_of hashes.entry) (part_of given.entry) j }
{
    let r = table::record_in(nodes, j);
    if table::kind_of(r) == Some(Kind::Hidden) {
        return hash_at(hashes, common::place(r.first));
    }
    supplied(nodes, given, j)
}

// A count as a place: the last place stands for every count above it.
fn place_of(count: usize) -> u32
    ensures { result ≡ count_place count }
{
    u32::try_from(count).unwrap_or(u32::MAX)
}

// Puts the right children of the disconnects, in node order, at the front of an array, and answers how many there are.
fn rights_of(table: &NodeTable<'_>, children: &mut [u32; limits::NODE_COUNT]) -> usize
    ensures { (result ≡ length (rights (lent_nodes [] table.now.nodes.now)))
        × (children.new ≡ rights (lent_nodes [] table.now.nodes.now) ++ drop result children.old) }
{
    let mut count = 0;
    for i in 0..table.count() {
        let r = table::record_at(table.nodes, i);
        if table::kind_of(r) == Some(Kind::Disconnect) {
            children[count] = r.second;
            count += 1;
        }
    }
    count
}

// Whether entries d and e are for one child and unlike.
#[tactic(auto, using(crate::proofs::Entries::other_child))]
fn unlike(given: &[u8], children: &[u32], d: usize, e: usize) -> bool
    requires { (d < e) × (e < length children.now) × (hash_bytes * length children.now ≤ length given.now) }
    ensures { result ≡ unlike_at children.now given.now e d }
{
    children[d] == children[e] && !common::same_bytes(entry_at(given, d), entry_at(given, e))
}

// Whether entry e is unlike an earlier one of its child.
fn clashes(given: &[u8], children: &[u32], e: usize) -> bool
    requires { (e < length children.now) × (hash_bytes * length children.now ≤ length given.now) }
    ensures { result ≡ clash_at children.now given.now e }
{
    (0..e).any(|d| unlike(given, children, d, e))
}

// No entry is unlike an earlier one of its child.
fn none_clashes(given: &[u8], children: &[u32]) -> Result<(), Refusal>
    requires { (length children.now ≤ node_count) × (hash_bytes * length children.now ≤ length given.now) }
    ensures { check_of result ≡ each (length children.now) (λ e. not (clash_at children.now given.now e)) Hash }
{
    for e in 0..children.len() {
        if clashes(given, children, e) {
            return Err(Refusal::Hash(e as u32));
        }
    }
    Ok(())
}

// The supplied hashes of a lent node table, after its count (4): 13 for their count, then at the first entry unlike an earlier one of its child.
pub fn check_hashes(nodes: &[u32], given: &[u8]) -> Result<(), Refusal>
    ensures { check_of result ≡ counted_hashes nodes.now given.now }
{
    let table = NodeTable::of(nodes)?;
    let mut children = [0u32; limits::NODE_COUNT];
    let count = rights_of(&table, &mut children);
    let held = given.len() / limits::HASH_BYTES;
    if held != count {
        return Err(Refusal::Hash(place_of(held)));
    }
    none_clashes(given, &children[..count])
}
