// The first node of lent tables that an earlier one is equal to (9): the same kind, children, word or fail bits, and the same arrow.
// Each node falls into a bucket by its numbers, its bits and its arrow, and is held against the earlier nodes of its bucket alone. Two arrays
// lead through the buckets: to the latest node of each, and from each node to the one before it; an entry has 16 bits, one more than a node, and
// 0 is none.
#![tactic(auto)]

ghost use Rattle.std.specs.Prelude.{◌≡◌, not, List, [], ◌∷◌, ℕ, ◌+◌, ◌*◌, ◌-◌, ◌%◌, ◌^◌, ◌<◌, ◌≤◌, min, length, get_or};
ghost use Rattle.limits.specs.Limits.{node_count};
ghost use Rattle.report.specs.Bits.{bits_of, number_from};
ghost use Rattle.scope.specs.Numbers.{same};
ghost use Rattle.scope.specs.Nodes.{node_records};
ghost use Rattle.scope.specs.Equal.{same_key};
ghost use Rattle.scope.specs.Arrows.{arrow_records, target};
ghost use Rattle.common.specs.Words.{word_bits};
ghost use Rattle.common.specs.Cells.{bits_from};
ghost use Rattle.table.specs.Answers.{record_of};
ghost use Rattle.equal.specs.Keys.{record_key, equal_at, fresh, first_repeat};
ghost use Rattle.equal.specs.Buckets.{buckets, key_number, arrow_number, bucket_at, LastOfBucket, Chained};

use table::{Kind, NodeRecord};

// How many buckets there are.
const BUCKETS: usize = 8_179;

// The arrow of node i as one number; 0 past the end of the table.
fn arrow_number(arrows: &[u8], i: usize) -> usize
    ensures { (result ≡ arrow_number (arrow_records arrows.now) i) × (target (arrow_records arrows.now) i < 65536)
        × (result < 2 ^ 32) }
{
    if i < arrows.len() / limits::ARROW_BYTES {
        let at = limits::ARROW_BYTES * i;
        return common::index(common::half_at(arrows, at)) * 65_536
            + common::index(common::half_at(arrows, at + 2));
    }
    0
}

// The number whose binary digits are those of another and then n bits from p on, as far as buckets tell it. A turn of the loop takes eight bits
// where there are as many, or else one.
fn bits_number(s: &[u8], p: usize, n: usize, start: usize) -> usize
    requires { (p + n < 2 ^ 40) × (start < 2 ^ 40) }
    ensures { result ≡ number_from start (bits_from (bits_of s.now) p n) % buckets }
{
    let mut at = p;
    let mut left = n;
    let mut number = start;
    while 0 < left {
        let x = usize::from(cells::read_eight(s, at));
        if 8 <= left {
            number = (number * 256 + x) % BUCKETS;
            at += 8;
            left -= 8;
        } else {
            number = (number * 2 + x / 128) % BUCKETS;
            at += 1;
            left -= 1;
        }
    }
    number % BUCKETS
}

// The same of bytes, each in the place of a digit.
fn bytes_number(bytes: &[u8], start: usize) -> usize
    requires { start < 2 ^ 40 }
    ensures { result ≡ number_from start bytes.now % buckets }
{
    let mut number = start;
    for x in bytes {
        number = (number * 2 + usize::from(*x)) % BUCKETS;
    }
    number % BUCKETS
}

// The number of a record's key, if it has one.
#[tactic(auto, unfolding(crate::specs::Buckets::key_number, crate::specs::Keys::key_from, report::specs::Bits::number_from))]
fn key_number(program: &[u8], hashes: &[u8], r: NodeRecord) -> Option<usize>
    ensures { result ≡ key_number (record_key program.now hashes.now (record_of r)) }
{
    let one = common::place(r.kind) * 2 + common::place(r.first);
    match table::kind_of(r)? {
        Kind::Comp | Kind::Case | Kind::Pair => Some((one * 2 + common::place(r.second)) % BUCKETS),
        Kind::Injl | Kind::Injr | Kind::Take | Kind::Drop => Some(one % BUCKETS),
        Kind::Iden => Some(8),
        Kind::Unit => Some(9),
        Kind::Fail => Some(bytes_number(
            common::part(hashes, common::place(r.first), limits::FAIL_BYTES),
            10,
        )),
        Kind::Word => Some(bits_number(
            program,
            common::place(r.second),
            common::word_bits(r.first),
            28 + common::place(r.first),
        )),
        Kind::Disconnect | Kind::Disconnect1 | Kind::Witness | Kind::Hidden => None,
    }
}

// The bucket of node i, if it has a key.
fn bucket(nodes: &[u32], arrows: &[u8], program: &[u8], hashes: &[u8], i: usize) -> Option<usize>
    ensures { result ≡ bucket_at nodes.now arrows.now program.now hashes.now i }
{
    let number = key_number(program, hashes, table::record_in(nodes, i))?;
    Some((number + 97 * arrow_number(arrows, i)) % BUCKETS)
}

// Whether n bits from p on are those from q on. A turn of the loop takes eight bits where there are as many, or else one.
fn same_bits(s: &[u8], p: usize, q: usize, n: usize) -> bool
    requires { (p + n < 2 ^ 40) × (q + n < 2 ^ 40) }
    ensures { result ≡ same (bits_from (bits_of s.now) p n) (bits_from (bits_of s.now) q n) }
{
    let mut k: usize = 0;
    while k < n {
        let x = cells::read_eight(s, p + k);
        let y = cells::read_eight(s, q + k);
        if 8 <= n - k {
            if x != y {
                return false;
            }
            k += 8;
        } else {
            if x / 128 != y / 128 {
                return false;
            }
            k += 1;
        }
    }
    true
}

// Whether two words have the same n and the same bits.
fn same_word(program: &[u8], r: NodeRecord, s: NodeRecord) -> bool
    ensures { result ≡ same (r.first ∷ bits_from (bits_of program.now) r.second (word_bits r.first))
        (s.first ∷ bits_from (bits_of program.now) s.second (word_bits s.first)) }
{
    r.first == s.first
        && same_bits(
            program,
            common::place(r.second),
            common::place(s.second),
            common::word_bits(r.first),
        )
}

// Whether two records have the same key.
#[tactic(auto, unfolding(scope::specs::Equal::same_key, scope::specs::Numbers::same, crate::specs::Keys::key_from))]
fn same_key(program: &[u8], hashes: &[u8], r: NodeRecord, s: NodeRecord) -> bool
    ensures { result ≡ same_key (record_key program.now hashes.now (record_of r))
        (record_key program.now hashes.now (record_of s)) }
{
    if r.kind != s.kind {
        return false;
    }
    let Some(kind) = table::kind_of(r) else {
        return false;
    };
    match kind {
        Kind::Comp | Kind::Case | Kind::Pair => r.first == s.first && r.second == s.second,
        Kind::Injl | Kind::Injr | Kind::Take | Kind::Drop => r.first == s.first,
        Kind::Iden | Kind::Unit => true,
        Kind::Fail => common::same_bytes(
            common::part(hashes, common::place(r.first), limits::FAIL_BYTES),
            common::part(hashes, common::place(s.first), limits::FAIL_BYTES),
        ),
        Kind::Word => same_word(program, r, s),
        Kind::Disconnect | Kind::Disconnect1 | Kind::Witness | Kind::Hidden => false,
    }
}

// Whether nodes j and i are equal.
fn equal(nodes: &[u32], arrows: &[u8], program: &[u8], hashes: &[u8], j: usize, i: usize) -> bool
    ensures { result ≡ equal_at nodes.now arrows.now program.now hashes.now j i }
{
    arrow_number(arrows, j) == arrow_number(arrows, i)
        && same_key(
            program,
            hashes,
            table::record_in(nodes, j),
            table::record_in(nodes, i),
        )
}

// Whether a node before i is equal to it, where `last` leads to the last one before it in its bucket. The loop goes from node to node down the
// bucket, so its steps are of any size.
fn met(
    nodes: &[u32],
    arrows: &[u8],
    program: &[u8],
    hashes: &[u8],
    before: &[u16],
    i: usize,
    last: u16,
) -> bool
    requires { (i < length before.now) × Chained nodes.now arrows.now program.now hashes.now before.now i
        × LastOfBucket nodes.now arrows.now program.now hashes.now last i }
    ensures { not result ≡ fresh nodes.now arrows.now program.now hashes.now i }
{
    let mut m = usize::from(last);
    while 0 < m {
        if equal(nodes, arrows, program, hashes, m - 1, i) {
            return true;
        }
        m = usize::from(before[m - 1]);
    }
    false
}

// How many nodes are judged: as many as a table may have at most.
fn judged(nodes: &[u32]) -> usize
    ensures { result ≡ min (length (node_records nodes.now)) node_count }
{
    (nodes.len() / limits::NODE_NUMBERS).min(limits::NODE_COUNT)
}

// The first node that an earlier one is equal to, of as many as a table may have.
#[tactic(auto, using(crate::proofs::KindKeys::bucket_within))]
pub fn first_repeat(nodes: &[u32], arrows: &[u8], program: &[u8], hashes: &[u8]) -> Option<u32>
    ensures { result ≡ first_repeat nodes.now arrows.now program.now hashes.now }
{
    let mut latest = [0u16; BUCKETS];
    let mut before = [0u16; limits::NODE_COUNT];
    for i in 0..judged(nodes) {
        if let Some(b) = bucket(nodes, arrows, program, hashes, i) {
            let last = latest[b];
            if met(nodes, arrows, program, hashes, &before, i, last) {
                return Some(i as u32);
            }
            before[i] = last;
            latest[b] = i as u16 + 1;
        }
    }
    None
}
