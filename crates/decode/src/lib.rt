// Decoding, after bit_encoding/decode.rs: program bytes into the lent node store, four 32-bit numbers a node, and the lent hash store.
// All nodes are read first (3, 4, 5, 21, and 17 at 3 and 4), then comes the walk (6 to 9), then the closing (10).
// A node's bits are read by value, and only then do its bytes and its record go into the stores.
// A refusal leaves both stores zero; else they hold the table, and zeros after it.
#![tactic(auto)]

ghost use Rattle.std.specs.Prelude.{◌≡◌, [], ◌+◌, ◌*◌, ◌-◌, ◌/◌, ◌<◌, ◌≤◌, length};
ghost use Rattle.limits.specs.Limits.{dossier_bytes, node_count, node_numbers, word_most};
ghost use Rattle.refusal.specs.declared.Refusal.TheVariants.{Closing};
ghost use Rattle.scope.specs.Check.{require};
ghost use Rattle.scope.specs.Nodes.{kind_number};
ghost use Rattle.scope.specs.Numbers.{stream_of};
ghost use Rattle.scope.specs.Reading.{refusal_at, code as code_at, natural_up_to, child, combinator as combinator_at, word_item, node as node_at, nodes_from};
ghost use Rattle.scope.specs.Closing.{closes, decode as decode_all};
ghost use Rattle.bititer.specs.Answers.{bytes_fault, got_bytes, stored, storing};
ghost use Rattle.bititer.specs.Windows.{natural_entries};
ghost use Rattle.common.specs.Answers.{check_of};
ghost use Rattle.table.specs.Answers.{kind_meant, record_of};
ghost use Rattle.decode.specs.Answers.{number_of, size_of, said_of};
ghost use Rattle.decode.specs.Heads.{at_node, TableMeans, bytes_after, two_children, one_child, plain, third, last, word_from, head_of, count_in};
ghost use Rattle.decode.specs.Stores.{record_put, NodeMeans, Room, StepMeans, ReadMeans, read_all, table_of, JudgedMeans, DecodedMeans, left, left_by};

use bititer::BytesFault;
use refusal::Refusal;
use table::{Kind, NodeRecord};

// How many records and how many bytes of hashes were decoded.
#[derive(Clone, Copy, Debug, PartialEq, Eq)]
pub struct Sizes {
    pub nodes: u32,
    pub hashes: u32,
}

// The sizes of no table.
const NO_TABLE: Sizes = Sizes {
    nodes: 0,
    hashes: 0,
};

// The bytes that follow a node's bits: none, the 32 of a hidden node, or the 64 of a fail node.
#[derive(Clone, Copy)]
enum Follows {
    Nothing,
    Hash,
    Fail,
}

// A node before the bytes that follow it.
#[derive(Clone, Copy)]
struct NodeHead {
    node: NodeRecord,
    follows: Follows,
}

// How far the stores are filled, in records and in bytes, and the position after the last node read.
#[derive(Clone, Copy)]
struct Progress {
    nodes: u32,
    hashes: u32,
    at: usize,
}

// The program's bytes, and the table that most naturals in them are read by.
#[derive(Clone, Copy)]
struct Reader<'a> {
    naturals: &'a [u8; 256],
    program: &'a [u8],
    ghost table_is_right: { naturals.now ≡ natural_entries },
}

// Why the bytes of node i are refused.
fn bytes_refusal(why: BytesFault, i: u32) -> Refusal
    ensures { result ≡ refusal_at i (bytes_fault why) }
{
    match why {
        BytesFault::Ended => Refusal::StreamEnded(i),
        BytesFault::NoRoom => Refusal::StoreShort(4),
    }
}

// The head of a node of this kind whose numbers are these.
fn head(kind: Kind, first: u32, second: u32, follows: Follows) -> NodeHead
    ensures { result ≡ plain (kind_number (kind_meant kind)) first second follows }
{
    NodeHead {
        node: NodeRecord {
            kind: u32::from(kind),
            first,
            second,
            third: 0,
        },
        follows,
    }
}

// The kind with two children that has this subcode.
fn kind_of_two(sub: u8) -> Kind
    requires { sub < 4 }
    ensures { kind_number (kind_meant result) ≡ sub }
{
    match sub {
        0 => Kind::Comp,
        1 => Kind::Case,
        2 => Kind::Pair,
        _ => Kind::Disconnect,
    }
}

// The kind with one child that has this subcode.
fn kind_of_one(sub: u8) -> Kind
    requires { sub < 4 }
    ensures { kind_number (kind_meant result) ≡ 4 + sub }
{
    match sub {
        0 => Kind::Injl,
        1 => Kind::Injr,
        2 => Kind::Take,
        _ => Kind::Drop,
    }
}

// How many bytes follow.
fn bytes_of(follows: Follows) -> u32
    ensures { result ≡ size_of follows }
{
    match follows {
        Follows::Nothing => 0,
        Follows::Hash => limits::HASH_BYTES as u32,
        Follows::Fail => limits::FAIL_BYTES as u32,
    }
}

// A record into the node store.
fn put_record(nodes: &mut [u32], i: u32, r: NodeRecord)
    requires { node_numbers * i + node_numbers ≤ length nodes.old }
    ensures { nodes.new ≡ record_put nodes.old i (record_of r) }
{
    let at = limits::NODE_NUMBERS * common::place(i);
    nodes[at] = r.kind;
    nodes[at + 1] = r.first;
    nodes[at + 2] = r.second;
    nodes[at + 3] = r.third;
}

impl Reader<'_> {
    // A bit of node i, and the position after it.
    fn bit(&self, i: u32, at: usize) -> Result<(u8, usize), Refusal>
        ensures { number_of result ≡ at_node i (code_at (stream_of self.now.program.now) 1 at) }
    {
        bititer::bit(self.program, at).ok_or(Refusal::StreamEnded(i))
    }

    // Two bits of node i as a number, and the position after them.
    fn two_bits(&self, i: u32, at: usize) -> Result<(u8, usize), Refusal>
        ensures { number_of result ≡ at_node i (code_at (stream_of self.now.program.now) 2 at) }
    {
        bititer::two_bits(self.program, at).ok_or(Refusal::StreamEnded(i))
    }

    // A natural of node i, at most `most`, length by length, and the position after it.
    fn number_by_lengths(&self, at: usize, most: u32, i: u32) -> Result<(u32, usize), Refusal>
        ensures { number_of result ≡ at_node i (natural_up_to (stream_of self.now.program.now) most at) }
    {
        match bititer::natural_by_lengths(self.program, at, most) {
            Ok((n, bits)) => Ok((n, at + bits)),
            Err(why) => Err(bititer::natural_refusal(why, i)),
        }
    }

    // The natural from a position on, and the position after it, by the table of naturals: it, or its length, stands whole in a byte; none
    // where its code is too long for that.
    fn by_table(&self, at: usize) -> Option<(u32, usize)>
        ensures { TableMeans (stream_of self.now.program.now) at result }
    {
        let w = bititer::window(self.program, at)?;
        let whole = u32::from(self.naturals[(w / 131_072) as usize]);
        if 0 < whole {
            return Some((whole / 16, at + (whole % 16) as usize));
        }
        let length = u32::from(self.naturals[(w / 65_536 % 256) as usize]);
        if length == 0 {
            return None;
        }
        let first = 1 + length % 16;
        let count = length / 16;
        let n = bititer::after_one(w, first, count);
        Some((n, at + (first + count) as usize))
    }

    // A natural of node i, at most `most`, and the position after it: by the table, or else length by length.
    fn number(&self, at: usize, most: u32, i: u32) -> Result<(u32, usize), Refusal>
        ensures { number_of result ≡ at_node i (natural_up_to (stream_of self.now.program.now) most at) }
    {
        let Some((n, next)) = self.by_table(at) else {
            return self.number_by_lengths(at, most, i);
        };
        if most < n {
            return Err(Refusal::Natural(i));
        }
        Ok((n, next))
    }

    // A child of node i, told by its distance, and the position after that.
    fn child(&self, i: u32, at: usize) -> Result<(u32, usize), Refusal>
        ensures { number_of result ≡ at_node i (child (stream_of self.now.program.now) i at) }
    {
        let (distance, next) = self.number(at, i, i)?;
        Ok((i - distance, next))
    }

    // A node with one child, and the position after it.
    fn one_child(&self, kind: Kind, i: u32, at: usize) -> Result<(NodeHead, usize), Refusal>
        ensures { head_of (stream_of self.now.program.now) i result
            ≡ at_node i (one_child (stream_of self.now.program.now) (kind_number (kind_meant kind)) i at) }
    {
        let (only, next) = self.child(i, at)?;
        Ok((head(kind, only, 0, Follows::Nothing), next))
    }

    // A node with two children. The first distance is judged before the second is read.
    fn two_children(&self, kind: Kind, i: u32, at: usize) -> Result<(NodeHead, usize), Refusal>
        ensures { head_of (stream_of self.now.program.now) i result
            ≡ at_node i (two_children (stream_of self.now.program.now) (kind_number (kind_meant kind)) i at) }
    {
        let (left, middle) = self.child(i, at)?;
        let (right, next) = self.child(i, middle)?;
        Ok((head(kind, left, right, Follows::Nothing), next))
    }

    // Iden, unit, fail, or a disconnect with one child.
    fn third_group(
        &self,
        i: u32,
        held: u32,
        sub: u8,
        at: usize,
    ) -> Result<(NodeHead, usize), Refusal>
        requires { sub < 4 }
        ensures { head_of (stream_of self.now.program.now) i result ≡ at_node i (third (stream_of self.now.program.now) i held sub at) }
    {
        match sub {
            0 => Ok((head(Kind::Iden, 0, 0, Follows::Nothing), at)),
            1 => Ok((head(Kind::Unit, 0, 0, Follows::Nothing), at)),
            2 => Ok((head(Kind::Fail, held, 0, Follows::Fail), at)),
            _ => self.one_child(Kind::Disconnect1, i, at),
        }
    }

    // A witness, or a hidden node.
    fn last_group(&self, i: u32, held: u32, at: usize) -> Result<(NodeHead, usize), Refusal>
        ensures { head_of (stream_of self.now.program.now) i result ≡ at_node i (last (stream_of self.now.program.now) held at) }
    {
        let (sub, next) = self.bit(i, at)?;
        if sub == 1 {
            return Ok((head(Kind::Witness, 0, 0, Follows::Nothing), next));
        }
        Ok((head(Kind::Hidden, held, 0, Follows::Hash), next))
    }

    // A combinator after its two-bit code, where the hash store holds so many bytes.
    fn combinator(
        &self,
        i: u32,
        held: u32,
        code: u8,
        at: usize,
    ) -> Result<(NodeHead, usize), Refusal>
        ensures { head_of (stream_of self.now.program.now) i result ≡ at_node i (combinator_at (stream_of self.now.program.now) i held code at) }
    {
        if 3 <= code {
            return self.last_group(i, held, at);
        }
        let (sub, next) = self.two_bits(i, at)?;
        match code {
            0 => self.two_children(kind_of_two(sub), i, next),
            1 => self.one_child(kind_of_one(sub), i, next),
            _ => self.third_group(i, held, sub, next),
        }
    }

    // A word of n whose bits begin at a position.
    fn word_from(&self, i: u32, n: u32, first: usize) -> Result<(NodeHead, usize), Refusal>
        requires { (1 ≤ n) × (n ≤ word_most) × (first ≤ 8 * dossier_bytes) × (length self.now.program.now ≤ dossier_bytes) }
        ensures { head_of (stream_of self.now.program.now) i result ≡ at_node i (word_from (stream_of self.now.program.now) n first) }
    {
        let end = first + common::word_bits(n);
        if self.program.len() < (end + 7) / 8 {
            return Err(Refusal::StreamEnded(i));
        }
        Ok((head(Kind::Word, n, first as u32, Follows::Nothing), end))
    }

    // A word after its two bits.
    fn word(&self, i: u32, at: usize) -> Result<(NodeHead, usize), Refusal>
        ensures { head_of (stream_of self.now.program.now) i result ≡ at_node i (word_item (stream_of self.now.program.now) at) }
    {
        let (n, first) = self.number(at, limits::WORD_MOST, i)?;
        self.word_from(i, n, first)
    }

    // The head of node i bit by bit, and the position after it, where the hash store holds so many bytes.
    fn head_by_bits(&self, i: u32, held: u32, at: usize) -> Result<(NodeHead, usize), Refusal>
        ensures { head_of (stream_of self.now.program.now) i result ≡ at_node i (node_at (stream_of self.now.program.now) i held at) }
    {
        let (other, second) = self.bit(i, at)?;
        if other == 0 {
            let (code, next) = self.two_bits(i, second)?;
            return self.combinator(i, held, code, next);
        }
        let (jet, next) = self.bit(i, second)?;
        if jet == 1 {
            return Err(Refusal::Jet(i));
        }
        self.word(i, next)
    }

    // The head of node i, and the position after it, where the hash store holds so many bytes: a window has the five bits that are the kind of
    // most.
    fn node_head(&self, i: u32, held: u32, at: usize) -> Result<(NodeHead, usize), Refusal>
        ensures { head_of (stream_of self.now.program.now) i result ≡ at_node i (node_at (stream_of self.now.program.now) i held at) }
    {
        let Some(w) = bititer::window(self.program, at) else {
            return self.head_by_bits(i, held, at);
        };
        let Ok(kind) = Kind::try_from(w / 1_048_576) else {
            return self.head_by_bits(i, held, at);
        };
        let next = at + 5;
        match kind {
            Kind::Comp | Kind::Case | Kind::Pair | Kind::Disconnect => {
                self.two_children(kind, i, next)
            }
            Kind::Injl | Kind::Injr | Kind::Take | Kind::Drop => { self.one_child(kind, i, next) }
            Kind::Iden | Kind::Unit => Ok((head(kind, 0, 0, Follows::Nothing), next)),
            _ => self.head_by_bits(i, held, at),
        }
    }

    // The bytes that follow a node's bits, into the hash store from `held` on, and the position after them.
    fn store_bytes(
        &self,
        follows: Follows,
        at: usize,
        hashes: &mut [u8],
        held: usize,
    ) -> Result<usize, BytesFault>
        requires { held ≤ length hashes.old }
        ensures { stored (got_bytes result) hashes.new ≡ storing (bytes_after (stream_of self.now.program.now) follows at) hashes.old held }
    {
        match follows {
            Follows::Nothing => Ok(at),
            Follows::Hash => bititer::hash_bytes(self.program, at, hashes, held),
            Follows::Fail => bititer::fail_bytes(self.program, at, hashes, held),
        }
    }

    // Node i whole: its head, with the position after its bytes, which stand in the hash store from `held` on.
    fn read_node(
        &self,
        hashes: &mut [u8],
        i: u32,
        held: u32,
        at: usize,
    ) -> Result<(NodeHead, usize), Refusal>
        requires { held ≤ length hashes.old }
        ensures { NodeMeans (stream_of self.now.program.now) i held at hashes.old result hashes.new }
    {
        let (h, middle) = self.node_head(i, held, at)?;
        match self.store_bytes(h.follows, middle, hashes, common::place(held)) {
            Ok(next) => Ok((h, next)),
            Err(why) => Err(bytes_refusal(why, i)),
        }
    }

    // The next node, into both stores.
    fn next_node(
        &self,
        nodes: &mut [u32],
        hashes: &mut [u8],
        done: Progress,
    ) -> Result<Progress, Refusal>
        requires { Room nodes.old hashes.old done }
        ensures { StepMeans (stream_of self.now.program.now) nodes.old hashes.old done result nodes.new hashes.new }
    {
        let i = done.nodes;
        let (h, next) = self.read_node(hashes, i, done.hashes, done.at)?;
        put_record(nodes, i, h.node);
        Ok(Progress {
            nodes: i + 1,
            hashes: done.hashes + bytes_of(h.follows),
            at: next,
        })
    }

    // So many nodes from a position on, into both stores.
    fn read_nodes(
        &self,
        nodes: &mut [u32],
        hashes: &mut [u8],
        count: u32,
        first: usize,
    ) -> Result<Progress, Refusal>
        requires { (1 ≤ count) × (count ≤ node_count) × (node_numbers * count ≤ length nodes.old) }
        ensures { ReadMeans (nodes_from (stream_of self.now.program.now) (length hashes.old) count 0 [] [] first) result
            nodes.new hashes.new }
    {
        let mut done = Progress {
            nodes: 0,
            hashes: 0,
            at: first,
        };
        for _ in 0..count {
            done = self.next_node(nodes, hashes, done)?;
        }
        Ok(done)
    }

    // The count of nodes (3, 4), which the node store has room for (17 at 3), and the position after it.
    fn read_count(&self, room: usize) -> Result<(u32, usize), Refusal>
        ensures { number_of result ≡ count_in (stream_of self.now.program.now) room }
    {
        let (n, next) = self.number(0, limits::NODE_COUNT as u32, 0)?;
        if room < common::place(n) {
            return Err(Refusal::StoreShort(3));
        }
        Ok((n, next))
    }
}

// All nodes, into both stores, of a program that is not too long (1).
fn read_table(program: &[u8], nodes: &mut [u32], hashes: &mut [u8]) -> Result<Progress, Refusal>
    ensures { ReadMeans (read_all program.now (length nodes.old / node_numbers) (length hashes.old)) result
        nodes.new hashes.new }
{
    if limits::DOSSIER_BYTES < program.len() {
        return Err(Refusal::Header(0));
    }
    let naturals = bititer::natural_table();
    let reader = Reader {
        naturals: &naturals,
        program,
    };
    let (count, first) = reader.read_count(nodes.len() / limits::NODE_NUMBERS)?;
    reader.read_nodes(nodes, hashes, count, first)
}

// No whole byte is left after the last node, and the padding is zero (10).
fn closing(program: &[u8], done: Progress) -> Result<(), Refusal>
    ensures { check_of result ≡ require (closes (stream_of program.now) done.at) (Closing done.nodes) }
{
    if bititer::closes(program, done.at) {
        Ok(())
    } else {
        Err(Refusal::Closing(done.nodes))
    }
}

// The walk, and then the closing, of a table that was read.
fn judged(program: &[u8], nodes: &[u32], hashes: &[u8], done: Progress) -> Result<Sizes, Refusal>
    requires { (length nodes.now ≡ node_numbers * done.nodes) × (1 ≤ done.nodes) × (done.nodes ≤ node_count) }
    ensures { JudgedMeans program.now (table_of nodes.now hashes.now done) done result }
{
    table::walk(nodes, hashes)?;
    closing(program, done)?;
    Ok(Sizes {
        nodes: done.nodes,
        hashes: done.hashes,
    })
}

// Reading, walk and closing. The stores hold what was read, and are not cleared yet.
fn checked_table(program: &[u8], nodes: &mut [u32], hashes: &mut [u8]) -> Result<Sizes, Refusal>
    ensures { DecodedMeans (decode_all program.now (length nodes.old / node_numbers) (length hashes.old)) result
        nodes.new hashes.new }
{
    let done = read_table(program, nodes, hashes)?;
    judged(
        program,
        &nodes[..limits::NODE_NUMBERS * common::place(done.nodes)],
        &hashes[..common::place(done.hashes)],
        done,
    )
}

// A program's bytes into the lent stores: the sizes of the table, or why there is none. Behind the table the stores are cleared.
pub fn decode(program: &[u8], nodes: &mut [u32], hashes: &mut [u8]) -> Result<Sizes, Refusal>
    ensures { left (said_of result) nodes.new hashes.new
        ≡ left_by (decode_all program.now (length nodes.old / node_numbers) (length hashes.old))
        nodes.old hashes.old }
{
    let answer = checked_table(program, nodes, hashes);
    let kept = answer.unwrap_or(NO_TABLE);
    common::fill_from(nodes, limits::NODE_NUMBERS * common::place(kept.nodes), 0);
    common::fill_from(hashes, common::place(kept.hashes), 0);
    answer
}
