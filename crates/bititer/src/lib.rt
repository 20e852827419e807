// Reading a lent byte slice at a bit position: a bit, two bits, a natural, 32 and 64 whole bytes, and whether the slice closes there. A
// reader takes the position by value and answers with the next one, a natural's with the bits that it took; a reader of bits has no answer
// where the stream has ended, and one that can fail in more ways tells its fault. The bits of a slice are
// `stream_of` of the requirements: from the top bit of each byte on, and none at all above the dossier's limit, so that no position wraps.
// Most naturals are read from a window, the 25 bits that any four bytes hold from a position on.
#![tactic(auto)]

ghost use Rattle.std.specs.Prelude.{◌≡◌, List, ℕ, ◌+◌, ◌*◌, ◌<◌, ◌≤◌, leb, length, take, drop};
ghost use Rattle.limits.specs.Limits.{natural_length, hash_bytes, fail_bytes};
ghost use Rattle.report.specs.Bits.{Bit, bits_of, number_from};
ghost use Rattle.scope.specs.Numbers.{stream_of};
ghost use Rattle.scope.specs.Reading.{refusal_at, code, natural_up_to, octets};
ghost use Rattle.scope.specs.Closing.{closes};
ghost use Rattle.bititer.specs.Answers.{got_code, natural_fault, got_natural, at_most, got_bytes, stored, storing};
ghost use Rattle.bititer.specs.Parts.{OnesMean, BitsMean};
ghost use Rattle.bititer.specs.Windows.{window_bits, got_window, Window, after_one, natural_entries, BeginsWith};

use refusal::Refusal;

// What can be wrong with a natural: the stream ended in it, a length was too long, or it is over its bound.
#[derive(Clone, Copy, Debug, PartialEq, Eq)]
pub enum NaturalFault {
    Ended,
    TooLong,
    OverBound,
}

// Why bytes are not read into a store: the stream ended in them, or the store has no room for them.
#[derive(Clone, Copy, Debug, PartialEq, Eq)]
pub enum BytesFault {
    Ended,
    NoRoom,
}

// How many bits a window has, and the least windows that begin with one, two, three and four ones.
const WINDOW_BITS: u32 = 25;

const ONE: u32 = 16_777_216;

const TWO_ONES: u32 = 25_165_824;

const THREE_ONES: u32 = 29_360_128;

const FOUR_ONES: u32 = 31_457_280;

// For each byte the natural that stands in its leading bits: sixteen times the number, and the bits that it takes; 0 where no whole one does.
const NATURALS: [u8; 256] = [
    17, 17, 17, 17, 17, 17, 17, 17, 17, 17, 17, 17, 17, 17, 17, 17, 17, 17, 17, 17, 17, 17, 17, 17,
    17, 17, 17, 17, 17, 17, 17, 17, 17, 17, 17, 17, 17, 17, 17, 17, 17, 17, 17, 17, 17, 17, 17, 17,
    17, 17, 17, 17, 17, 17, 17, 17, 17, 17, 17, 17, 17, 17, 17, 17, 17, 17, 17, 17, 17, 17, 17, 17,
    17, 17, 17, 17, 17, 17, 17, 17, 17, 17, 17, 17, 17, 17, 17, 17, 17, 17, 17, 17, 17, 17, 17, 17,
    17, 17, 17, 17, 17, 17, 17, 17, 17, 17, 17, 17, 17, 17, 17, 17, 17, 17, 17, 17, 17, 17, 17, 17,
    17, 17, 17, 17, 17, 17, 17, 17, 35, 35, 35, 35, 35, 35, 35, 35, 35, 35, 35, 35, 35, 35, 35, 35,
    35, 35, 35, 35, 35, 35, 35, 35, 35, 35, 35, 35, 35, 35, 35, 35, 51, 51, 51, 51, 51, 51, 51, 51,
    51, 51, 51, 51, 51, 51, 51, 51, 51, 51, 51, 51, 51, 51, 51, 51, 51, 51, 51, 51, 51, 51, 51, 51,
    70, 70, 70, 70, 86, 86, 86, 86, 102, 102, 102, 102, 118, 118, 118, 118, 135, 135, 151, 151,
    167, 167, 183, 183, 199, 199, 215, 215, 231, 231, 247, 247, 0, 0, 0, 0, 0, 0, 0, 0, 0, 0, 0, 0,
    0, 0, 0, 0, 0, 0, 0, 0, 0, 0, 0, 0, 0, 0, 0, 0, 0, 0, 0, 0,
];

// How many bits the slice's stream has.
fn stream_length(s: &[u8]) -> usize
    ensures { result ≡ length (stream_of s.now) }
{
    if limits::DOSSIER_BYTES < s.len() {
        return 0;
    }
    s.len() * 8
}

// The bit at p, and the position after it.
pub fn bit(s: &[u8], p: usize) -> Option<(u8, usize)>
    ensures { got_code result ≡ code (stream_of s.now) 1 p }
{
    if stream_length(s) <= p {
        return None;
    }
    let i = p / 8;
    let place = 7 - p % 8;
    Some(((s[i] >> place) % 2, p + 1))
}

// The two bits from p on, as a number, and the position after them.
pub fn two_bits(s: &[u8], p: usize) -> Option<(u8, usize)>
    ensures { got_code result ≡ code (stream_of s.now) 2 p }
{
    let (high, middle) = bit(s, p)?;
    let (low, next) = bit(s, middle)?;
    Some((high * 2 + low, next))
}

// How many ones stand from p on, and the position after the zero that ends them.
fn ones(s: &[u8], p: usize) -> Option<(u32, usize)>
    ensures { OnesMean (stream_of s.now) p result }
{
    for at in p..stream_length(s) {
        let (b, next) = bit(s, at)?;
        if b == 0 {
            return Some(((at - p) as u32, next));
        }
    }
    None
}

// The number that is 1 followed by the next `count` bits, and the position after them.
fn bits_after_one(s: &[u8], p: usize, count: u32) -> Option<(u32, usize)>
    requires { count ≤ natural_length }
    ensures { BitsMean (stream_of s.now) p count result }
{
    let mut at = p;
    let mut n: u32 = 1;
    for _ in 0..count {
        let (b, next) = bit(s, at)?;
        n = n * 2 + u32::from(b);
        at = next;
    }
    Some((n, at))
}

// A natural that was read with so many bits, unless it is over its bound.
fn within(n: u32, bits: usize, bound: u32) -> Result<(u32, usize), NaturalFault>
    ensures { (p : ℕ) → got_natural p result ≡ at_most bound n (p + bits) }
{
    if n <= bound {
        Ok((n, bits))
    } else {
        Err(NaturalFault::OverBound)
    }
}

// The natural from p on, which is at most `bound`, length by length. A length is refused before its bits are asked for.
pub fn natural_by_lengths(s: &[u8], p: usize, bound: u32) -> Result<(u32, usize), NaturalFault>
    ensures { got_natural p result ≡ natural_up_to (stream_of s.now) bound p }
{
    let (lengths, first) = ones(s, p).ok_or(NaturalFault::Ended)?;
    let mut at = first;
    let mut n: u32 = 1;
    for _ in 0..lengths {
        if limits::NATURAL_LENGTH < n {
            return Err(NaturalFault::TooLong);
        }
        let (longer, next) = bits_after_one(s, at, n).ok_or(NaturalFault::Ended)?;
        n = longer;
        at = next;
    }
    let bits = at - p;
    within(n, bits, bound)
}

// The table of naturals that stand whole in a byte.
pub fn natural_table() -> [u8; 256]
    ensures { result ≡ natural_entries }
{
    NATURALS
}

// The 25 bits from p on, as a number.
pub fn window(s: &[u8], p: usize) -> Option<u32>
    ensures { got_window p result ≡ code (stream_of s.now) window_bits p }
{
    let i = p / 8;
    let all = s.len();
    if all < i + 4 || limits::DOSSIER_BYTES < all {
        return None;
    }
    Some((common::number_at(s, i) << (p % 8)) >> 7)
}

// The number that is 1 followed by `count` bits of a window from its bit `at` on; 0 where the window has not so many.
pub fn after_one(w: u32, at: u32, count: u32) -> u32
    ensures { result ≡ after_one w at count }
{
    if WINDOW_BITS < count || WINDOW_BITS - count < at {
        return 0;
    }
    (1u32 << count) + (w >> (WINDOW_BITS - count - at)) % (1u32 << count)
}

// The natural that a window begins with, by the ones that its code begins with and the lengths that these tell of, and how many bits it
// takes; none where its code may go on past the window.
fn natural_in(w: u32) -> Option<(u32, u32)>
    ensures { (l : List Bit) → Window l w → BeginsWith l result }
{
    if w < ONE {
        return Some((1, 1));
    }
    if w < TWO_ONES {
        return Some((after_one(w, 2, 1), 3));
    }
    if w < THREE_ONES {
        let length = after_one(w, 3, 1);
        return Some((after_one(w, 4, length), 4 + length));
    }
    if w < FOUR_ONES {
        let first = after_one(w, 4, 1);
        let length = after_one(w, 5, first);
        return Some((after_one(w, 5 + first, length), 5 + first + length));
    }
    None
}

// The natural from p on, which is at most `bound`: from a window, or else length by length.
pub fn natural(s: &[u8], p: usize, bound: u32) -> Result<(u32, usize), NaturalFault>
    ensures { got_natural p result ≡ natural_up_to (stream_of s.now) bound p }
{
    let Some(w) = window(s, p) else {
        return natural_by_lengths(s, p, bound);
    };
    let Some((n, bits)) = natural_in(w) else {
        return natural_by_lengths(s, p, bound);
    };
    within(n, bits as usize, bound)
}

// Why a natural of node i is refused.
pub fn natural_refusal(why: NaturalFault, i: u32) -> Refusal
    ensures { result ≡ refusal_at i (natural_fault why) }
{
    match why {
        NaturalFault::Ended => Refusal::StreamEnded(i),
        NaturalFault::TooLong => Refusal::Overlong(i),
        NaturalFault::OverBound => Refusal::Natural(i),
    }
}

// Whether n places from `at` on lie among `all`.
fn has_room(all: usize, at: usize, n: usize) -> bool
    ensures { result ≡ leb (at + n) all }
{
    n <= all && at <= all - n
}

// The byte whose top bit is bit k of byte i: what is left of that byte, and the beginning of the next.
fn byte_from(s: &[u8], i: usize, k: usize) -> u8
    requires { (k < 8) × (8 * i + k + 8 ≤ 8 * length s.now) }
    ensures { result ≡ number_from 0 (take 8 (drop (8 * i + k) (bits_of s.now))) }
{
    if k == 0 {
        return s[i];
    }
    (s[i] << k) + (s[i + 1] >> (8 - k))
}

// n bytes from p on, into the store from the index `at` on, and the position after them.
fn bytes(s: &[u8], p: usize, store: &mut [u8], at: usize, n: usize) -> Result<usize, BytesFault>
    requires { n ≤ fail_bytes }
    ensures { stored (got_bytes result) store.new ≡ storing (octets (stream_of s.now) n p) store.old at }
{
    if !has_room(stream_length(s), p, 8 * n) {
        return Err(BytesFault::Ended);
    }
    if !has_room(store.len(), at, n) {
        return Err(BytesFault::NoRoom);
    }
    let first = p / 8;
    let k = p % 8;
    for j in 0..n {
        let b = byte_from(s, first + j, k);
        store[at + j] = b;
    }
    Ok(p + 8 * n)
}

// The 32 bytes of a hash.
pub fn hash_bytes(s: &[u8], p: usize, store: &mut [u8], at: usize) -> Result<usize, BytesFault>
    ensures { stored (got_bytes result) store.new ≡ storing (octets (stream_of s.now) hash_bytes p) store.old at }
{
    bytes(s, p, store, at, limits::HASH_BYTES)
}

// The 64 bytes of a fail node.
pub fn fail_bytes(s: &[u8], p: usize, store: &mut [u8], at: usize) -> Result<usize, BytesFault>
    ensures { stored (got_bytes result) store.new ≡ storing (octets (stream_of s.now) fail_bytes p) store.old at }
{
    bytes(s, p, store, at, limits::FAIL_BYTES)
}

// Whether the stream ends at p, but for fewer than eight zeros.
pub fn closes(s: &[u8], p: usize) -> bool
    ensures { result ≡ closes (stream_of s.now) p }
{
    let all = stream_length(s);
    if all < p || 8 <= all - p {
        return false;
    }
    if all == p {
        return true;
    }
    let i = p / 8;
    let k = p % 8;
    let rest = s[i] << k;
    rest == 0
}
