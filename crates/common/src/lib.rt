// What several crates ask of numbers, bytes and stores: a number in a wider type, a number in bytes with the high byte first, the entry at a place
// of a table, a part of a slice, whether two slices hold the same bytes, one entry from an index on; and checks, one after the other or of a count.
// Each call answers on every input: past the end of a slice stands what is asked for, or zeros, and a part ends where its slice does.
#![tactic(auto)]

ghost use Rattle.std.specs.Prelude.{◌≡◌, ◌^◌, ◌<◌, get_or};
ghost use Rattle.promise.specs.Parts.{part_of, cut};
ghost use Rattle.limits.specs.Limits.{word_most};
ghost use Rattle.scope.specs.Numbers.{be16, be32, bytes_for, same};
ghost use Rattle.scope.specs.Stages.{counted};
ghost use Rattle.common.specs.Answers.{check_of, in_turn, answer_of};
ghost use Rattle.common.specs.Stores.{filled};
ghost use Rattle.common.specs.Words.{word_bits};

use refusal::{Answer, Refusal};

// Of two checks the refusal that comes first.
pub fn first_refusal(first: Result<(), Refusal>, second: Result<(), Refusal>) -> Result<(), Refusal>
    ensures { check_of result ≡ in_turn (check_of first) (check_of second) }
{
    first?;
    second
}

// A count is at least one, and not above the most (4).
pub fn check_count(count: usize, most: usize) -> Result<(), Refusal>
    ensures { check_of result ≡ counted count most }
{
    if count < 1 || most < count {
        return Err(Refusal::Natural(0));
    }
    Ok(())
}

// A check as the answer of a job that has nothing to tell.
pub fn answer_of(check: Result<(), Refusal>) -> Answer
    ensures { result ≡ answer_of check }
{
    check?;
    Ok(0)
}

// An index of 16 bits as a place.
pub fn index(x: u16) -> usize
    ensures { (result ≡ x) × (result < 2 ^ 16) }
{
    x as usize
}

// A number of 32 bits as a place.
pub fn place(x: u32) -> usize
    ensures { (result ≡ x) × (result < 2 ^ 32) }
{
    x as usize
}

// A number of 32 bits as one of 64, so that no sum of two wraps.
pub fn wide(x: u32) -> u64
    ensures { (result ≡ x) × (result < 2 ^ 32) }
{
    x as u64
}

// The entry at a place of a table; another past the end.
pub fn entry_or<T: Copy>(entries: &[T], at: usize, past: T) -> T
    ensures { result ≡ get_or entries.now at past }
{
    entries.get(at).copied().unwrap_or(past)
}

// The number of 16 bits at a place, with 0 for bytes past the end.
pub fn half_at(bytes: &[u8], at: usize) -> u16
    ensures { result ≡ be16 bytes.now at }
{
    if bytes.len() <= at {
        return 0;
    }
    entry_or(bytes, at, 0) as u16 * 256 + entry_or(bytes, at + 1, 0) as u16
}

// The number of 32 bits at a place, with 0 for bytes past the end.
pub fn number_at(bytes: &[u8], at: usize) -> u32
    ensures { result ≡ be32 bytes.now at }
{
    if bytes.len() <= at {
        return 0;
    }
    half_at(bytes, at) as u32 * 65536 + half_at(bytes, at + 2) as u32
}

// The part of n bytes from a place on, as far as there are any.
pub fn part(bytes: &[u8], at: usize, n: usize) -> &[u8]
    ensures { part_of result ≡ cut (part_of bytes.entry) at n }
{
    let all = bytes.len();
    if all < at {
        return &bytes[all..];
    }
    if all - at < n {
        return &bytes[at..];
    }
    &bytes[at..at + n]
}

// The two are the same bytes.
pub fn same_bytes(a: &[u8], b: &[u8]) -> bool
    ensures { result ≡ same a.now b.now }
{
    a == b
}

// How many bytes hold so many bits.
pub fn bytes_for(bits: u32) -> usize
    ensures { (result ≡ bytes_for bits) × (result < 2 ^ 30) }
{
    (bits as usize + 7) / 8
}

// How many bits a word of n has; none where n is no word's.
pub fn word_bits(n: u32) -> usize
    ensures { (result ≡ word_bits n) × (result < 2 ^ word_most) }
{
    if n < 1 {
        return 0;
    }
    if limits::WORD_MOST < n {
        return 0;
    }
    1 << (n - 1)
}

// One entry at every place of a store from an index on.
pub fn fill_from<T: Copy>(store: &mut [T], from: usize, entry: T)
    ensures { store.new ≡ filled entry store.old from }
{
    for i in from..store.len() {
        store[i] = entry;
    }
}
