// Replays reads that the original made, and prints for each kind of read how many were made and how many came out otherwise.
// A read whose answer does not rest on the end of its stream is made at all eight bit offsets, the stream moved along.
// data/README.md says what stands in a record of the file `reads`, and how the file was made.
#![tactic(auto)]

ghost use Rattle.std.specs.Prelude.{◌≡◌, ◌<◌, ◌≤◌, length};

use bititer::{BytesFault, NaturalFault};
use packed::{FileRecords, Tally};
use std::io;

// The numbers of a record: the kind of read, its bit position, its answer, a natural's bound and the natural, and the next position,
// or how many bits a natural took.
const KIND: u32 = 0;

const POSITION: u32 = 1;

const SAID: u32 = 2;

const BOUND: u32 = 3;

const NATURAL: u32 = 4;

const NEXT: u32 = 5;

// The parts of a record, each by the number that is its size, and how many numbers a record has.
const READ: u32 = 6;

const STREAM: u32 = 7;

const HEAD: u32 = 8;

// The longest stream, with a byte for the offset.
const MOST: usize = 512;

// What stands in a store before a read, where the read begins to write, and how many bytes the store has.
const OLD: u8 = 165;

const AT: usize = 3;

const ROOM: usize = 80;

// A part of a record.
fn part(record: &[u8], k: u32) -> &[u8] {
    packed::part(record, READ, HEAD, k)
}

// Number k of a record, moved along.
fn moved_number(record: &[u8], k: u32, offset: u32) -> usize
    requires { offset < 8 }
{
    packed::number(record, k) as usize + offset as usize
}

// The bytes with `offset` zeros before them.
fn moved(bytes: &[u8], offset: u32) -> [u8; MOST]
    requires { offset < 8 }
    ensures { 512 ≡ length result }
{
    let mut stream = [0u8; MOST];
    let mut before: u32 = 0;
    for (i, byte) in stream.iter_mut().enumerate() {
        let here = u32::from(common::entry_or(bytes, i, 0));
        *byte = (((before * 256 + here) >> offset) % 256) as u8;
        before = here;
    }
    stream
}

// How many bytes they are then.
fn moved_bytes(bytes: &[u8], offset: u32) -> usize {
    let n = bytes.len();
    if offset == 0 { n } else { n + 1 }
}

// The number of a fault in a record.
fn fault_number(fault: NaturalFault) -> u32 {
    match fault {
        NaturalFault::Ended => 1,
        NaturalFault::TooLong => 2,
        NaturalFault::OverBound => 3,
    }
}

// Whether a natural is read as the record says.
fn natural_right(record: &[u8], stream: &[u8], offset: u32) -> bool
    requires { offset < 8 }
{
    let p = moved_number(record, POSITION, offset);
    match bititer::natural(stream, p, packed::number(record, BOUND)) {
        Ok((n, bits)) => {
            packed::number(record, SAID) == 0
                && n == packed::number(record, NATURAL)
                && bits == packed::number(record, NEXT) as usize
        }
        Err(fault) => packed::number(record, SAID) == fault_number(fault),
    }
}

// Whether the store holds the bytes that were read, and else what it held.
fn holds(store: &[u8], read: &[u8]) -> bool {
    let old = [OLD; ROOM];
    let count = read.len();
    let written = packed::from(store, AT);
    if !check::same(packed::front(store, AT), packed::front(&old, AT)) {
        return false;
    }
    if !check::same(packed::front(written, count), read) {
        return false;
    }
    let after = packed::from(written, count);
    check::same(after, packed::front(&old, after.len()))
}

// 32 or 64 bytes, read into the store.
fn asked(s: &[u8], p: usize, store: &mut [u8], count: usize) -> Result<usize, BytesFault> {
    if count == 32 {
        bititer::hash_bytes(s, p, store, AT)
    } else {
        bititer::fail_bytes(s, p, store, AT)
    }
}

// Whether whole bytes are read as the record says.
fn bytes_right(record: &[u8], stream: &[u8], offset: u32) -> bool
    requires { offset < 8 }
{
    let read = part(record, READ);
    let p = moved_number(record, POSITION, offset);
    let mut store = [OLD; ROOM];
    let Ok(next) = asked(stream, p, &mut store, read.len()) else {
        return false;
    };
    if next != moved_number(record, NEXT, offset) {
        return false;
    }
    holds(&store, read)
}

// Whether the stream closes as the record says.
fn closing_right(record: &[u8], stream: &[u8]) -> bool {
    let closes = bititer::closes(stream, packed::number(record, POSITION) as usize);
    closes == (packed::number(record, SAID) == 0)
}

// Whether the read is made as the record says.
fn read_right(record: &[u8], stream: &[u8], offset: u32) -> bool
    requires { offset < 8 }
{
    match packed::number(record, KIND) {
        0 => natural_right(record, stream, offset),
        1 => bytes_right(record, stream, offset),
        _ => closing_right(record, stream),
    }
}

// The same on the record's stream, moved along.
fn right(record: &[u8], offset: u32) -> bool
    requires { offset < 8 }
{
    let bytes = part(record, STREAM);
    let stream = moved(bytes, offset);
    let size = moved_bytes(bytes, offset);
    read_right(record, packed::front(&stream, size), offset)
}

// At how many offsets the read is made: at one where its answer rests on the end of the stream.
fn offsets(record: &[u8]) -> u32
    ensures { result ≤ 8 }
{
    match packed::number(record, KIND) {
        0 => if packed::number(record, SAID) == 1 {
            1
        } else {
            8
        },
        1 => 8,
        _ => 1,
    }
}

// The read of one record at each offset.
fn replayed(t: Tally, record: &[u8]) -> Tally {
    let mut tally = t;
    for offset in 0..offsets(record) {
        tally = packed::counted(tally, right(record, offset));
    }
    tally
}

// The same, if the record is of a kind.
fn replayed_of(t: Tally, record: &[u8], wanted: u32) -> Tally {
    if packed::number(record, KIND) != wanted {
        return t;
    }
    replayed(t, record)
}

// All reads of a kind.
fn replay(file: &[u8], wanted: u32) -> Tally {
    let mut t = Tally::default();
    for record in FileRecords::of(file) {
        t = replayed_of(t, record, wanted);
    }
    t
}

// The line of a kind of read.
fn print(rt: &impl Print, name: &str, t: Tally) -> io::Result<()> {
    let count = t.count;
    let wrong = t.wrong;
    println!(rt; "{name}: {count} read, {wrong} wrong")
}

fn main(rt: HostRuntime) -> io::Result<()> {
    let mut file = [0u8; packed::FILE_BYTES];
    let n = packed::read_file(&rt, "reads", &mut file)?;
    print(&rt, "naturals", replay(&file[..n], 0))?;
    print(&rt, "bytes", replay(&file[..n], 1))?;
    print(&rt, "closings", replay(&file[..n], 2))
}
