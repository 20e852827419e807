// Lends the tables of the file `lent` to the walk's stage, decodes the programs of the file `programs`, and prints how many there were
// and how many came out otherwise than the files say, stores included.
// data/README.md says what stands in a record, and how the files were made.
#![tactic(auto)]

use decode::Sizes;
use refusal::Refusal;
use std::io;

// The numbers of a store of nodes, room for as many records as a table may have: 64 KiB.
const NUMBERS: usize = limits::NODE_NUMBERS * limits::NODE_COUNT;

// The most bytes of a hash store, and what stands in the stores before a program is decoded.
const HASHES: usize = 4_096;

const OLD_NUMBER: u32 = 2_779_096_485;

const OLD_BYTE: u8 = 165;

// How many zeros there are for a lent program and a lent hash store of zeros.
const ZEROS: usize = 65_536;

// The parts of a record, each by the number that is its size, and how many numbers a record has: of a lent table, and of a program.
const LENT_TABLE: u32 = 4;

const LENT_HASHES: u32 = 5;

const LENT_HEAD: u32 = 6;

const PROGRAM: u32 = 5;

const TABLE: u32 = 6;

const TABLE_HASHES: u32 = 7;

const HEAD: u32 = 8;

// Whether a check says what the record says.
fn check_right(record: &[u8], check: Result<(), Refusal>) -> bool {
    match check {
        Ok(()) => packed::tells(record, 0, 0),
        Err(why) => packed::tells_refusal(record, why),
    }
}

// Whether the walk's stage says what the record says. Its numbers 2 and 3 are the bytes of the program and of the hash store, zeros but
// where a hash store is given.
fn stage_right(record: &[u8], given: &[u8], zeros: &[u8], nodes: &[u32]) -> bool {
    let program = packed::front(zeros, packed::number(record, 2) as usize);
    let hashes = if given.is_empty() {
        packed::front(zeros, packed::number(record, 3) as usize)
    } else {
        given
    };
    check_right(record, table::walk_stage(program, hashes, nodes))
}

// A lent table: its parts are the table, packed, and the hash store.
fn lent_right(record: &[u8]) -> bool {
    let mut nodes = [0u32; NUMBERS];
    let list = packed::part(record, LENT_TABLE, LENT_HEAD, LENT_TABLE);
    let n = packed::laid(list, &mut nodes);
    let given = packed::part(record, LENT_TABLE, LENT_HEAD, LENT_HASHES);
    let zeros = [0u8; ZEROS];
    stage_right(record, given, &zeros, packed::front(&nodes, n))
}

// Whether a store holds some bytes, and then zeros.
fn holds_bytes(store: &[u8], bytes: &[u8]) -> bool {
    let zeros = [0u8; ZEROS];
    let rest = packed::from(store, bytes.len());
    check::same(packed::front(store, bytes.len()), bytes)
        && check::same(rest, packed::front(&zeros, rest.len()))
}

// Whether decoding says what the record says: numbers 0 to 2 are the refusal's number and place, or 0 and 0, and the count of nodes;
// number 7 is the count of hash bytes.
fn decoded_right(record: &[u8], said: Result<Sizes, Refusal>) -> bool {
    match said {
        Ok(sizes) => {
            packed::tells(record, 0, 0)
                && sizes.nodes == packed::number(record, 2)
                && sizes.hashes == packed::number(record, TABLE_HASHES)
        }
        Err(why) => packed::tells_refusal(record, why),
    }
}

// A part of a program's record.
fn part(record: &[u8], k: u32) -> &[u8] {
    packed::part(record, PROGRAM, HEAD, k)
}

// Whether a program decoded into two stores says and leaves what the record says. Parts: the program, the table, packed, and the hash store.
fn stores_right(record: &[u8], nodes: &mut [u32], hashes: &mut [u8]) -> bool {
    let said = decode::decode(part(record, PROGRAM), nodes, hashes);
    decoded_right(record, said)
        && packed::holds_numbers(nodes, part(record, TABLE), 0)
        && holds_bytes(hashes, part(record, TABLE_HASHES))
}

// A program: numbers 3 and 4 of its record are the sizes of the two stores.
fn program_right(record: &[u8]) -> bool {
    let n = packed::number(record, 3) as usize;
    let h = packed::number(record, 4) as usize;
    if NUMBERS < n || HASHES < h {
        return false;
    }
    let mut nodes = [OLD_NUMBER; NUMBERS];
    let mut hashes = [OLD_BYTE; HASHES];
    stores_right(record, &mut nodes[..n], &mut hashes[..h])
}

fn main(rt: HostRuntime) -> io::Result<()> {
    let lent = ["lent0", "lent1", "lent2", "lent3", "lent4", "lent5"];
    let tables = packed::replay(&rt, &lent, |record| Ok(lent_right(record)))?;
    packed::print_tally(&rt, b"lent", tables)?;
    let programs = ["programs0", "programs1", "programs2", "programs3"];
    let decoded = packed::replay(&rt, &programs, |record| Ok(program_right(record)))?;
    packed::print_tally(&rt, b"programs", decoded)
}
