// Runs the programs of the file `runs` on tables and stores that are lent to the run stage, and prints for each what it says and what the stores
// hold afterwards. The file `stdout` has what the requirements say. data/README.md says what stands in a record, and how both files were made.
#![tactic(auto)]

ghost use Rattle.std.specs.Prelude.{◌≤◌};

use arrow::LentTables;
use packed::FileRecords;
use refusal::Answer;
use std::io;
use std::rt::Files;

// The largest stores: node numbers, cell bytes, frame numbers, answer bytes.
const NODES: usize = limits::NODE_NUMBERS * limits::NODE_COUNT;

const CELLS: usize = 4_096;

const FRAMES: usize = limits::FRAME_NUMBERS * limits::FRAME_COUNT as usize + 2;

const ANSWER: usize = 1_024;

// The parts of a record, each by the number that is its size, and how many numbers a record has.
const NAME: u32 = 6;

const TYPES: u32 = 7;

const TABLE: u32 = 8;

const ARROWS: u32 = 9;

const PROGRAM: u32 = 10;

const HASHES: u32 = 11;

const GIVEN: u32 = 12;

const WITNESS: u32 = 13;

const INPUT: u32 = 14;

const HEAD: u32 = 15;

// A number that stands so many times in a row.
#[derive(Clone, Copy)]
struct Row {
    number: u32,
    count: u64,
}

// A part of a record.
fn part(record: &[u8], k: u32) -> &[u8] {
    packed::part(record, NAME, HEAD, k)
}

// Prints a number in hexadecimal, and how often it stands in a row where that is more than once.
fn print_row(rt: &impl Print, row: Row) -> io::Result<()> {
    match row.count {
        0 => Ok(()),
        1 => print!(rt; " {:x}", row.number),
        _ => print!(rt; " {:x}*{}", row.number, row.count),
    }
}

// A row with the next number of its store; another number begins another row, and the one that ends is printed.
fn row_after(rt: &impl Print, row: Row, number: u32) -> io::Result<Row> {
    if row.number != number {
        print_row(rt, row)?;
        return Ok(Row { number, count: 1 });
    }
    Ok(Row {
        number,
        count: row.count.saturating_add(1),
    })
}

// Prints a store row by row.
fn print_rows<T: Copy + Into<u32>>(rt: &impl Print, store: &[T]) -> io::Result<()> {
    let mut row = Row {
        number: 0,
        count: 0,
    };
    for entry in store {
        row = row_after(rt, row, (*entry).into())?;
    }
    print_row(rt, row)
}

fn print_answer(rt: &impl Print, said: Answer) -> io::Result<()> {
    match said {
        Ok(count) => print!(rt; "value {count}"),
        Err(why) => print!(rt; "refused {why}"),
    }
}

fn print_stores(rt: &impl Print, cells: &[u8], frames: &[u32], answer: &[u8]) -> io::Result<()> {
    print!(rt; "; cells")?;
    print_rows(rt, cells)?;
    print!(rt; "; frames")?;
    print_rows(rt, frames)?;
    print!(rt; "; answer")?;
    print_rows(rt, answer)?;
    println!(rt)
}

// Prints the name of a record's run, and the byte that fills the stores, which is the last of its number 2.
fn print_head(rt: &impl Print, record: &[u8]) -> io::Result<()> {
    let fill = common::entry_or(record, 11, 0);
    rt.write_all(part(record, NAME))?;
    print!(rt; ", filled with {fill:x}: ")
}

// The run of a record on its tables, in these stores.
fn run<'a>(
    record: &'a [u8],
    nodes: &'a [u32],
    cells: &mut [u8],
    frames: &mut [u32],
    answer: &mut [u8],
) -> Answer {
    let tables = LentTables {
        types: part(record, TYPES),
        nodes,
        arrows: part(record, ARROWS),
        program: part(record, PROGRAM),
        hashes: part(record, HASHES),
    };
    bit_machine::run_stage(
        &tables,
        part(record, GIVEN),
        part(record, WITNESS),
        packed::number(record, 0),
        part(record, INPUT),
        packed::number(record, 1),
        cells,
        frames,
        answer,
    )
}

// Runs a record and prints what it says and leaves.
fn show<'a>(
    rt: &impl Print,
    record: &'a [u8],
    nodes: &'a [u32],
    cells: &mut [u8],
    frames: &mut [u32],
    answer: &mut [u8],
) -> io::Result<()> {
    let said = run(record, nodes, cells, frames, answer);
    print_head(rt, record)?;
    print_answer(rt, said)?;
    print_stores(rt, cells, frames, answer)
}

// Number k of a record, and at most the largest.
fn size(record: &[u8], k: u32, most: usize) -> usize
    ensures { result ≤ most }
{
    (packed::number(record, k) as usize).min(most)
}

// A run on a table in stores of the record's sizes, filled as it says.
fn show_run<'a>(rt: &impl Print, record: &'a [u8], nodes: &'a [u32]) -> io::Result<()> {
    let fill = common::entry_or(record, 11, 0);
    let old = u32::from(fill) * 16_843_009;
    let mut cells = [fill; CELLS];
    let mut frames = [old; FRAMES];
    let mut answer = [fill; ANSWER];
    let a = size(record, 3, CELLS);
    let b = size(record, 4, FRAMES);
    let c = size(record, 5, ANSWER);
    show(
        rt,
        record,
        nodes,
        &mut cells[..a],
        &mut frames[..b],
        &mut answer[..c],
    )
}

// A run of a record on its table.
fn show_record(rt: &impl Print, record: &[u8]) -> io::Result<()> {
    let mut nodes = [0u32; NODES];
    let n = packed::laid(part(record, TABLE), &mut nodes);
    show_run(rt, record, packed::front(&nodes, n))
}

// Every run of the file at a path.
fn show_file(rt: &(impl Files + Print), path: &str) -> io::Result<()> {
    let mut file = [0u8; packed::FILE_BYTES];
    let n = packed::read_file(rt, path, &mut file)?;
    for record in FileRecords::of(&file[..n]) {
        show_record(rt, record)?;
    }
    Ok(())
}

fn main(rt: HostRuntime) -> io::Result<()> {
    for path in ["runs0", "runs1", "runs2"] {
        show_file(&rt, path)?;
    }
    Ok(())
}
