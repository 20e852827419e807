// Makes steps on packed cells, and prints for each file how many there were and how many left something else than it says.
// data/README.md says what stands in a record, and how the files were made.
#![tactic(auto)]

use std::io;

// The numbers of a record: the step, what it is told, and what a read answers.
const STEP: u32 = 0;

const X: u32 = 1;

const Y: u32 = 2;

const Z: u32 = 3;

const READ: u32 = 4;

// The size of the cells before the step, which are the first part, and how many numbers a record has. The cells after the step are its end.
const BEFORE: u32 = 5;

const HEAD: u32 = 6;

// The most bytes of cells.
const MOST: usize = 16;

// The step, with the cells as they were before it to put bits from, and its answer: 0 where it has none.
fn step(record: &[u8], old: &[u8], cells: &mut [u8]) -> u8 {
    let x = packed::number(record, X);
    let y = packed::number(record, Y);
    match packed::number(record, STEP) {
        0 => cells::read_cell(cells, x),
        1 => {
            cells::write_cell(cells, x, (y % 256) as u8);
            0
        }
        2 => {
            cells::copy_cells(cells, x, y, packed::number(record, Z));
            0
        }
        3 => {
            cells::zero_cells(cells, x, y);
            0
        }
        _ => {
            cells::put_bits(old, x, packed::number(record, Z), cells, y);
            0
        }
    }
}

// Whether the step answers and leaves what the record says.
fn step_right(record: &[u8], old: &[u8], cells: &mut [u8]) -> bool {
    u32::from(step(record, old, cells)) == packed::number(record, READ)
        && check::same(cells, packed::from(packed::from(record, 24), old.len()))
}

// The same on the record's cells. A record that is cut off is wrong.
fn right(record: &[u8]) -> bool {
    let old = packed::part(record, BEFORE, HEAD, BEFORE);
    let n = old.len();
    if record.is_empty() || MOST < n {
        return false;
    }
    let mut cells = [0u8; MOST];
    cells[..n].copy_from_slice(old);
    step_right(record, old, &mut cells[..n])
}

fn main(rt: HostRuntime) -> io::Result<()> {
    for path in ["steps", "runs"] {
        let tally = packed::replay(&rt, &[path], |record| Ok(right(record)))?;
        packed::print_tally(&rt, path.as_bytes(), tally)?;
    }
    Ok(())
}
