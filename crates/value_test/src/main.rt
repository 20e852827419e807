// Checks the type tables of the file `tables`, and skips, pads and unpads the values of the file `values` along their types.
// Prints how many there were, and how many came out otherwise than the files say.
// data/README.md says what stands in a record, and how the files were made.
#![tactic(auto)]

ghost use Rattle.std.specs.Prelude.{◌<◌};

use refusal::Refusal;
use std::io;
use value::Shapes;

// The parts of a record, each by the number that is its size, and how many numbers a record has. The second is a table's widths and
// entries, or a value's stream.
const TABLE: u32 = 9;

const SECOND: u32 = 10;

const CELLS: u32 = 11;

const ANSWER: u32 = 12;

const HEAD: u32 = 13;

// The most bytes of a store.
const MOST: usize = 4_352;

// Number k of a record, as a place.
fn number(record: &[u8], k: u32) -> usize
    ensures { result < 4294967296 }
{
    packed::number(record, k) as usize
}

// A part of a record.
fn part(record: &[u8], k: u32) -> &[u8] {
    packed::part(record, TABLE, HEAD, k)
}

// Whether the answer is the record's: its numbers 0 and 1 are a refusal's number and place, or 0 and the count of records.
fn answer_right(record: &[u8], answer: Result<usize, Refusal>) -> bool {
    match answer {
        Ok(count) => number(record, 0) == 0 && count == number(record, 1),
        Err(why) => packed::tells_refusal(record, why),
    }
}

// Whether widths and entries are those of the second part, four bytes each, and 0 past its end.
fn entries_right(record: &[u8], widths: &[u32], next: &[u16]) -> bool {
    let entries = part(record, SECOND);
    (0..limits::TYPE_COUNT).all(|k| {
        common::entry_or(widths, k, 0) == u32::from(common::half_at(entries, 4 * k))
            && common::entry_or(next, k, 0) == common::half_at(entries, 4 * k + 2)
    })
}

// Whether the check of a record's table answers and leaves what the record says.
fn table_right(record: &[u8]) -> bool {
    let t = types::check_types(part(record, TABLE));
    answer_right(record, t.answer) && entries_right(record, &t.widths, &t.next)
}

// Whether skipping ends where the record says: at its number 4, or short where its number 0 is 1.
// Where that is 3 the value ends after the bits that count, which are those before number 3.
fn skip_right(record: &[u8], shapes: &Shapes<'_>) -> bool {
    let i = number(record, 1);
    let p = number(record, 2);
    match value::skip(shapes, i, part(record, SECOND), p) {
        Some(end) => {
            end == number(record, 4) && (number(record, 3) < end) == (number(record, 0) == 3)
        }
        None => number(record, 0) == 1,
    }
}

// Whether padding says and leaves what the record says.
fn pad_right(record: &[u8], shapes: &Shapes<'_>, cells: &mut [u8]) -> bool {
    let i = number(record, 1);
    let p = number(record, 2);
    let at = packed::number(record, 5);
    let said = value::pad(shapes, i, part(record, SECOND), p, cells, at);
    if !check::same(cells, part(record, CELLS)) {
        return false;
    }
    match said {
        Some(end) => number(record, 0) == 0 && end == number(record, 4),
        None => number(record, 0) != 0,
    }
}

// Whether unpadding says and leaves what the record says.
fn unpad_right(record: &[u8], shapes: &Shapes<'_>, cells: &[u8], answer: &mut [u8]) -> bool {
    let i = number(record, 1);
    let at = packed::number(record, 5);
    let q = packed::number(record, 6);
    let said = value::unpad(shapes, i, cells, at, answer, q);
    if !check::same(answer, part(record, ANSWER)) {
        return false;
    }
    match said {
        Some(count) => {
            number(record, 0) == 0 && number(record, 2) + count as usize == number(record, 4)
        }
        None => number(record, 0) != 0,
    }
}

// Padding into one store, and unpadding from it into another. Where bits are too few there is nothing to unpad.
fn round_trip_right(
    record: &[u8],
    shapes: &Shapes<'_>,
    cells: &mut [u8],
    answer: &mut [u8],
) -> bool {
    pad_right(record, shapes, cells)
        && (number(record, 0) == 1 || unpad_right(record, shapes, cells, answer))
}

// The same on stores of the record's sizes, filled with the byte that ends its number 7.
fn stores_right(record: &[u8], shapes: &Shapes<'_>) -> bool {
    let n = part(record, CELLS).len();
    let m = part(record, ANSWER).len();
    if MOST < n || MOST < m {
        return false;
    }
    let fill = common::entry_or(record, 31, 0);
    let mut cells = [fill; MOST];
    let mut answer = [fill; MOST];
    round_trip_right(record, shapes, &mut cells[0..n], &mut answer[0..m])
}

// Whether a record's type has the width that it says, and its value is read and written as it says.
fn value_right(record: &[u8]) -> bool {
    let t = types::check_types(part(record, TABLE));
    let shapes = Shapes {
        types: part(record, TABLE),
        widths: &t.widths,
        next: &t.next,
    };
    let width = common::entry_or(shapes.widths, number(record, 1), 0);
    width as usize == number(record, 8)
        && skip_right(record, &shapes)
        && (number(record, 0) == 3 || stores_right(record, &shapes))
}

// A record that is cut off is empty, and wrong.
fn main(rt: HostRuntime) -> io::Result<()> {
    let tables = packed::replay(&rt, &["tables0"], |record| {
        Ok(!record.is_empty() && table_right(record))
    })?;
    packed::print_tally(&rt, b"tables", tables)?;
    let values = packed::replay(&rt, &["values0", "values1"], |record| {
        Ok(!record.is_empty() && value_right(record))
    })?;
    packed::print_tally(&rt, b"values", values)
}
