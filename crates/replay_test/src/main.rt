// Runs the dossiers of seven lists in stores of the sizes and with the old contents that their records say, and prints for each list how
// many runs there were and how many came out otherwise: in the answer, the output, a store as it is left, or the bounds. Each of the latter
// is named. The runs whose stores are all told are made a second time with two numbers more, which are no record, in the node store and the
// frame store, where that is not the largest already. vectors/cases/README.md says what stands in a record.
#![tactic(auto)]

ghost use Rattle.std.specs.Prelude.{◌≤◌};

use analysis::Totals;
use arrow::LentTables;
use header::SectionName;
use refusal::{Answer, Refusal};
use std::io;
use std::rt::Files;

// The largest stores: node numbers, hash bytes, cell bytes, frame numbers, answer bytes.
const NODES: usize = limits::NODE_NUMBERS * limits::NODE_COUNT;

const HASHES: usize = limits::DOSSIER_BYTES;

const CELLS: usize = limits::CELL_COUNT as usize / 8;

const FRAMES: usize = limits::FRAME_NUMBERS * limits::FRAME_COUNT as usize + 2;

const ANSWER: usize = limits::TYPE_WIDTH as usize / 8;

// A number in place of a refusal's, where nothing is told.
const NOT_TOLD: u32 = 255;

// The number that begins the bounds, the last byte of the one that fills the stores, and the first of the five sizes lent.
const BOUNDS: u32 = 2;

const FILL: usize = 27;

const SIZES: u32 = 7;

// The parts of a record, each by the number that is its size, and how many numbers a record has. The last five parts are the stores as they
// are left.
const NAME: u32 = 12;

const DOSSIER: u32 = 13;

const OUTPUT: u32 = 14;

const NODES_LEFT: u32 = 15;

const HASHES_LEFT: u32 = 16;

const CELLS_LEFT: u32 = 17;

const FRAMES_LEFT: u32 = 18;

const ANSWER_LEFT: u32 = 19;

const HEAD: u32 = 20;

// A part of a record.
fn part(record: &[u8], k: u32) -> &[u8] {
    packed::part(record, NAME, HEAD, k)
}

// Whether an answer is that of numbers 0 and 1: a refusal's number and place, or 0 and the count of output bits.
fn answer_right(record: &[u8], said: Answer) -> bool {
    if packed::number(record, 0) == NOT_TOLD {
        return true;
    }
    match said {
        Ok(count) => packed::tells(record, 0, count),
        Err(why) => packed::tells_refusal(record, why),
    }
}

// Whether bounds are those of four numbers: 0, cells, frames and cost, or a refusal's number and place.
fn bounds_told(numbers: &[u8], said: Result<Totals, Refusal>) -> bool {
    match said {
        Ok(totals) => {
            packed::tells(numbers, 0, totals.cells)
                && packed::tells(packed::from(numbers, 8), totals.frames, totals.cost)
        }
        Err(why) => packed::tells_refusal(numbers, why),
    }
}

// Whether the bounds are as the record says, once a run has left the decoded table, which has as many nodes as there are arrows. A refusal
// before the bounds leaves no table, and is the answer, too.
fn bounds_right(record: &[u8], nodes: &[u32], hashes: &[u8]) -> bool {
    let told = packed::number(record, BOUNDS);
    if told != 0 && told != 14 {
        return true;
    }
    let dossier = part(record, DOSSIER);
    let n = 4 * SectionName::Arrows.count(dossier) as usize;
    let tables = LentTables {
        types: SectionName::Types.opened(dossier),
        nodes: packed::front(nodes, n),
        arrows: SectionName::Arrows.opened(dossier),
        program: SectionName::Program.opened(dossier),
        hashes,
    };
    bounds_told(packed::from(record, 8), analysis::bounds_stage(&tables))
}

// Whether a store holds the numbers of a part, a packed list, and one number again and again after them. A part of no bytes tells nothing.
fn numbers_right(record: &[u8], k: u32, store: &[u32], rest: u32) -> bool {
    packed::number(record, k) == 0 || packed::holds_numbers(store, part(record, k), rest)
}

// Whether a store holds just the bytes of a part. A part of no bytes tells nothing.
fn bytes_right(record: &[u8], k: u32, store: &[u8]) -> bool {
    packed::number(record, k) == 0 || check::same(store, part(record, k))
}

// Whether the answer store begins with the output.
fn output_right(record: &[u8], answer: &[u8]) -> bool {
    let size = packed::number(record, OUTPUT) as usize;
    check::same(packed::front(answer, size), part(record, OUTPUT))
}

// What stands in a store of numbers before the run: the record's byte four times.
fn old_number(record: &[u8]) -> u32 {
    u32::from(common::entry_or(record, FILL, 0)) * 16_843_009
}

// Whether the stores are left as the record says. Numbers past those told are zero in the node store, old in the frame store.
fn stores_right(
    record: &[u8],
    nodes: &[u32],
    hashes: &[u8],
    cells: &[u8],
    frames: &[u32],
    answer: &[u8],
) -> bool {
    numbers_right(record, NODES_LEFT, nodes, 0)
        && bytes_right(record, HASHES_LEFT, hashes)
        && bytes_right(record, CELLS_LEFT, cells)
        && numbers_right(record, FRAMES_LEFT, frames, old_number(record))
        && bytes_right(record, ANSWER_LEFT, answer)
        && output_right(record, answer)
}

// Whether a run said and left what the record says, and the bounds are as it says.
fn end_right(
    record: &[u8],
    said: Answer,
    nodes: &[u32],
    hashes: &[u8],
    cells: &[u8],
    frames: &[u32],
    answer: &[u8],
) -> bool {
    answer_right(record, said)
        && stores_right(record, nodes, hashes, cells, frames, answer)
        && bounds_right(record, nodes, hashes)
}

// The same of a run in these stores.
fn run_right(
    record: &[u8],
    nodes: &mut [u32],
    hashes: &mut [u8],
    cells: &mut [u8],
    frames: &mut [u32],
    answer: &mut [u8],
) -> bool {
    let said = dossier::run(part(record, DOSSIER), nodes, hashes, cells, frames, answer);
    end_right(record, said, nodes, hashes, cells, frames, answer)
}

// The size of store k of the five: what the record says and so many more, and at most the largest.
fn size(record: &[u8], k: u32, more: u32, most: usize) -> usize
    ensures { result ≤ most }
{
    (packed::number(record, k) as usize + more as usize).min(most)
}

// A run in stores of the record's sizes, the two of numbers with so many numbers more, filled as it says.
fn record_right(record: &[u8], more: u32) -> bool {
    let old = old_number(record);
    let fill = common::entry_or(record, FILL, 0);
    let mut nodes = [old; NODES];
    let mut hashes = [fill; HASHES];
    let mut cells = [fill; CELLS];
    let mut frames = [old; FRAMES];
    let mut answer = [fill; ANSWER];
    let a = size(record, SIZES, more, NODES);
    let b = size(record, SIZES + 1, 0, HASHES);
    let c = size(record, SIZES + 2, 0, CELLS);
    let d = size(record, SIZES + 3, more, FRAMES);
    let e = size(record, SIZES + 4, 0, ANSWER);
    run_right(
        record,
        &mut nodes[..a],
        &mut hashes[..b],
        &mut cells[..c],
        &mut frames[..d],
        &mut answer[..e],
    )
}

// The same, and a record that is wrong is named.
fn right(rt: &impl Print, record: &[u8], more: u32) -> io::Result<bool> {
    let fine = record_right(record, more);
    if !fine {
        packed::print_wrong(rt, part(record, NAME))?;
    }
    Ok(fine)
}

// The tally of a list of dossiers, which stands in files, printed under its name.
fn replay(rt: &(impl Files + Print), what: &[u8], paths: &[&str], more: u32) -> io::Result<()> {
    let tally = packed::replay(rt, paths, |record| right(rt, record, more))?;
    packed::print_tally(rt, what, tally)
}

fn main(rt: HostRuntime) -> io::Result<()> {
    let edges = ["edges0", "edges1", "edges2", "edges3", "edges4", "edges5"];
    let random = [
        "random0", "random1", "random2", "random3", "random4", "random5", "random6",
    ];
    let stores = ["stores0", "stores1", "stores2", "stores3"];
    replay(&rt, b"known", &["known0", "known1"], 0)?;
    replay(&rt, b"edges", &edges, 0)?;
    replay(&rt, b"random", &random, 0)?;
    replay(&rt, b"bounds", &["bounds0", "bounds1"], 0)?;
    replay(&rt, b"stores", &stores, 0)?;
    replay(&rt, b"stores with odd numbers more", &stores, 2)?;
    replay(&rt, b"lengths", &["lengths0"], 0)?;
    replay(&rt, b"outputs", &["outputs0", "outputs1", "outputs2"], 0)
}
