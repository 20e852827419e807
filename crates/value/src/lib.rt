// Values along their types: how far a value's compact bits go, compact bits to padded cells, padded cells to compact bits.
// A value of a type without padding is so many bits, which are its cells too: it is skipped, padded and unpadded at once.
// Any other is read record by record downwards: each function calls itself on a record's parts, and the index falls.
// A part of width 0 is passed over at once, and products with such a part are stepped over by the table of next records,
// so that the steps are in proportion to the width. The tables are lent and may hold anything: a record that does not fit
// its widths, or whose parts do not lie below it, stands for nothing. A table that the check of types passed has no such record.
#![tactic(auto)]

ghost use Rattle.std.specs.Prelude.{◌≡◌, ◌∷◌, ◌+◌, ◌%◌, ◌≤◌, ◌<◌, length, get_or, drop};
ghost use Rattle.std.proofs.lemmas.List.Edits.{sets};
ghost use Rattle.limits.specs.Limits.{cell_count};
ghost use Rattle.report.specs.Bits.{bits_of};
ghost use Rattle.scope.specs.Numbers.{stream_of, zeros};
ghost use Rattle.scope.specs.Run.{cells_of};
ghost use Rattle.value.specs.Shapes.{plain, falls, tag_step, both_step, step_at, shape_at, part};
ghost use Rattle.value.specs.Bits.{skip_shape, pad_shape, unpad_shape, skipped, padding, pad_stage, unpadding, unpad_stage, room};

use types::Tag;

// What tells the shape of the values of each type: the records of the types, and of each record its width and the next record that matters.
#[derive(Clone, Copy)]
pub struct Shapes<'a> {
    pub types: &'a [u8],
    pub widths: &'a [u32],
    pub next: &'a [u16],
}

// How a value goes on at a record: with nothing, with so many bits without padding, with a tag and one of two parts after so much padding,
// or with both parts, of which the left one has this width.
#[derive(Clone, Copy)]
enum Step {
    Nothing,
    Plain(u32),
    Tag {
        left: usize,
        right: usize,
        pad_left: u32,
        pad_right: u32,
    },
    Both {
        left: usize,
        right: usize,
        width: u32,
    },
}

// Whether record j is none after i, and the parts lie below it.
#[tactic(auto, unfolding(scope::specs::Numbers::every))]
fn parts_fall(i: usize, j: usize, left: usize, right: usize) -> bool
    ensures { result ≡ falls i j left right }
{
    j <= i && left < j && right < j
}

// A sum of this width, whose parts have widths a and b.
fn tag_step(own: u32, left: usize, right: usize, a: u32, b: u32) -> Step
    ensures { result ≡ tag_step own left right a b }
{
    let most = a.max(b);
    if common::wide(own) == 1 + common::wide(most) {
        Step::Tag {
            left,
            right,
            pad_left: most - a,
            pad_right: most - b,
        }
    } else {
        Step::Nothing
    }
}

// A product of this width, whose parts have widths a and b.
fn both_step(own: u32, left: usize, right: usize, a: u32, b: u32) -> Step
    ensures { result ≡ both_step own left right a b }
{
    if common::wide(own) == common::wide(a) + common::wide(b) {
        Step::Both {
            left,
            right,
            width: a,
        }
    } else {
        Step::Nothing
    }
}

// How a value of type i goes on.
#[tactic(auto, unfolding(crate::specs::Shapes::step_at))]
fn step_at(shapes: &Shapes<'_>, i: usize) -> Step
    ensures { result ≡ step_at shapes.now.types.now shapes.now.widths.now shapes.now.next.now i }
{
    let own = common::entry_or(shapes.widths, i, 0);
    if own == 0 || limits::TYPE_COUNT <= i {
        return Step::Nothing;
    }
    let entry = common::entry_or(shapes.next, i, 0);
    if entry == types::UNPADDED {
        return Step::Plain(own);
    }
    let j = common::index(entry);
    let record = types::record_at(shapes.types, j);
    let left = common::index(record.left);
    let right = common::index(record.right);
    if !parts_fall(i, j, left, right) {
        return Step::Nothing;
    }
    let a = common::entry_or(shapes.widths, left, 0);
    let b = common::entry_or(shapes.widths, right, 0);
    match Tag::try_from(record.tag) {
        Ok(Tag::Sum) => tag_step(own, left, right, a, b),
        Ok(Tag::Product) => both_step(own, left, right, a, b),
        _ => Step::Nothing,
    }
}

// Of the two sides of a sum the one that a tag names.
#[tactic(auto, using(crate::proofs::Steps::part_right))]
fn side_of<T: Copy>(side: u8, left: T, right: T) -> T
    ensures { result ≡ part side left right }
{
    if side == 0 { left } else { right }
}

// How many bits of a stream stand from bit p on.
#[tactic(auto, using(crate::proofs::Plain::left_ways))]
fn bits_left(s: &[u8], p: usize) -> usize
    ensures { result ≡ length (drop p (stream_of s.now)) }
{
    if limits::DOSSIER_BYTES < s.len() {
        return 0;
    }
    (s.len() * 8).saturating_sub(p)
}

// The position after so many bits from bit p of a stream on; none where there are too few.
#[tactic(auto, using(crate::proofs::Plain::skip_plain_ways))]
fn skip_plain(s: &[u8], p: usize, width: u32) -> Option<usize>
    ensures { result ≡ skipped p (skip_shape (plain width) (drop p (stream_of s.now))) }
{
    let n = width as usize;
    if n <= bits_left(s, p) {
        Some(p + n)
    } else {
        None
    }
}

// The position after the compact value of type i at bit p of a stream; none where there are too few bits.
#[tactic(auto, using(crate::proofs::Ways::skip_ways))]
pub fn skip(shapes: &Shapes<'_>, i: usize, s: &[u8], p: usize) -> Option<usize>
    ensures { result ≡ skipped p
        (skip_shape (shape_at shapes.now.types.now shapes.now.widths.now shapes.now.next.now i) (drop p (stream_of s.now))) }
{
    match step_at(shapes, i) {
        Step::Nothing => Some(p),
        Step::Plain(width) => skip_plain(s, p, width),
        Step::Tag { left, right, .. } => {
            let (side, after) = bititer::bit(s, p)?;
            skip(shapes, side_of(side, left, right), s, after)
        }
        Step::Both { left, right, .. } => {
            let middle = skip(shapes, left, s, p)?;
            skip(shapes, right, s, middle)
        }
    }
}

// Whether so many cells from `at` on lie in the store, and within the most cells of a run. No cells lie anywhere.
#[tactic(auto, using(crate::proofs::Ways::room_ways))]
fn has_room(cells: &[u8], width: u32, at: u32) -> bool
    ensures { result ≡ room width at (bits_of cells.now) }
{
    if width == 0 {
        return true;
    }
    let end = common::wide(at) + common::wide(width);
    (end + 7) / 8 <= cells.len() as u64 && end <= common::wide(limits::CELL_COUNT)
}

// A tag and its padding.
fn write_tag(cells: &mut [u8], at: u32, side: u8, padding: u32)
    requires { at < cell_count }
    ensures { bits_of cells.new ≡ sets (bits_of cells.old) at (side % 2 ∷ zeros padding) }
{
    cells::write_cell(cells, at, side);
    cells::zero_cells(cells, at + 1, padding);
}

// So many bits from bit p of a stream on, as cells from `at` on, where there are so many.
#[tactic(auto, using(crate::proofs::Plain::pad_plain_ways))]
fn pad_plain(s: &[u8], p: usize, width: u32, cells: &mut [u8], at: u32) -> Option<usize>
    requires { 0 < width }
    ensures { (result ≡ skipped p (skip_shape (plain width) (drop p (stream_of s.now))))
        × (bits_of cells.new ≡ pad_shape (plain width) (drop p (stream_of s.now)) (bits_of cells.old) at) }
{
    let end = skip_plain(s, p, width)?;
    cells::put_bits(s, p as u32, width, cells, at);
    Some(end)
}

// The compact value of type i at bit p, as padded cells from `at` on, as far as there are bits for it.
#[tactic(auto, using(crate::proofs::Ways::pad_ways))]
fn pad_part(
    shapes: &Shapes<'_>,
    i: usize,
    s: &[u8],
    p: usize,
    cells: &mut [u8],
    at: u32,
) -> Option<usize>
    requires { 0 < get_or shapes.now.widths.now i 0 → at + get_or shapes.now.widths.now i 0 ≤ cell_count }
    ensures { (result ≡ skipped p
        (skip_shape (shape_at shapes.now.types.now shapes.now.widths.now shapes.now.next.now i) (drop p (stream_of s.now))))
        × (bits_of cells.new ≡ pad_shape (shape_at shapes.now.types.now shapes.now.widths.now shapes.now.next.now i)
        (drop p (stream_of s.now)) (bits_of cells.old) at) }
{
    match step_at(shapes, i) {
        Step::Nothing => Some(p),
        Step::Plain(width) => pad_plain(s, p, width, cells, at),
        Step::Tag {
            left,
            right,
            pad_left,
            pad_right,
        } => {
            let (side, after) = bititer::bit(s, p)?;
            let padding = side_of(side, pad_left, pad_right);
            write_tag(cells, at, side, padding);
            let part = side_of(side, left, right);
            pad_part(shapes, part, s, after, cells, at + 1 + padding)
        }
        Step::Both { left, right, width } => {
            let middle = pad_part(shapes, left, s, p, cells, at)?;
            pad_part(shapes, right, s, middle, cells, at + width)
        }
    }
}

// The compact value of type i at bit p of a stream, written as padded cells from `at` on, padding 0: the position after it.
// None, and nothing is written, where bits or cells are too few.
#[tactic(auto, using(crate::proofs::Ways::pad_ends))]
pub fn pad(
    shapes: &Shapes<'_>,
    i: usize,
    s: &[u8],
    p: usize,
    cells: &mut [u8],
    at: u32,
) -> Option<usize>
    ensures { padding result (bits_of cells.new)
        ≡ pad_stage (shape_at shapes.now.types.now shapes.now.widths.now shapes.now.next.now i) (get_or shapes.now.widths.now i 0)
        (stream_of s.now) p (bits_of cells.old) at }
{
    skip(shapes, i, s, p)?;
    if !has_room(cells, common::entry_or(shapes.widths, i, 0), at) {
        return None;
    }
    pad_part(shapes, i, s, p, cells, at)
}

// The compact bits of the value of type i in the cells from `at` on, into the bits of the answer from q on: the place after them.
#[tactic(auto, using(crate::proofs::Ways::unpad_ways))]
fn unpad_part(
    shapes: &Shapes<'_>,
    i: usize,
    cells: &[u8],
    at: u32,
    answer: &mut [u8],
    q: u32,
) -> u32
    requires { 0 < get_or shapes.now.widths.now i 0 → (at + get_or shapes.now.widths.now i 0 ≤ cell_count)
        × (q + get_or shapes.now.widths.now i 0 ≤ cell_count) }
    ensures { (result ≡ q + length
        (unpad_shape (shape_at shapes.now.types.now shapes.now.widths.now shapes.now.next.now i) (cells_of cells.now) at))
        × (bits_of answer.new ≡ sets (bits_of answer.old) q
        (unpad_shape (shape_at shapes.now.types.now shapes.now.widths.now shapes.now.next.now i) (cells_of cells.now) at)) }
{
    match step_at(shapes, i) {
        Step::Nothing => q,
        Step::Plain(width) => {
            cells::put_bits(cells, at, width, answer, q);
            q + width
        }
        Step::Tag {
            left,
            right,
            pad_left,
            pad_right,
        } => {
            let side = cells::read_cell(cells, at);
            cells::write_cell(answer, q, side);
            let padding = side_of(side, pad_left, pad_right);
            let part = side_of(side, left, right);
            let place = at + 1 + padding;
            unpad_part(shapes, part, cells, place, answer, q + 1)
        }
        Step::Both { left, right, width } => {
            let middle = unpad_part(shapes, left, cells, at, answer, q);
            let place = at + width;
            unpad_part(shapes, right, cells, place, answer, middle)
        }
    }
}

// The compact bits of the value of type i in the cells from `at` on, written into the bits of the answer from q on: how many there are.
// None, and nothing is written, where either store is too short for the type's width.
#[tactic(auto, using(crate::proofs::Ways::unpad_ends))]
pub fn unpad(
    shapes: &Shapes<'_>,
    i: usize,
    cells: &[u8],
    at: u32,
    answer: &mut [u8],
    q: u32,
) -> Option<u32>
    ensures { unpadding result (bits_of answer.new)
        ≡ unpad_stage (shape_at shapes.now.types.now shapes.now.widths.now shapes.now.next.now i) (get_or shapes.now.widths.now i 0)
        (bits_of cells.now) (cells_of cells.now) at (bits_of answer.old) q }
{
    let width = common::entry_or(shapes.widths, i, 0);
    if !has_room(cells, width, at) || !has_room(answer, width, q) {
        return None;
    }
    let end = unpad_part(shapes, i, cells, at, answer, q);
    Some(end - q)
}
