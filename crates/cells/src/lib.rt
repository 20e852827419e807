// The machine's cells, packed in lent bytes from the top bit of each: one is read or written, a run is copied, cleared or put from
// elsewhere, eight cells at once where they fill a byte, and all bytes at once where source and target stand at the same place in a byte.
// Past the end a cell reads as 0 and a write does nothing. A position and a count are u32, so that a usize holds their sum. Each promise
// is over the list of bits; bytes are told by their bits (bititer's law bits-tell).
#![tactic(auto)]

ghost use Rattle.std.specs.Prelude.{◌≡◌, ◌+◌, ◌-◌, ◌*◌, ◌%◌, ◌^◌, ◌<◌, ◌≤◌, length, get_or, set};
ghost use Rattle.std.proofs.lemmas.List.Edits.{sets};
ghost use Rattle.report.specs.Bits.{byte_bits, bits_of, number_from};
ghost use Rattle.scope.specs.Numbers.{zeros};
ghost use Rattle.common.specs.Cells.{copy_bits, bits_from};

// From so many cells on all whole bytes are moved at once; fewer cost less eight by eight.
const LEAST_RUN: usize = 32;

// The byte x with its bit k, from the top, set to b.
fn with_bit(x: u8, k: usize, b: u8) -> u8
    requires { (k < 8) × (b < 2) }
    ensures { byte_bits result ≡ set (byte_bits x) k b }
{
    let place = 7 - k;
    let unit = 1u8 << place;
    let old = (x >> place) % 2;
    x - old * unit + b * unit
}

// The cell at p.
fn cell(cells: &[u8], p: usize) -> u8
    ensures { result ≡ get_or (bits_of cells.now) p 0 }
{
    let i = p / 8;
    if i < cells.len() {
        let place = 7 - p % 8;
        (cells[i] >> place) % 2
    } else {
        0
    }
}

// The cell at p set to b % 2.
fn put_cell(cells: &mut [u8], p: usize, b: u8)
    ensures { bits_of cells.new ≡ set (bits_of cells.old) p (b % 2) }
{
    let i = p / 8;
    if i < cells.len() {
        cells[i] = with_bit(cells[i], p % 8, b % 2);
    }
}

// The eight cells from p on, as a byte.
fn eight_at(cells: &[u8], p: usize) -> u8
    ensures { byte_bits result ≡ bits_from (bits_of cells.now) p 8 }
{
    let i = p / 8;
    let k = p % 8;
    let first = common::entry_or(cells, i, 0);
    if k == 0 {
        return first;
    }
    (first << k) + (common::entry_or(cells, i + 1, 0) >> (8 - k))
}

// The byte at i set to x.
fn put_byte(cells: &mut [u8], i: usize, x: u8)
    ensures { bits_of cells.new ≡ sets (bits_of cells.old) (8 * i) (byte_bits x) }
{
    if i < cells.len() {
        cells[i] = x;
    }
}

// k bytes from byte a on, copied one after the other to byte b on.
fn copy_bytes(cells: &mut [u8], a: usize, b: usize, k: usize)
    requires { (a + k ≤ length cells.old) × (b + k ≤ length cells.old) }
    ensures { bits_of cells.new ≡ copy_bits (bits_of cells.old) (8 * a) (8 * b) (8 * k) }
{
    for i in 0..k {
        cells[b + i] = cells[a + i];
    }
}

// k bytes from byte b on set to 0.
fn zero_bytes(cells: &mut [u8], b: usize, k: usize)
    requires { b + k ≤ length cells.old }
    ensures { bits_of cells.new ≡ sets (bits_of cells.old) (8 * b) (zeros (8 * k)) }
{
    cells[b..b + k].fill(0);
}

// k bytes of a source from byte a on, put into the cells from byte b on.
fn put_bytes(source: &[u8], a: usize, k: usize, cells: &mut [u8], b: usize)
    requires { (a + k ≤ length source.now) × (b + k ≤ length cells.old) }
    ensures { bits_of cells.new ≡ sets (bits_of cells.old) (8 * b) (bits_from (bits_of source.now) (8 * a) (8 * k)) }
{
    for j in 0..k {
        cells[b + j] = source[a + j];
    }
}

// How many cells stand before the first byte that begins at p or behind it.
fn before_byte(p: usize) -> usize
    ensures { (result < 8) × ((p + result) % 8 ≡ 0) }
{
    (8 - p % 8) % 8
}

// The first of n cells copied, up to the end of the last byte that they fill: what stands before the first whole byte one by one, then all
// bytes at once. How many they are: none where source and target stand at different places in a byte, pass the end, or are few.
fn copy_front(cells: &mut [u8], from: usize, to: usize, n: usize) -> usize
    requires { (from < 2 ^ 32) × (to < 2 ^ 32) × (n < 2 ^ 32) }
    ensures { (result ≤ n)
        × (copy_bits (bits_of cells.old) from to n ≡ copy_bits (bits_of cells.new) (from + result) (to + result) (n - result)) }
{
    if n < LEAST_RUN
        || from % 8 != to % 8
        || cells.len() < (from + n) / 8
        || cells.len() < (to + n) / 8
    {
        return 0;
    }
    let lead = before_byte(to);
    for i in 0..lead {
        let x = cell(cells, from + i);
        put_cell(cells, to + i, x);
    }
    let k = (n - lead) / 8;
    copy_bytes(cells, (from + lead) / 8, (to + lead) / 8, k);
    lead + 8 * k
}

// The first of n cells set to 0, up to the end of the last byte that they fill: what stands before the first whole byte one by one, then
// all bytes at once. How many they are: none where they pass the end, or are few.
fn zero_front(cells: &mut [u8], at: usize, n: usize) -> usize
    requires { (at < 2 ^ 32) × (n < 2 ^ 32) }
    ensures { (result ≤ n) × (sets (bits_of cells.old) at (zeros n) ≡ sets (bits_of cells.new) (at + result) (zeros (n - result))) }
{
    if n < LEAST_RUN || cells.len() < (at + n) / 8 {
        return 0;
    }
    let lead = before_byte(at);
    for i in 0..lead {
        put_cell(cells, at + i, 0);
    }
    let k = (n - lead) / 8;
    zero_bytes(cells, (at + lead) / 8, k);
    lead + 8 * k
}

// The first of n bits of a source put into the cells, up to the end of the last byte that they fill: what stands before the first whole
// byte one by one, then all bytes at once. How many they are: none where source and target stand at different places in a byte, pass the
// end, or are few.
fn put_front(source: &[u8], p: usize, n: usize, cells: &mut [u8], at: usize) -> usize
    requires { (p < 2 ^ 32) × (n < 2 ^ 32) × (at < 2 ^ 32) }
    ensures { (result ≤ n) × (sets (bits_of cells.old) at (bits_from (bits_of source.now) p n)
        ≡ sets (bits_of cells.new) (at + result) (bits_from (bits_of source.now) (p + result) (n - result))) }
{
    if n < LEAST_RUN
        || p % 8 != at % 8
        || source.len() < (p + n) / 8
        || cells.len() < (at + n) / 8
    {
        return 0;
    }
    let lead = before_byte(at);
    for i in 0..lead {
        let x = cell(source, p + i);
        put_cell(cells, at + i, x);
    }
    let k = (n - lead) / 8;
    put_bytes(source, (p + lead) / 8, k, cells, (at + lead) / 8);
    lead + 8 * k
}

// The first of n cells to be copied, eight at once where they fill a byte and none of them is written before it is read; how many they are.
fn copy_step(cells: &mut [u8], from: usize, to: usize, n: u32) -> u32
    requires { 0 < n }
    ensures { (0 < result) × (result ≤ n)
        × (copy_bits (bits_of cells.old) from to n ≡ copy_bits (bits_of cells.new) (from + result) (to + result) (n - result)) }
{
    if 8 <= n && to % 8 == 0 && (to <= from || 8 <= to - from) {
        let x = eight_at(cells, from);
        put_byte(cells, to / 8, x);
        return 8;
    }
    let b = cell(cells, from);
    put_cell(cells, to, b);
    1
}

// The first of n cells set to 0, eight at once where they fill a byte; how many they are.
fn zero_step(cells: &mut [u8], at: usize, n: u32) -> u32
    requires { 0 < n }
    ensures { (0 < result) × (result ≤ n) × (sets (bits_of cells.old) at (zeros n) ≡ sets (bits_of cells.new) (at + result) (zeros (n - result))) }
{
    if 8 <= n && at % 8 == 0 {
        put_byte(cells, at / 8, 0);
        return 8;
    }
    put_cell(cells, at, 0);
    1
}

// The first of n bits of a source from bit p on put into the cells, eight at once where they fill a byte; how many they are.
fn put_step(source: &[u8], p: usize, n: u32, cells: &mut [u8], at: usize) -> u32
    requires { 0 < n }
    ensures { (0 < result) × (result ≤ n) × (sets (bits_of cells.old) at (bits_from (bits_of source.now) p n)
        ≡ sets (bits_of cells.new) (at + result) (bits_from (bits_of source.now) (p + result) (n - result))) }
{
    if 8 <= n && at % 8 == 0 {
        let x = eight_at(source, p);
        put_byte(cells, at / 8, x);
        return 8;
    }
    let b = cell(source, p);
    put_cell(cells, at, b);
    1
}

// The cell at p; 0 past the end.
pub fn read_cell(cells: &[u8], p: u32) -> u8
    ensures { result ≡ get_or (bits_of cells.now) p 0 }
{
    cell(cells, p as usize)
}

// The eight cells from p on, as a byte whose top bit is the first of them; 0 past the end.
pub fn read_eight(cells: &[u8], p: usize) -> u8
    ensures { result ≡ number_from 0 (bits_from (bits_of cells.now) p 8) }
{
    eight_at(cells, p)
}

// The cell at p set to b % 2; nothing past the end.
pub fn write_cell(cells: &mut [u8], p: u32, b: u8)
    ensures { bits_of cells.new ≡ set (bits_of cells.old) p (b % 2) }
{
    put_cell(cells, p as usize, b);
}

// n cells from `from` on copied to `to` on, one after the other.
pub fn copy_cells(cells: &mut [u8], from: u32, to: u32, n: u32)
    ensures { bits_of cells.new ≡ copy_bits (bits_of cells.old) from to n }
{
    let mut i = copy_front(cells, from as usize, to as usize, n as usize) as u32;
    while i < n {
        i += copy_step(
            cells,
            from as usize + i as usize,
            to as usize + i as usize,
            n - i,
        );
    }
}

// n cells from `at` on set to 0.
pub fn zero_cells(cells: &mut [u8], at: u32, n: u32)
    ensures { bits_of cells.new ≡ sets (bits_of cells.old) at (zeros n) }
{
    let mut done = zero_front(cells, at as usize, n as usize) as u32;
    while done < n {
        done += zero_step(cells, at as usize + done as usize, n - done);
    }
}

// n bits of a source from bit p on, put into the cells from `at` on; a bit past the source's end is 0.
pub fn put_bits(source: &[u8], p: u32, n: u32, cells: &mut [u8], at: u32)
    ensures { bits_of cells.new ≡ sets (bits_of cells.old) at (bits_from (bits_of source.now) p n) }
{
    let mut put = put_front(source, p as usize, n as usize, cells, at as usize) as u32;
    while put < n {
        put += put_step(
            source,
            p as usize + put as usize,
            n - put,
            cells,
            at as usize + put as usize,
        );
    }
}
