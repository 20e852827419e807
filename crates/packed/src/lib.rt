// Packed records of test data: files of them read, their records one after the other, numbers, the parts of a record, packed lists of numbers,
// and the tally that is printed of a file. Every read has an answer past the end: numbers are 0 there, and a part or a record that is cut
// off is empty.
#![tactic(auto)]

ghost use Rattle.std.specs.Prelude.{◌≡◌, ◌+◌, ◌*◌, ◌<◌, ◌≤◌, length, take, drop, IfOk};
ghost use Rattle.std.specs.Iterator.{at_most};
ghost use Rattle.refusal.specs.Numbers.{number_of, place_of};
ghost use Rattle.packed.specs.Records.{number, whole, part, first_record, after_first, tells};
ghost use Rattle.packed.specs.Lists.{unpacked, head_or, after_number, holds_numbers, laid};
ghost use Rattle.packed.specs.Files.{GivesRecord};
ghost use Rattle.packed.specs.Tallies.{counted};

use refusal::Refusal;
use std::fs::File;
use std::io;
use std::io::Read;
use std::rt::Files;

// The most bytes of a file.
pub const FILE_BYTES: usize = 65_536;

// How many records a file had, and how many of them came out otherwise than it says.
#[derive(Clone, Copy, Debug, Default, PartialEq, Eq)]
pub struct Tally {
    pub count: u32,
    pub wrong: u32,
}

// Reads until the buffer is full or the reader ends; how many bytes were read.
fn fill<R: Read>(reader: &mut R, buf: &mut [u8]) -> io::Result<usize>
    ensures { IfOk result (λ n. n ≤ length buf.new) }
{
    let mut count: usize = 0;
    while count < buf.len() {
        let more = reader.read(&mut buf[count..])?;
        if more == 0 {
            break;
        }
        count += more;
    }
    Ok(count)
}

// Reads the file at a path until the buffer is full or the file ends; how many bytes were read.
pub fn read_file<R: Files>(rt: &R, path: &str, buf: &mut [u8]) -> io::Result<usize>
    ensures { IfOk result (λ n. n ≤ length buf.new) }
{
    let mut file = File::open(rt, path)?;
    fill(&mut file, buf)
}

// Number k of a record.
pub fn number(record: &[u8], k: u32) -> u32
    ensures { result ≡ number «record».now k }
{
    common::number_at(record, 4 * k as usize)
}

// Whether a record begins with two numbers.
pub fn tells(record: &[u8], first: u32, second: u32) -> bool
    ensures { result ≡ tells «record».now first second }
{
    number(record, 0) == first && number(record, 1) == second
}

// Whether a record begins with the number and the place of a refusal.
pub fn tells_refusal(record: &[u8], why: Refusal) -> bool
    ensures { result ≡ tells «record».now (number_of why) (place_of why) }
{
    tells(record, refusal::number(why), refusal::place(why))
}

// The first n entries, or as many as there are.
pub fn front<T>(v: &[T], n: usize) -> &[T]
    ensures { result.now ≡ take n v.now }
{
    &v[..n.min(v.len())]
}

// The bytes after the first n; none where there are no more.
pub fn from(v: &[u8], n: usize) -> &[u8]
    ensures { result.now ≡ drop n v.now }
{
    &v[n.min(v.len())..]
}

// The first n bytes; none where they are not all there.
fn whole(v: &[u8], n: usize) -> &[u8]
    ensures { result.now ≡ whole n v.now }
{
    if v.len() < n { &v[..0] } else { &v[..n] }
}

// The part whose size is number k; none where it is not all there. The parts follow `head` numbers, and number `first` is the size of the first of them.
pub fn part(record: &[u8], first: u32, head: u32, k: u32) -> &[u8]
    ensures { result.now ≡ part «record».now first head k }
{
    let mut rest = from(record, 4 * head as usize);
    for j in first..k {
        rest = from(rest, number(record, j) as usize);
    }
    whole(rest, number(record, k) as usize)
}

// The first number of a packed list; past the end another.
#[tactic(auto, using(crate::proofs::Lists::first_of, crate::proofs::Lists::first_of_none), unfolding(crate::specs::Lists::first_number))]
fn first_number(list: &[u8], rest: u32) -> u32
    ensures { result ≡ head_or rest (unpacked list.now) }
{
    if list.is_empty() {
        return rest;
    }
    match list[0] {
        254 => u32::from(common::half_at(list, 1)),
        255 => common::number_at(list, 1),
        one => u32::from(one),
    }
}

// A packed list after its first number.
#[tactic(auto, unfolding(crate::specs::Lists::after_number))]
fn after_number(list: &[u8]) -> &[u8]
    ensures { result.now ≡ after_number list.now }
{
    match common::entry_or(list, 0, 0) {
        254 => from(list, 3),
        255 => from(list, 5),
        _ => from(list, 1),
    }
}

// Whether a store holds the numbers of a packed list, and one number again and again after them.
pub fn holds_numbers(store: &[u32], list: &[u8], rest: u32) -> bool
    ensures { result ≡ holds_numbers store.now (unpacked list.now) rest }
{
    let mut left = list;
    for entry in store {
        if *entry != first_number(left, rest) {
            return false;
        }
        left = after_number(left);
    }
    left.is_empty()
}

// The numbers of a packed list, laid over the start of a store; how many there is room for.
pub fn laid(list: &[u8], store: &mut [u32]) -> usize
    ensures { (result, store.new) ≡ laid (unpacked list.now) store.old }
{
    let mut left = list;
    for (k, entry) in store.iter_mut().enumerate() {
        if left.is_empty() {
            return k;
        }
        *entry = first_number(left, 0);
        left = after_number(left);
    }
    store.len()
}

// The first record of a file, which begins with the count of the record's bytes; none where it is not all there.
pub fn first_record(file: &[u8]) -> &[u8]
    ensures { result.now ≡ first_record file.now }
{
    whole(from(file, 4), number(file, 0) as usize)
}

// The file after its first record.
pub fn after_first(file: &[u8]) -> &[u8]
    ensures { result.now ≡ after_first file.now }
{
    from(file, 4 + number(file, 0) as usize)
}

// The records of a file, one after the other.
#[derive(Clone, Copy, Debug)]
pub struct FileRecords<'a> {
    rest: &'a [u8],
}

impl<'a> FileRecords<'a> {
    // The records of a file from its first on.
    pub fn of(file: &'a [u8]) -> FileRecords<'a>
        ensures { result.rest.now ≡ file.now }
    {
        FileRecords { rest: file }
    }
}

impl<'a> Iterator for FileRecords<'a> {
    type Item = &'a [u8];

    ghost next_gives = { GivesRecord };

    ghost remaining = { λ s. at_most (length s.rest.now) };

    fn next(&mut self) -> Option<&'a [u8]> {
        if self.rest.is_empty() {
            return None;
        }
        let record = first_record(self.rest);
        self.rest = after_first(self.rest);
        Some(record)
    }
}

// The tally with a record more, right or wrong. It begins again after the largest number.
pub fn counted(t: Tally, fine: bool) -> Tally
    ensures { result ≡ counted t fine }
{
    Tally {
        count: t.count.wrapping_add(1),
        wrong: if fine {
            t.wrong
        } else {
            t.wrong.wrapping_add(1)
        },
    }
}

// The tally with the records of the file at a path more, each judged right or wrong.
fn replay_file<R: Files, J: Fn(&[u8]) -> io::Result<bool>>(
    rt: &R,
    path: &str,
    judge: &J,
    before: Tally,
) -> io::Result<Tally>
    requires { J.IsAlwaysCallable judge.now }
{
    let mut file = [0u8; FILE_BYTES];
    let n = read_file(rt, path, &mut file)?;
    let mut t = before;
    for record in FileRecords::of(&file[..n]) {
        t = counted(t, judge(record)?);
    }
    Ok(t)
}

// The tally of the files at the paths, each record judged right or wrong.
pub fn replay<R: Files, J: Fn(&[u8]) -> io::Result<bool>>(
    rt: &R,
    paths: &[&str],
    judge: J,
) -> io::Result<Tally>
    requires { J.IsAlwaysCallable judge }
{
    let mut t = Tally::default();
    for path in paths {
        t = replay_file(rt, path, &judge, t)?;
    }
    Ok(t)
}

// Prints a line that names what came out otherwise.
pub fn print_wrong(rt: &impl Print, name: &[u8]) -> io::Result<()> {
    rt.write_all(b"wrong: ")?;
    rt.write_all(name)?;
    rt.write_all(b"\n")
}

// Prints a line: how many there were of what, and how many wrong.
pub fn print_tally(rt: &impl Print, what: &[u8], t: Tally) -> io::Result<()> {
    print!(rt; "{} ", t.count)?;
    rt.write_all(what)?;
    println!(rt; ", {} wrong", t.wrong)
}
