// Reads a dossier from standard input and prints one line: `value COUNT BITS` (no BITS and no last space for a count of 0), or `refused NO PLACE`.
// One byte more than a dossier may have is read, so that a longer input is refused as such. Where a read fails there is no line, and
// standard error says so. The stores have the largest size that any dossier needs.
#![tactic(auto)]

ghost use Rattle.std.specs.Prelude.{◌≤◌, length, IfOk};

use std::io;
use std::io::{Read, Write};

// The most bits of an output: the width of the widest type.
const OUTPUT_BITS: usize = limits::TYPE_WIDTH as usize;

// The first bits of the answer as characters, as many as there is room for; how many they are.
fn spell(answer: &[u8], count: u32, text: &mut [u8]) -> usize
    ensures { result ≤ length text.new }
{
    let n = (count as usize).min(text.len());
    for p in 0..n {
        text[p] = match cells::read_cell(answer, p as u32) {
            0 => b'0',
            _ => b'1',
        };
    }
    n
}

// The line of an output.
fn print_value<W: Write>(out: &mut W, count: u32, answer: &[u8]) -> io::Result<()> {
    write!(out, "value {count}")?;
    if 0 < count {
        let mut text = [0u8; OUTPUT_BITS];
        let n = spell(answer, count, &mut text);
        out.write_all(b" ")?;
        out.write_all(&text[..n])?;
    }
    out.write_all(b"\n")
}

// The whole job on a dossier, and its line.
fn answer<W: Write>(out: &mut W, dossier: &[u8]) -> io::Result<()> {
    let mut nodes = [0u32; limits::NODE_NUMBERS * limits::NODE_COUNT];
    let mut hashes = [0u8; limits::DOSSIER_BYTES];
    let mut cells = [0u8; limits::CELL_COUNT as usize / 8];
    let mut frames = [0u32; limits::FRAME_NUMBERS * limits::FRAME_COUNT as usize];
    let mut answer = [0u8; OUTPUT_BITS / 8];
    let said = dossier::run(
        dossier,
        &mut nodes,
        &mut hashes,
        &mut cells,
        &mut frames,
        &mut answer,
    );
    match said {
        Ok(count) => print_value(out, count, &answer),
        Err(why) => writeln!(
            out,
            "refused {} {}",
            refusal::number(why),
            refusal::place(why)
        ),
    }
}

// Reads until the buffer is full or the input ends; how many bytes were read.
fn read_input<R: Read>(input: &mut R, buf: &mut [u8]) -> io::Result<usize>
    ensures { IfOk result (λ n. n ≤ length buf.new) }
{
    let mut count: usize = 0;
    while count < buf.len() {
        let more = input.read(&mut buf[count..])?;
        if more == 0 {
            break;
        }
        count += more;
    }
    Ok(count)
}

fn main(rt: HostRuntime) -> io::Result<()> {
    let mut input = [0u8; limits::DOSSIER_BYTES + 1];
    let mut stdin = rt.stdin();
    let Ok(count) = read_input(&mut stdin, &mut input) else {
        return eprintln!(rt; "drevaloci: standard input cannot be read");
    };
    answer(&mut io::writer(&rt), &input[..count])
}
