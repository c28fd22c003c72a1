// The library's calls, one on each line of standard input; the results of each are printed on a line, to be compared with those of another program.
// A line is a letter and the call's arguments, each behind one space. Numbers are in decimal. Cells are one text, `-` for none: `0`, `1`, and any other byte
// as `x` and two hexadecimal digits. A reader is its seven fields. A line that is not of this form prints `unclear`.
#![tactic(auto)]

mod clocked;
mod fields;
mod lent;
mod output;
mod plain;

ghost use Rattle.std.specs.Prelude.{◌≤◌, length, IfOk};

use fields::{Fields, Rooms, Unclear};
use output::Output;
use std::fmt::Write;
use std::io;
use std::io::Read;

// The most bytes of a line, with its line feed, and of the input that is held.
const LONGEST: usize = 65536;

// The call that a line's letter names. (A match and no table: the calls differ in type.)
fn call(line: &[u8], rooms: &mut Rooms, out: &mut Output) -> Result<(), Unclear> {
    let (letter, rest) = line.split_first().ok_or(Unclear)?;
    let fields = Fields::new(rest);
    match *letter {
        b'K' => plain::check_code(fields, out),
        b'k' => plain::check_rule(fields, out),
        b'F' => plain::family(fields, out),
        b's' => plain::convert(fields, out, numbers::encode_systematic),
        b'p' => plain::convert(fields, out, numbers::encode_product),
        b'r' => plain::convert(fields, out, numbers::remainder),
        b'm' => plain::decode(fields, out, numbers::decode_systematic),
        b'q' => plain::decode(fields, out, numbers::decode_product),
        b'L' => lent::divided(fields, rooms, out, division::remainder_low),
        b'H' => lent::divided(fields, rooms, out, division::remainder_high),
        b'D' => lent::divide(fields, rooms, out),
        b'R' => lent::remainder(fields, rooms, out),
        b'S' => lent::encode(fields, rooms, out, words::encode_systematic),
        b'P' => lent::encode(fields, rooms, out, words::encode_product),
        b'M' => lent::decode(fields, rooms, out, words::decode_systematic),
        b'Q' => lent::decode(fields, rooms, out, words::decode_product),
        b'W' => lent::decode(fields, rooms, out, reader::read),
        b'B' => lent::better(fields, rooms, out),
        b'N' => clocked::start(fields, out),
        b'C' => clocked::clock(fields, out),
        b'A' => clocked::answer(fields, rooms, out),
        _ => Err(Unclear),
    }
}

// Answers the lines that are whole, and hands back how much stands behind them. What is answered is written behind the last of them, and before that
// whenever there is a block of it: who waits for the answers to a full input gets them. (No `split`: it does not tell the last line from what is no whole one.)
fn answer_lines(
    rt: &impl Print,
    input: &[u8],
    rooms: &mut Rooms,
    out: &mut Output,
) -> io::Result<usize>
    ensures { IfOk result (λ rest. rest ≤ length input.now) }
{
    let mut rest = input;
    while let Some(end) = rest.iter().position(|&b| b == b'\n') {
        if call(&rest[..end], rooms, out).is_err() {
            let _ = write!(out, "unclear");
        }
        let _ = writeln!(out);
        if out.is_block() {
            out.write(rt)?;
        }
        rest = &rest[end + 1..];
    }
    out.write(rt)?;
    Ok(rest.len())
}

// Reads behind what is kept of the last input, until there is no room, it ends or a read fails, and hands back where that is. A last line without a line
// feed gets one. (No `BufReader`: it reads again behind the end, and further than the line that ends the program. No `read_exact`: where that fails, it does
// not say how much was read.)
fn fill(source: &mut impl Read, input: &mut [u8], kept: usize) -> usize
    requires { kept ≤ length input.old }
    ensures { result ≤ length input.new }
{
    let mut end = kept;
    while end < input.len() {
        match source.read(&mut input[end..]) {
            Ok(0) | Err(_) => break,
            Ok(more) => end += more,
        }
    }
    if 0 < end && end < input.len() && input[end - 1] != b'\n' {
        input[end] = b'\n';
        end += 1;
    }
    end
}

// Answers standard input to its end, or to a line that is too long. A read that fails ends it too. The turns are counted since a proved loop has to end; no
// run uses them up.
fn run(
    rt: &impl Print,
    source: &mut impl Read,
    input: &mut [u8],
    rooms: &mut Rooms,
    out: &mut Output,
) -> io::Result<()> {
    let mut kept = 0;
    for _ in 0..u64::MAX {
        let end = fill(source, input, kept);
        let rest = answer_lines(rt, &input[..end], rooms, out)?;
        if end < input.len() {
            return Ok(());
        }
        if rest == end {
            return rt.write_all(b"a line is too long\n");
        }
        input.copy_within(end - rest..end, 0);
        kept = rest;
    }
    Ok(())
}

fn main(rt: HostRuntime) -> io::Result<()> {
    let mut source = rt.stdin();
    let mut input = [0; LONGEST];
    let mut rooms = Rooms::new();
    let mut out = Output::new();
    run(&rt, &mut source, &mut input, &mut rooms, &mut out)
}
