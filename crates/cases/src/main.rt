// The worked cases of document 01, run through the calls: a line for each with its number in the document, the number handed back and the results.
#![tactic(auto)]

ghost use Rattle.std.specs.Prelude.{◌<◌};

use std::{fmt, io};
use verdict::Refusal;
use words::{encode_product, encode_systematic};

// Cells as digits.
#[derive(Drop)]
struct Digits<'a>(&'a [u8]);

impl<'a> fmt::Display for Digits<'a> {
    fn fmt<W: fmt::Write>(&self, f: &mut fmt::Formatter<W>) -> fmt::Result {
        for cell in self.0 {
            write!(f, "{cell}")?;
        }
        Ok(())
    }
}

// The case, the number handed back and the value, 0 beside a refusal, and cells.
fn show(rt: &impl Print, case: u64, outcome: Result<u64, Refusal>, cells: &[u8]) -> io::Result<()> {
    match outcome {
        Ok(value) => println!(rt; "{case} 0 {value} {}", Digits(cells)),
        Err(refusal) => println!(rt; "{case} {} 0 {}", u64::from(refusal), Digits(cells)),
    }
}

// Case, number, remainder, quotient.
fn division_case<const N: usize>(
    rt: &impl Print,
    case: u64,
    dividend: &[u8; N],
    divisor: u64,
) -> io::Result<()> {
    let mut quotient = [0; N];
    let outcome = division::divide(dividend, divisor, &mut quotient);
    show(rt, case, outcome, &quotient)
}

// Case, number, 0, word of N cells.
fn encoding_case<const N: usize, F: FnOnce(usize, u64, &[u8], &mut [u8]) -> Result<(), Refusal>>(
    rt: &impl Print,
    case: u64,
    encode: F,
    g: u64,
    message: &[u8],
) -> io::Result<()>
    requires small { N < 64 }
    requires callable { F.IsAlwaysCallable encode }
{
    let mut word = [0; N];
    let outcome = encode(N, g, message, &mut word).map(|()| 0);
    show(rt, case, outcome, &word)
}

// Case, number, remainder.
fn remainder_case(rt: &impl Print, case: u64, n: usize, g: u64, word: &[u8]) -> io::Result<()> {
    show(rt, case, words::remainder(n, g, word), b"")
}

// Case, number, cells mended, message of K cells: by the decoder, and by the clocked reader.
fn reading_case<const N: usize, const K: usize>(
    rt: &impl Print,
    case: u64,
    g: u64,
    rule: u64,
    word: &[u8; N],
) -> io::Result<()>
    requires { K < 64 }
{
    let mut message = [0; K];
    let outcome = words::decode_systematic(N, g, rule, word, &mut message);
    show(rt, case, outcome, &message)?;
    let mut clocked = [0; K];
    let outcome = reader::read(N, g, rule, word, &mut clocked);
    show(rt, case, outcome, &clocked)
}

// Case and number.
fn check_case(rt: &impl Print, case: u64, n: usize, g: u64, rule: u64) -> io::Result<()> {
    show(rt, case, codes::check_rule(n, g, rule).map(|()| 0), b"")
}

// Cases 1 to 3.
fn divisions(rt: &impl Print) -> io::Result<()> {
    division_case(rt, 1, &[1, 0, 1, 0, 1, 0, 0, 0, 1, 1], 45)?;
    division_case(rt, 2, &[1, 1, 0, 0, 0, 1, 1, 1], 21)?;
    division_case(rt, 3, &[1, 1, 1, 0, 0, 1, 1], 11)
}

// Cases 4 to 10.
fn encodings(rt: &impl Print) -> io::Result<()> {
    encoding_case::<7, _>(rt, 4, encode_systematic, 11, &[1, 1, 0, 1])?;
    encoding_case::<7, _>(rt, 5, encode_systematic, 11, &[1, 0, 0, 1])?;
    encoding_case::<7, _>(rt, 6, encode_systematic, 13, &[0, 0, 1, 0])?;
    encoding_case::<7, _>(rt, 7, encode_product, 11, &[0, 1, 0, 1])?;
    encoding_case::<15, _>(rt, 8, encode_systematic, 1335, &[1, 0, 1, 0, 1])?;
    encoding_case::<15, _>(rt, 9, encode_systematic, 465, &[0, 0, 1, 1, 1, 0, 0])?;
    remainder_case(
        rt,
        10,
        15,
        1335,
        &[1, 0, 0, 0, 0, 0, 1, 0, 1, 0, 1, 0, 0, 0, 1],
    )
}

// Cases 11 to 14.
fn readings(rt: &impl Print) -> io::Result<()> {
    reading_case::<7, 4>(rt, 11, 11, 1, &[1, 1, 0, 1, 1, 0, 1])?;
    reading_case::<15, 7>(
        rt,
        12,
        465,
        2,
        &[1, 0, 1, 1, 1, 0, 0, 1, 1, 0, 0, 0, 0, 0, 0],
    )?;
    reading_case::<15, 7>(
        rt,
        13,
        465,
        2,
        &[0, 0, 0, 0, 0, 0, 0, 0, 0, 0, 0, 0, 1, 0, 1],
    )?;
    reading_case::<7, 4>(rt, 14, 11, 1, &[0, 0, 0, 0, 0, 1, 1])
}

// Case 15.
fn checks(rt: &impl Print) -> io::Result<()> {
    check_case(rt, 15, 1, 3, 0)?;
    check_case(rt, 15, 2, 3, 0)?;
    check_case(rt, 15, 2, 3, 1)?;
    check_case(rt, 15, 63, 67, 0)?;
    check_case(rt, 15, 64, 67, 0)?;
    check_case(rt, 15, 7, 10, 0)?;
    check_case(rt, 15, 8, 11, 0)?;
    check_case(rt, 15, 7, 11, 3)?;
    check_case(rt, 15, 7, 11, 2)
}

fn main(rt: HostRuntime) -> io::Result<()> {
    divisions(&rt)?;
    encodings(&rt)?;
    readings(&rt)?;
    checks(&rt)
}
