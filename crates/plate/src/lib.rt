// The calls of the library under names that C and Rust can link. Each does what the call of its name does, with the same promise; numbers pass as
// themselves, lent cells as a pointer and then a length. C takes no Result and no enum with values, so a refusal is its number here, and zeros stand beside it, or the reader that was given.
#![tactic(auto)]

ghost use Rattle.std.specs.Prelude.{◌≡◌};
ghost use Rattle.verdict.specs.Refusal.{number, value};
ghost use Rattle.verdict.specs.Verdict.{Verdict};
ghost use Rattle.division.specs.Division.{DividesCells, LeavesLow, LeavesHigh};
ghost use Rattle.codes.specs.Code.{code_checks};
ghost use Rattle.codes.specs.Mending.{rule_checks};
ghost use Rattle.codes.specs.Coding.{Systematic, Product, First};
ghost use Rattle.codes.specs.Calls.{Encodes, Leaves, Decodes, EncodesCells, LeavesCells, DecodesCells};
ghost use Rattle.numbers.specs.Results.{message, mended};
ghost use Rattle.reader.specs.Reader.{started, clocked, Starts, Clocks, Answers};
ghost use Rattle.readings.specs.Taken.{taken_number};
ghost use Rattle.readings.specs.Readings.{Numbered, Picks};
ghost use Rattle.families.specs.Families.{length_of, generator_of, pairs_of};

use verdict::Refusal;

/// A number and the value beside it: `plate_outcome`, `plate_reading` and `plate_value` of the header.
#[repr(C)]
#[derive(Clone, Copy)]
pub struct Value {
    pub number: u64,
    pub value: u64,
}

/// A number, and a message and the count of mended cells beside it: `plate_decoding`.
#[repr(C)]
#[derive(Clone, Copy)]
pub struct Decoding {
    pub number: u64,
    pub message: u64,
    pub mended: u64,
}

/// A number and the reader: `plate_started`. (A reader of zeros is written out: an array of 63 has no Default.)
#[repr(C)]
#[derive(Clone, Copy)]
pub struct Started {
    pub number: u64,
    pub reader: reader::Reader,
}

/// A number, the cell given out, and the next reader: `plate_clocked`.
#[repr(C)]
#[derive(Clone, Copy)]
pub struct Clocked {
    pub number: u64,
    pub cell: u8,
    pub reader: reader::Reader,
}

impl From<Result<u64, Refusal>> for Value {
    ghost from_gives = { λ x v. (v.number ≡ number x) × (v.value ≡ value x) };

    fn from(x: Result<u64, Refusal>) -> Value {
        Value {
            number: verdict::number(&x),
            value: x.unwrap_or(0),
        }
    }
}

impl From<Result<numbers::Decoding, Refusal>> for Decoding {
    ghost from_gives = { λ x d. (d.number ≡ number x) × (d.message ≡ message x) × (d.mended ≡ mended x) };

    fn from(x: Result<numbers::Decoding, Refusal>) -> Decoding {
        match x {
            Ok(decoding) => Decoding {
                number: 0,
                message: decoding.message,
                mended: decoding.mended,
            },
            Err(refusal) => Decoding {
                number: refusal.into(),
                message: 0,
                mended: 0,
            },
        }
    }
}

impl From<Result<reader::Reader, Refusal>> for Started {
    ghost from_gives = { λ x s. (s.number ≡ (started x).number) × (s.reader ≡ (started x).reader) };

    fn from(x: Result<reader::Reader, Refusal>) -> Started {
        match x {
            Ok(reader) => Started { number: 0, reader },
            Err(refusal) => Started {
                number: refusal.into(),
                reader: reader::Reader {
                    n: 0,
                    g: 0,
                    rule: 0,
                    clocks: 0,
                    mended: 0,
                    stages: [0; 32],
                    cells: [0; 63],
                },
            },
        }
    }
}

impl From<reader::Clocked> for Clocked {
    ghost from_gives = { λ x c. (c.number ≡ (clocked x).number) × (c.cell ≡ (clocked x).cell) × (c.reader ≡ (clocked x).reader) };

    fn from(x: reader::Clocked) -> Clocked {
        match x.given {
            Ok(cell) => Clocked {
                number: 0,
                cell,
                reader: x.reader,
            },
            Err(refusal) => Clocked {
                number: refusal.into(),
                cell: 0,
                reader: x.reader,
            },
        }
    }
}

/// The checks 1 to 3.
#[unsafe(no_mangle)]
pub extern "C" fn plate_check_code(n: usize, g: u64) -> u64
    ensures { Verdict (code_checks n g) result }
{
    verdict::number(&codes::check_code(n, g))
}

/// The checks 1 to 5.
#[unsafe(no_mangle)]
pub extern "C" fn plate_check_rule(n: usize, g: u64, rule: u64) -> u64
    ensures { Verdict (rule_checks n g rule) result }
{
    verdict::number(&codes::check_rule(n, g, rule))
}

/// Quotient and remainder of lent cells.
#[unsafe(no_mangle)]
pub extern "C" fn plate_divide(dividend: &[u8], divisor: u64, quotient: &mut [u8]) -> Value
    ensures { DividesCells dividend.now divisor quotient.old quotient.new result.number result.value }
{
    division::divide(dividend, divisor, quotient).into()
}

/// The remainder, by the register with input at the low side.
#[unsafe(no_mangle)]
pub extern "C" fn plate_remainder_low(dividend: &[u8], divisor: u64) -> Value
    ensures { LeavesLow dividend.now divisor result.number result.value }
{
    division::remainder_low(dividend, divisor).into()
}

/// The remainder of x^r times the dividend, by the register with input at the high side.
#[unsafe(no_mangle)]
pub extern "C" fn plate_remainder_high(dividend: &[u8], divisor: u64) -> Value
    ensures { LeavesHigh dividend.now divisor result.number result.value }
{
    division::remainder_high(dividend, divisor).into()
}

/// The systematic word of a message, on lent cells.
#[unsafe(no_mangle)]
pub extern "C" fn plate_encode_systematic(n: usize, g: u64, message: &[u8], word: &mut [u8]) -> u64
    ensures { EncodesCells Systematic n g message.now word.old word.new result }
{
    verdict::number(&words::encode_systematic(n, g, message, word))
}

/// The product word of a message, on lent cells.
#[unsafe(no_mangle)]
pub extern "C" fn plate_encode_product(n: usize, g: u64, message: &[u8], word: &mut [u8]) -> u64
    ensures { EncodesCells Product n g message.now word.old word.new result }
{
    verdict::number(&words::encode_product(n, g, message, word))
}

/// The remainder of a word, on lent cells.
#[unsafe(no_mangle)]
pub extern "C" fn plate_remainder(n: usize, g: u64, word: &[u8]) -> Value
    ensures { LeavesCells n g word.now result.number result.value }
{
    words::remainder(n, g, word).into()
}

/// The message of a word by the systematic rule, on lent cells.
#[unsafe(no_mangle)]
pub extern "C" fn plate_decode_systematic(
    n: usize,
    g: u64,
    rule: u64,
    word: &[u8],
    message: &mut [u8],
) -> Value
    ensures { DecodesCells First n g rule word.now message.old message.new result.number result.value }
{
    words::decode_systematic(n, g, rule, word, message).into()
}

/// The message of a word by the product rule, on lent cells.
#[unsafe(no_mangle)]
pub extern "C" fn plate_decode_product(
    n: usize,
    g: u64,
    rule: u64,
    word: &[u8],
    message: &mut [u8],
) -> Value
    ensures { DecodesCells Product n g rule word.now message.old message.new result.number result.value }
{
    words::decode_product(n, g, rule, word, message).into()
}

/// The systematic word of a message, on numbers.
#[unsafe(no_mangle)]
pub extern "C" fn plate_encode_systematic_number(n: usize, g: u64, message: u64) -> Value
    ensures { Encodes Systematic n g message result.number result.value }
{
    numbers::encode_systematic(n, g, message).into()
}

/// The product word of a message, on numbers.
#[unsafe(no_mangle)]
pub extern "C" fn plate_encode_product_number(n: usize, g: u64, message: u64) -> Value
    ensures { Encodes Product n g message result.number result.value }
{
    numbers::encode_product(n, g, message).into()
}

/// The remainder of a word, on numbers.
#[unsafe(no_mangle)]
pub extern "C" fn plate_remainder_number(n: usize, g: u64, word: u64) -> Value
    ensures { Leaves n g word result.number result.value }
{
    numbers::remainder(n, g, word).into()
}

/// The message of a word by the systematic rule, on numbers.
#[unsafe(no_mangle)]
pub extern "C" fn plate_decode_systematic_number(n: usize, g: u64, rule: u64, word: u64) -> Decoding
    ensures { Decodes First n g rule word result.number result.message result.mended }
{
    numbers::decode_systematic(n, g, rule, word).into()
}

/// The message of a word by the product rule, on numbers.
#[unsafe(no_mangle)]
pub extern "C" fn plate_decode_product_number(n: usize, g: u64, rule: u64, word: u64) -> Decoding
    ensures { Decodes Product n g rule word result.number result.message result.mended }
{
    numbers::decode_product(n, g, rule, word).into()
}

/// A reader before its first clock.
#[unsafe(no_mangle)]
pub extern "C" fn plate_start(n: usize, g: u64, rule: u64) -> Started
    ensures { Starts n g rule (record { number = result.number; reader = result.reader }) }
{
    reader::Reader::start(n, g, rule).into()
}

/// One clock: a cell goes in, a cell comes out, the next reader comes back.
#[unsafe(no_mangle)]
pub extern "C" fn plate_clock(held: reader::Reader, cell: u8) -> Clocked
    ensures { Clocks held cell (record { number = result.number; cell = result.cell; reader = result.reader }) }
{
    held.clock(cell).into()
}

/// The answer after 2n clocks.
#[unsafe(no_mangle)]
pub extern "C" fn plate_answer(held: reader::Reader, message: &mut [u8]) -> Value
    ensures { Answers held message.old message.new result.number result.value }
{
    held.answer(message).into()
}

/// Start, 2n clocks and the answer in one call.
#[unsafe(no_mangle)]
pub extern "C" fn plate_read(n: usize, g: u64, rule: u64, word: &[u8], message: &mut [u8]) -> Value
    ensures { DecodesCells First n g rule word.now message.old message.new result.number result.value }
{
    reader::read(n, g, rule, word, message).into()
}

/// The better of two readings: 1 for the first word, 2 for the second, 0 for none.
#[unsafe(no_mangle)]
pub extern "C" fn plate_better_word(n: usize, g: u64, rule: u64, first: &[u8], second: &[u8]) -> u64
    ensures { Picks n g rule first.now second.now 1 2 (λ h. h ≡ 0) result }
{
    match readings::better_word(n, g, rule, first, second) {
        Some(taken) => taken.into(),
        None => 0,
    }
}

/// The number that goes with it.
#[unsafe(no_mangle)]
pub extern "C" fn plate_better_number(
    n: usize,
    g: u64,
    rule: u64,
    first: &[u8],
    second: &[u8],
) -> u64
    ensures { Numbered n g rule first.now second.now result }
{
    verdict::number(&readings::better_number(n, g, rule, first, second))
}

/// The number of cells of a family, numbered from 1; 0 where there is none.
#[unsafe(no_mangle)]
pub extern "C" fn plate_family_length(family: u64) -> usize
    ensures { result ≡ length_of family }
{
    families::family_of(family).n
}

/// The generator of a family, numbered from 1; 0 where there is none.
#[unsafe(no_mangle)]
pub extern "C" fn plate_family_generator(family: u64) -> u64
    ensures { result ≡ generator_of family }
{
    families::family_of(family).g
}

/// Whether a family carries rule 2; false where there is no such family.
#[unsafe(no_mangle)]
pub extern "C" fn plate_family_pairs(family: u64) -> bool
    ensures { result ≡ pairs_of family }
{
    families::family_of(family).pairs
}
