// The calls on a code with words and messages as numbers: bit i is x^i, so the last cell is the lowest.
#![tactic(auto)]

ghost use Rattle.std.specs.Prelude.{◌≡◌, [], ◌∷◌, ◌++◌, ◌≤◌, IfOk};
ghost use Rattle.verdict.specs.Refusal.{number, value};
ghost use Rattle.verdict.specs.Verdict.{Verdict};
ghost use Rattle.codes.specs.Code.{code_checks};
ghost use Rattle.codes.specs.Mending.{Pattern};
ghost use Rattle.codes.specs.Coding.{Systematic, Product, First};
ghost use Rattle.codes.specs.Calls.{message_check, Encodes, Leaves, Decodes};
ghost use Rattle.codes.specs.Finding.{FindsCode};
ghost use Rattle.numbers.specs.Finding.{FirstShift, Finds, code_found, mended_found};
ghost use Rattle.numbers.specs.Results.{message, mended};

use codes::Code;
use verdict::Refusal;

/// The message of the code word that a word stands for, and how many of its cells were mended.
#[derive(Clone, Copy)]
pub struct Decoding {
    pub message: u64,
    pub mended: u64,
}

// The code, where the message fits it.
fn message_code(n: usize, g: u64, message: u64) -> Result<Code, Refusal>
    ensures checks { Verdict (code_checks n g ++ (message_check n g message ∷ [])) (number result) }
    ensures code { IfOk result (λ code. (code.n ≡ n) × (code.g ≡ g)) }
{
    let code = Code::new(n, g)?;
    if message >> (n - code.r) != 0 {
        return Err(Refusal::Lent);
    }
    Ok(code)
}

/// The systematic word of a message: x^r D + the remainder of x^r D by g.
pub fn encode_systematic(n: usize, g: u64, message: u64) -> Result<u64, Refusal>
    ensures { Encodes Systematic n g message (number result) (value result) }
{
    let code = message_code(n, g, message)?;
    let shifted = message << code.r;
    let parts = poly::divide_number(shifted, g);
    Ok(shifted ^ parts.remainder)
}

/// The product word of a message: D times g.
pub fn encode_product(n: usize, g: u64, message: u64) -> Result<u64, Refusal>
    ensures { Encodes Product n g message (number result) (value result) }
{
    message_code(n, g, message)?;
    Ok(poly::times_number(g, message))
}

/// The remainder of a word.
pub fn remainder(n: usize, g: u64, word: u64) -> Result<u64, Refusal>
    ensures { Leaves n g word (number result) (value result) }
{
    codes::check_code(n, g)?;
    if word >> n != 0 {
        return Err(Refusal::Lent);
    }
    let parts = poly::divide_number(word, g);
    Ok(parts.remainder)
}

// The first place i below m where x^i times e has the remainder s.
fn first_shift(code: Code, e: u64, s: u64, m: usize) -> Option<usize>
    ensures { FirstShift e code.g s m result }
{
    let start = poly::divide_number(e, code.g);
    let mut p = start.remainder;
    for i in 0..m {
        if p == s {
            return Some(i);
        }
        p = poly::low_shift(code.r, code.g, p, 0);
    }
    None
}

// The pattern of the rule that has the remainder s. (3 is two neighbouring cells; shifted to x^(n-1) it goes over the end, and is the two ends.)
// (The rule is a number: see `pattern_count` in codes.)
fn find(code: Code, rule: u64, s: u64) -> Option<u64>
    ensures { Finds (Pattern code.n rule) code.g s result }
{
    let n = code.n;
    if s == 0 {
        return Some(0);
    }
    if rule == 0 {
        return None;
    }
    if let Some(i) = first_shift(code, 1, s, n) {
        return Some(1 << i);
    }
    if rule == 1 {
        return None;
    }
    let i = first_shift(code, 3, s, n)?;
    if i < n - 1 {
        return Some(3 << i);
    }
    Some((1 << (n - 1)) ^ 1)
}

// A code word, and in how many cells it differs from the word that was read.
#[derive(Clone, Copy)]
struct Mending {
    code: u64,
    mended: u64,
}

// The code word that differs from a word in a pattern of the rule.
fn find_code(n: usize, g: u64, rule: u64, word: u64) -> Result<Mending, Refusal>
    ensures { FindsCode n g rule word (number result) (code_found result) (mended_found result) }
{
    let code = Code::carrying(n, g, rule)?;
    if word >> n != 0 {
        return Err(Refusal::Lent);
    }
    let parts = poly::divide_number(word, g);
    let Some(places) = find(code, rule, parts.remainder) else {
        return Err(Refusal::Unreadable);
    };
    Ok(Mending {
        code: word ^ places,
        mended: places.count_ones() as u64,
    })
}

/// The message of the code word that differs from a word in a pattern of the rule: its first k cells.
pub fn decode_systematic(n: usize, g: u64, rule: u64, word: u64) -> Result<Decoding, Refusal>
    ensures { Decodes First n g rule word (number result) (message result) (mended result) }
{
    let x = find_code(n, g, rule, word)?;
    Ok(Decoding {
        message: x.code >> poly::degree_of(g),
        mended: x.mended,
    })
}

/// The message of the code word that differs from a word in a pattern of the rule: its quotient by g.
pub fn decode_product(n: usize, g: u64, rule: u64, word: u64) -> Result<Decoding, Refusal>
    ensures { Decodes Product n g rule word (number result) (message result) (mended result) }
{
    let x = find_code(n, g, rule, word)?;
    let parts = poly::divide_number(x.code, g);
    Ok(Decoding {
        message: parts.quotient,
        mended: x.mended,
    })
}
