// The calls on a code with words and messages as lent cells, first cell first.
#![tactic(auto)]

ghost use Rattle.std.specs.Prelude.{◌≡◌, List, ℕ, [], ◌∷◌, ◌++◌, ◌-◌, ◌≤◌, length, drop};
ghost use Rattle.poly.specs.Cells.{cells};
ghost use Rattle.cells.specs.Lent.{cells_check};
ghost use Rattle.verdict.specs.Refusal.{number, value};
ghost use Rattle.verdict.specs.Verdict.{Verdict};
ghost use Rattle.codes.specs.Coding.{Systematic, Product, First};
ghost use Rattle.codes.specs.Calls.{Encodes, Decodes, EncodesCells, LeavesCells, DecodesCells};
ghost use Rattle.codes.proofs.Checking.{Code};
ghost use Rattle.numbers.specs.Results.{message, mended};
ghost use Rattle.words.specs.Within.{lengths_check, written_systematic, written_product, Stands, Fits};
ghost use Rattle.words.specs.Writing.{systematic_stands, product_stands};
ghost use Rattle.codes.proofs.Coding.{first_fits, product_fits};

use numbers::Decoding;
use verdict::Refusal;

// A rule of encoding: its calls on numbers, and how a word is written into lent cells. Generic code rests on the two laws.
trait Coding {
    // `encoded g d c`: c is the word of the message d.
    ghost encoded: { ℕ → ℕ → ℕ → Type 0 };

    // `says g d c`: d is the message of the code word c.
    ghost says: { ℕ → ℕ → ℕ → Type 0 };

    // The lent cells with a word of a message written into them.
    ghost written: { List ℕ → List ℕ → ℕ → List ℕ };

    fn encode(n: usize, g: u64, message: u64) -> Result<u64, Refusal>
        ensures { Encodes encoded n g message (number result) (value result) };

    fn decode(n: usize, g: u64, rule: u64, word: u64) -> Result<Decoding, Refusal>
        ensures { Decodes says n g rule word (number result) (message result) (mended result) };

    fn write(message: &[u8], word: &mut [u8], value: u64)
        requires { length message.now ≤ length word.old }
        ensures { word.new ≡ written message.now word.old value };

    // What is written stands for the word.
    ghost stands: { Stands encoded written };

    // A code word's message has at most k cells.
    ghost fits: { Fits says };
}

struct BySystematic;

struct ByProduct;

impl Coding for BySystematic {
    ghost encoded = { Systematic };

    ghost says = { First };

    ghost written = { written_systematic };

    fn encode(n: usize, g: u64, message: u64) -> Result<u64, Refusal> {
        numbers::encode_systematic(n, g, message)
    }

    fn decode(n: usize, g: u64, rule: u64, word: u64) -> Result<Decoding, Refusal> {
        numbers::decode_systematic(n, g, rule, word)
    }

    // The message's cells, then the check cells, which are the low digits of its word and are written into the tail of the lent word.
    fn write(message: &[u8], word: &mut [u8], value: u64) {
        let k = message.len();
        copy_front(message, word);
        cells::write_number(&mut word[k..], value);
    }

    ghost stands = { systematic_stands };

    ghost fits = { λ n g c d k p l a. first_fits p l a };
}

impl Coding for ByProduct {
    ghost encoded = { Product };

    ghost says = { Product };

    ghost written = { written_product };

    fn encode(n: usize, g: u64, message: u64) -> Result<u64, Refusal> {
        numbers::encode_product(n, g, message)
    }

    fn decode(n: usize, g: u64, rule: u64, word: u64) -> Result<Decoding, Refusal> {
        numbers::decode_product(n, g, rule, word)
    }

    fn write(_message: &[u8], word: &mut [u8], value: u64) {
        cells::write_number(word, value);
    }

    ghost stands = { product_stands };

    ghost fits = { λ n g c d k p l a. product_fits p l a };
}

// Cells copied to the front of others. (By places: `copy_from_slice` would need C's `memmove` beside the library.)
fn copy_front(from: &[u8], to: &mut [u8])
    requires { length from.now ≤ length to.old }
    ensures { to.new ≡ from.now ++ drop (length from.now) to.old }
{
    for (i, &cell) in from.iter().enumerate() {
        to[i] = cell;
    }
}

// The checks of lent cells behind those of a code: a message of k cells, a word of n, and input cells of 0 and 1. (n and g are no `Code`: the calls on numbers
// check them and hand back none.)
fn lent(n: usize, g: u64, message_len: usize, word_len: usize, input: &[u8]) -> Result<(), Refusal>
    requires { Code n g }
    ensures { Verdict (lengths_check n g message_len word_len ∷ cells_check input.now ∷ []) (number result) }
{
    if message_len != n - poly::degree_of(g) || word_len != n {
        return Err(Refusal::Lent);
    }
    cells::check(input)?;
    Ok(())
}

// An encoder, with its word written into the lent cells. The call on numbers comes first, since code and rule are checked there, and there alone.
fn encode<C: Coding>(n: usize, g: u64, message: &[u8], word: &mut [u8]) -> Result<(), Refusal>
    ensures { EncodesCells C.encoded n g message.now word.old word.new (number result) }
{
    let x = C::encode(n, g, cells::number_of(message));
    codes::early(&x)?;
    lent(n, g, message.len(), word.len(), message)?;
    C::write(message, word, x?);
    Ok(())
}

/// The systematic word of a message: its k cells, then the check cells.
pub fn encode_systematic(n: usize, g: u64, message: &[u8], word: &mut [u8]) -> Result<(), Refusal>
    ensures { EncodesCells Systematic n g message.now word.old word.new (number result) }
{
    encode::<BySystematic>(n, g, message, word)
}

/// The product word of a message: D times g.
pub fn encode_product(n: usize, g: u64, message: &[u8], word: &mut [u8]) -> Result<(), Refusal>
    ensures { EncodesCells Product n g message.now word.old word.new (number result) }
{
    encode::<ByProduct>(n, g, message, word)
}

/// The remainder of a word: the low-side remainder of its n cells.
pub fn remainder(n: usize, g: u64, word: &[u8]) -> Result<u64, Refusal>
    ensures { LeavesCells n g word.now (number result) (value result) }
{
    codes::check_code(n, g)?;
    if word.len() != n {
        return Err(Refusal::Lent);
    }
    cells::check(word)?;
    let parts = poly::divide_number(cells::number_of(word), g);
    Ok(parts.remainder)
}

// A decoder, with its message written into the lent cells, and the count of mended cells. As in `encode` the call on numbers comes first.
fn decode<C: Coding>(
    n: usize,
    g: u64,
    rule: u64,
    word: &[u8],
    message: &mut [u8],
) -> Result<u64, Refusal>
    ensures { DecodesCells C.says n g rule word.now message.old message.new (number result) (value result) }
{
    let x = C::decode(n, g, rule, cells::number_of(word));
    codes::early(&x)?;
    lent(n, g, message.len(), word.len(), word)?;
    let decoding = x?;
    cells::write_number(message, decoding.message);
    Ok(decoding.mended)
}

/// The message of the code word that differs from a word in a pattern of the rule: its first k cells.
pub fn decode_systematic(
    n: usize,
    g: u64,
    rule: u64,
    word: &[u8],
    message: &mut [u8],
) -> Result<u64, Refusal>
    ensures { DecodesCells First n g rule word.now message.old message.new (number result) (value result) }
{
    decode::<BySystematic>(n, g, rule, word, message)
}

/// The message of the code word that differs from a word in a pattern of the rule: its quotient by g.
pub fn decode_product(
    n: usize,
    g: u64,
    rule: u64,
    word: &[u8],
    message: &mut [u8],
) -> Result<u64, Refusal>
    ensures { DecodesCells Product n g rule word.now message.old message.new (number result) (value result) }
{
    decode::<ByProduct>(n, g, rule, word, message)
}
