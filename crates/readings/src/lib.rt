// The better of two readings of one plate.
#![tactic(auto)]

ghost use Rattle.std.specs.Prelude.{◌≡◌, []};
ghost use Rattle.verdict.specs.Refusal.{number};
ghost use Rattle.readings.specs.Readings.{Numbered, Picks};
ghost use Rattle.readings.specs.Taken.{word_number, taken_number, taken_in};
ghost use Rattle.readings.specs.Within.{Weighs, Chosen};

use numbers::Decoding;
use verdict::Refusal;

/// Which of two words is taken.
#[derive(Clone, Copy, Debug, PartialEq, Eq)]
pub enum Taken {
    First = 1,
    Second = 2,
}

impl From<Taken> for u64 {
    ghost from_gives = { λ taken number. number ≡ word_number taken };

    fn from(taken: Taken) -> u64 {
        taken as u64
    }
}

// Two decodings weighed.
fn weigh(x: Result<Decoding, Refusal>, y: Result<Decoding, Refusal>) -> Result<Taken, Refusal>
    ensures { Weighs x y (number result) (taken_in result) }
{
    match (x, y) {
        (Err(_), Err(_)) => Err(Refusal::Unreadable),
        (Err(_), Ok(_)) => Ok(Taken::Second),
        (Ok(_), Err(_)) => Ok(Taken::First),
        (Ok(a), Ok(b)) => {
            if a.message != b.message {
                Err(Refusal::Differ)
            } else if b.mended < a.mended {
                Ok(Taken::Second)
            } else {
                Ok(Taken::First)
            }
        }
    }
}

// Which of the two words is taken, or why none.
fn choose(n: usize, g: u64, rule: u64, first: &[u8], second: &[u8]) -> Result<Taken, Refusal>
    ensures { Chosen n g rule first.now second.now (number result) (taken_in result) }
{
    let x = numbers::decode_systematic(n, g, rule, cells::number_of(first));
    codes::early(&x)?;
    if first.len() != n || second.len() != n {
        return Err(Refusal::Lent);
    }
    cells::check(first)?;
    cells::check(second)?;
    let y = numbers::decode_systematic(n, g, rule, cells::number_of(second));
    weigh(x, y)
}

/// The better of two words read from one plate, whole and as it was read: the very slice that was lent, or no cells.
pub fn better<'a>(n: usize, g: u64, rule: u64, first: &'a [u8], second: &'a [u8]) -> &'a [u8]
    ensures { Picks n g rule first.now second.now first.entry second.entry (λ h. h.now ≡ []) result }
{
    match choose(n, g, rule, first, second) {
        Ok(Taken::First) => first,
        Ok(Taken::Second) => second,
        Err(_) => &first[..0],
    }
}

/// The number that goes with `better`: 0 exactly if it hands back cells.
pub fn better_number(
    n: usize,
    g: u64,
    rule: u64,
    first: &[u8],
    second: &[u8],
) -> Result<(), Refusal>
    ensures { Numbered n g rule first.now second.now (number result) }
{
    choose(n, g, rule, first, second)?;
    Ok(())
}

/// Which of the two words `better` hands back, for callers that cannot be handed a slice.
pub fn better_word(n: usize, g: u64, rule: u64, first: &[u8], second: &[u8]) -> Option<Taken>
    ensures { Picks n g rule first.now second.now 1 2 (λ h. h ≡ 0) (taken_number result) }
{
    match choose(n, g, rule, first, second) {
        Ok(taken) => Some(taken),
        Err(_) => None,
    }
}
