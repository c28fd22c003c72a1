// The checks of a call and the numbers that they give. The definitions are in specs/ and their laws in proofs/; the code has a name for each number.
#![tactic(auto)]

ghost use Rattle.std.specs.Prelude.{◌≡◌};
ghost use Rattle.verdict.specs.Refusal.{number_of, number as number_in};

/// Why a call is refused: a name for each number that document 01 hands back.
#[derive(Clone, Copy, Debug, PartialEq, Eq, Hash)]
pub enum Refusal {
    /// The length, or that of a dividend.
    Length = 1,
    /// The generator, or a divisor.
    Generator = 2,
    /// The generator does not divide x^n + 1.
    NotCyclic = 3,
    /// The mending rule.
    Rule = 4,
    /// The code does not carry the rule.
    NotCarried = 5,
    /// A lent slice has not the needed length.
    Lent = 6,
    /// An input cell.
    Cell = 7,
    /// No code word within the rule.
    Unreadable = 8,
    /// A record is not allowed.
    Record = 9,
    /// Two readings differ.
    Differ = 10,
    /// The reader is not in form, or not at that clock.
    Form = 11,
}

impl From<Refusal> for u64 {
    ghost from_gives = { λ refusal number. number ≡ number_of refusal };

    fn from(refusal: Refusal) -> u64 {
        refusal as u64
    }
}

/// The number that a call hands back: 0 where it was done.
pub fn number<T>(outcome: &Result<T, Refusal>) -> u64
    ensures { result ≡ number_in outcome.now }
{
    match outcome {
        Ok(_) => 0,
        Err(refusal) => (*refusal).into(),
    }
}
