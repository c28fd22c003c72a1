// The checks of a code and a rule: numbers 1 to 5.
#![tactic(auto)]

ghost use Rattle.std.specs.Prelude.{◌≡◌, ◌+◌, ◌*◌, ◌≤◌, ◌<◌, IfOk, IfErr, IfSome, IfNone};
ghost use Rattle.poly.specs.Poly.{Degree, Remainder};
ghost use Rattle.verdict.specs.Refusal.{number_of, number};
ghost use Rattle.verdict.specs.Verdict.{Verdict, Passed, Tells};
ghost use Rattle.codes.specs.Code.{Generator, code_checks};
ghost use Rattle.codes.specs.Mending.{Pattern, Carries, rule_checks};
ghost use Rattle.codes.specs.Row.{pattern_at, pattern_count, Given, Remainders};

use verdict::Refusal;

/// A length and a generator that pass the checks 1 to 3, and the generator's degree. (That they pass has proofs of more than one shape: a number that
/// g is multiplied by is part of one. So it is kept in ∥ ∥₁, and `checked` in proofs/Checking gets it back.)
#[derive(Clone, Copy)]
pub struct Code {
    pub n: usize,
    pub g: u64,
    pub r: usize,
    ghost given: { Given n g r },
    ghost room: { r < n },
    ghost passed: { ∥ Passed (code_checks n g) ∥₁ },
}

// The degree of a generator that is odd, of a degree from 1 to 32, and below n.
fn generator_degree(n: usize, g: u64) -> Option<usize>
    ensures some { IfSome result (λ r. Generator n g × Degree g r) }
    ensures none { IfNone result (Generator n g → ⊥) }
{
    let r = poly::degree_of(g);
    if g % 2 == 0 || r == 0 || 32 < r || n <= r {
        return None;
    }
    Some(r)
}

impl Code {
    /// The checks 1 to 3.
    pub fn new(n: usize, g: u64) -> Result<Code, Refusal>
        ensures checks { Verdict (code_checks n g) (number result) }
        ensures code { IfOk result (λ code. (code.n ≡ n) × (code.g ≡ g)) }
    {
        if n < 2 || 63 < n {
            return Err(Refusal::Length);
        }
        let r = generator_degree(n, g).ok_or(Refusal::Generator)?;
        let whole = poly::divide_number((1 << n) ^ 1, g);
        if whole.remainder != 0 {
            return Err(Refusal::NotCyclic);
        }
        Ok(Code { n, g, r })
    }

    /// The checks 1 to 5. (A rule is a number: see `pattern_count`.)
    pub fn carrying(n: usize, g: u64, rule: u64) -> Result<Code, Refusal>
        ensures checks { Verdict (rule_checks n g rule) (number result) }
        ensures code { IfOk result (λ code. (code.n ≡ n) × (code.g ≡ g)) }
    {
        let code = Code::new(n, g)?;
        if 2 < rule {
            return Err(Refusal::Rule);
        }
        if !code.carries(rule) {
            return Err(Refusal::NotCarried);
        }
        Ok(code)
    }

    // The remainder of the pattern at place k of the row, from the remainders of those before it.
    fn next_remainder(self, t: &[u64], k: usize) -> u64
        requires { (k ≤ 2 * self.n) × Remainders self.n self.g k t.now }
        ensures { Remainder (pattern_at self.n k) self.g result }
    {
        let n = self.n;
        match k {
            0 => 0,
            1 => 1,
            _ if k <= n => poly::low_shift(self.r, self.g, t[k - 1], 0),
            _ if k < 2 * n => t[k - n + 1] ^ t[k - n],
            _ => t[n] ^ t[1],
        }
    }

    // The remainders of the first m patterns. (By places: one is made from those before it.)
    fn remainders(self, m: usize) -> [u64; 127]
        requires { m ≤ 2 * self.n + 1 }
        ensures { Remainders self.n self.g m result }
    {
        let mut t = [0; 127];
        for k in 0..m {
            t[k] = self.next_remainder(&t, k);
        }
        t
    }

    // Whether no two different patterns of the rule have the same remainder. The search over pairs of patterns stops at the first two that collide.
    // (Two loops left by a label and no early return: the rules that this follows fix that form, docs/DECISIONS.md.)
    fn carries(self, rule: u64) -> bool
        ensures { Tells (Carries (Pattern self.n rule) self.g) result }
    {
        let m = pattern_count(self.n, rule);
        let t = self.remainders(m);
        let mut carried = true;
        'pairs: for j in 0..m {
            for i in 0..j {
                if t[i] == t[j] {
                    carried = false;
                    break 'pairs;
                }
            }
        }
        carried
    }
}

// How many patterns the rule has. (A rule is a number, as callers and the reader's layout for C have it, and its patterns are those of the rules below
// it and more: an enum would be turned into that number here and at each comparison.)
fn pattern_count(n: usize, rule: u64) -> usize
    requires { n ≤ 63 }
    ensures count { result ≡ pattern_count n rule }
    ensures most { result ≤ 2 * n + 1 }
{
    match rule {
        0 => 1,
        1 => n + 1,
        _ if 2 < n => 2 * n + 1,
        _ => 2 * n,
    }
}

/// The checks 1 to 3.
pub fn check_code(n: usize, g: u64) -> Result<(), Refusal>
    ensures { Verdict (code_checks n g) (number result) }
{
    Code::new(n, g)?;
    Ok(())
}

/// The checks 1 to 5.
pub fn check_rule(n: usize, g: u64, rule: u64) -> Result<(), Refusal>
    ensures { Verdict (rule_checks n g rule) (number result) }
{
    Code::carrying(n, g, rule)?;
    Ok(())
}

/// Whether a number is one of 1 to 5: those of a code and a rule come before those of cells and words. (Of a number and not of a `Refusal`: a leaf takes
/// anything, docs/DECISIONS.md.)
pub fn comes_first(m: u64) -> bool
    ensures { Tells ((0 < m) × (m < 6)) result }
{
    0 < m && m <= 5
}

/// The refusal, where it is one by code or rule: it comes before those of the lent cells.
pub fn early<T>(x: &Result<T, Refusal>) -> Result<(), Refusal>
    ensures late { IfOk result (λ _. (0 < number x.now) × (number x.now < 6) → ⊥) }
    ensures early { IfErr result (λ e. (number x.now ≡ number_of e) × (0 < number_of e) × (number_of e < 6)) }
{
    match x {
        Err(refusal) if comes_first((*refusal).into()) => Err(*refusal),
        _ => Ok(()),
    }
}
