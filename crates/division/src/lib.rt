// Plain division of lent cells: quotient and remainder, and the remainders of the register's two sides.
#![tactic(auto)]

ghost use Rattle.std.specs.Prelude.{◌≡◌, ℕ, ◌+◌, ◌*◌, ◌^◌, length, IfOk};
ghost use Rattle.poly.specs.Poly.{Remainder};
ghost use Rattle.poly.specs.Cells.{poly};
ghost use Rattle.poly.specs.Shifts.{Ready, low, high};
ghost use Rattle.verdict.specs.Verdict.{Verdict};
ghost use Rattle.verdict.specs.Refusal.{number, value};
ghost use Rattle.division.specs.Division.{Quotient, DividesCells, LeavesLow, LeavesHigh};
ghost use Rattle.division.specs.Within.{checks, Fit};

use verdict::Refusal;

// The degree of the divisor, where a call with so many cells lent for a quotient is allowed. A call without a quotient says as many as the dividend has, and
// the check of number 6 passes.
fn stages(dividend: &[u8], divisor: u64, lent: usize) -> Result<usize, Refusal>
    ensures checked { Verdict (checks dividend.now divisor lent) (number result) }
    ensures fit { IfOk result (λ r. Fit dividend.now divisor r × (lent ≡ length dividend.now)) }
{
    let r = poly::degree_of(divisor);
    if 4096 < dividend.len() {
        Err(Refusal::Length)
    } else if r == 0 || 32 < r {
        Err(Refusal::Generator)
    } else if lent != dividend.len() {
        Err(Refusal::Lent)
    } else {
        cells::check(dividend)?;
        Ok(r)
    }
}

// The side at which cells come into the register. What it holds after cells is the remainder of their polynomial times `factor`.
trait Side {
    ghost factor: { ℕ → ℕ };

    // `shifted r g s c`: the register s by g of degree r, shifted once, with the cell c.
    ghost shifted: { ℕ → ℕ → ℕ → ℕ → ℕ };

    fn shift(r: usize, g: u64, s: u64, c: u64) -> u64
        requires { Ready r g s c }
        ensures made { result ≡ shifted r g s c }
        ensures keeps { (p : ℕ) → Remainder (p * factor r) g s → Remainder ((p * 2 + c) * factor r) g result };
}

struct Low;

impl Side for Low {
    ghost factor = { λ r. 1 };

    ghost shifted = { low };

    fn shift(r: usize, g: u64, s: u64, c: u64) -> u64 {
        poly::low_shift(r, g, s, c)
    }
}

struct High;

impl Side for High {
    ghost factor = { λ r. 2 ^ r };

    ghost shifted = { high };

    // The feedback is the top stage plus the input.
    fn shift(r: usize, g: u64, s: u64, c: u64) -> u64 {
        let t = (s * 2) ^ (c << r);
        t ^ ((t >> r) * g)
    }
}

// The register after all cells. (dividend, g and r are no struct: `stages` checks them once, and the two runs alone take them.)
fn run<S: Side>(dividend: &[u8], g: u64, r: usize) -> u64
    requires { Fit dividend.now g r }
    ensures { Remainder (poly dividend.now * S.factor r) g result }
{
    let mut s: u64 = 0;
    for &c in dividend {
        s = S::shift(r, g, s, c as u64);
    }
    s
}

// The register after all cells, with its outputs written as the quotient. (By places: after `quotient.iter_mut().zip(dividend)` nothing is known of the cells.)
fn run_out(dividend: &[u8], g: u64, r: usize, quotient: &mut [u8]) -> u64
    requires fit { Fit dividend.now g r }
    requires quotient_len { length quotient.old ≡ length dividend.now }
    ensures { Quotient dividend.now g quotient.new result }
{
    let mut s: u64 = 0;
    for (i, &c) in dividend.iter().enumerate() {
        quotient[i] = ((s >> (r - 1)) % 2) as u8;
        s = poly::low_shift(r, g, s, c as u64);
    }
    s
}

/// Quotient and remainder.
pub fn divide(dividend: &[u8], divisor: u64, quotient: &mut [u8]) -> Result<u64, Refusal>
    ensures { DividesCells dividend.now divisor quotient.old quotient.new (number result) (value result) }
{
    let r = stages(dividend, divisor, quotient.len())?;
    Ok(run_out(dividend, divisor, r, quotient))
}

/// The remainder, by the register with input at the low side.
pub fn remainder_low(dividend: &[u8], divisor: u64) -> Result<u64, Refusal>
    ensures { LeavesLow dividend.now divisor (number result) (value result) }
{
    let r = stages(dividend, divisor, dividend.len())?;
    Ok(run::<Low>(dividend, divisor, r))
}

/// The remainder of x^r times the dividend, by the register with input at the high side.
pub fn remainder_high(dividend: &[u8], divisor: u64) -> Result<u64, Refusal>
    ensures { LeavesHigh dividend.now divisor (number result) (value result) }
{
    let r = stages(dividend, divisor, dividend.len())?;
    Ok(run::<High>(dividend, divisor, r))
}
