// Polynomial arithmetic on numbers: the degree, one shift of a register whose stages are the digits of a number, division and product.
#![tactic(auto)]

ghost use Rattle.std.specs.Prelude.{◌≡◌, suc, ◌+◌, ◌*◌, ◌^◌, ◌≤◌, ◌<◌};
ghost use Rattle.verdict.specs.Verdict.{Tells, Where};
ghost use Rattle.poly.specs.Poly.{sum, times, Degree, Divided};
ghost use Rattle.poly.specs.Shifts.{Ready, reduce, low};

/// The degree of p, by the leading zeros of the number; 0 where p is 0, which has none. (0 and no Option: a leaf takes anything, docs/DECISIONS.md.)
pub fn degree_of(p: u64) -> usize
    ensures { Where (0 < p) (Degree p result) (result ≡ 0) }
{
    if p == 0 {
        return 0;
    }
    63 - (p.leading_zeros() as usize)
}

// Whether g has degree r up to 32, the register s is below 2^r, and the input is 0 or 1.
fn ready(r: usize, g: u64, s: u64, c: u64) -> bool
    ensures { Tells (Ready r g s c) result }
{
    r <= 32 && g >> r == 1 && s >> r == 0 && c <= 1
}

// t less g, where t has reached g's degree r.
fn reduced(r: usize, g: u64, t: u64) -> u64
    requires { (r ≤ 32) × (t < 2 ^ suc r) }
    ensures { result ≡ reduce r g t }
{
    if t >> r == 0 { t } else { t ^ g }
}

/// One shift of the register s of r stages by g, with input c at the low side; 0 where they do not fit together. (0 and no Option: a leaf takes anything, docs/DECISIONS.md.)
pub fn low_shift(r: usize, g: u64, s: u64, c: u64) -> u64
    ensures { Where (Ready r g s c) (result ≡ low r g s c) (result ≡ 0) }
{
    if !ready(r, g, s, c) {
        return 0;
    }
    reduced(r, g, s * 2 + c)
}

/// Quotient and remainder of a division.
#[derive(Clone, Copy, Default)]
pub struct Parts {
    pub quotient: u64,
    pub remainder: u64,
}

// Long division, digit by digit from the highest. (g and r are no struct: low_shift, which is public, takes them as two numbers, and what calls it has them so.)
fn long_division(p: u64, g: u64, r: usize) -> Parts
    requires { (r ≤ 32) × Degree g r }
    ensures { Divided p g result.quotient result.remainder }
{
    let mut q: u64 = 0;
    let mut s: u64 = 0;
    for i in (0..64 - (p.leading_zeros() as usize)).rev() {
        let t = s * 2 + (p >> i) % 2;
        let f = t >> r;
        q = q * 2 + f;
        s = t ^ (f * g);
    }
    Parts {
        quotient: q,
        remainder: s,
    }
}

/// Quotient and remainder of p by a divisor g of degree up to 32; zeros where g is 0 or of a higher degree. (Zeros and no Option: a leaf takes anything, docs/DECISIONS.md.)
pub fn divide_number(p: u64, g: u64) -> Parts
    ensures { Where ((0 < g) × (g < 2 ^ 33)) (Divided p g result.quotient result.remainder) ((result.quotient ≡ 0) × (result.remainder ≡ 0)) }
{
    let r = degree_of(g);
    if g == 0 || 32 < r {
        return Parts::default();
    }
    long_division(p, g, r)
}

// One digit c more of the first factor: x times what there is, plus c times q.
fn digit_times(t: u64, c: u64, q: u64) -> u64
    requires { (t < 2 ^ 63) × (c < 2) }
    ensures { result ≡ sum (t * 2) (c * q) }
{
    if c == 0 { t * 2 } else { (t * 2) ^ q }
}

// The product, digit by digit of p from the highest: p has at most d digits past its lowest, and q at most e.
fn long_product(p: u64, q: u64, d: usize, e: usize) -> u64
    requires { (p < 2 ^ suc d) × (q < 2 ^ suc e) × (d + e ≤ 63) }
    ensures { result ≡ times p q }
{
    let mut t: u64 = 0;
    for i in (0..d + 1).rev() {
        t = digit_times(t, (p >> i) % 2, q);
    }
    t
}

/// The product of p and q, where it has at most 64 digits; else 0. It goes by the digits of p. (0 and no Option: a leaf takes anything, docs/DECISIONS.md.)
pub fn times_number(p: u64, q: u64) -> u64
    ensures { Where (times p q < 2 ^ 64) (result ≡ times p q) (result ≡ 0) }
{
    if p == 0 || q == 0 {
        return 0;
    }
    let d = degree_of(p);
    let e = degree_of(q);
    if 63 < d + e {
        return 0;
    }
    long_product(p, q, d, e)
}
