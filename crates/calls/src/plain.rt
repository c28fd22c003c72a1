// The calls on numbers.
use super::fields::{Fields, Unclear};
use super::output::{Output, both};
use numbers::Decoding;
use std::fmt::Write;
use verdict::Refusal;

// K: n g.
pub(crate) fn check_code(mut fields: Fields, out: &mut Output) -> Result<(), Unclear> {
    let (n, g) = fields.code()?;
    fields.end()?;
    let _ = write!(out, "{}", verdict::number(&codes::check_code(n, g)));
    Ok(())
}

// k: n g rule.
pub(crate) fn check_rule(mut fields: Fields, out: &mut Output) -> Result<(), Unclear> {
    let (n, g, rule) = fields.ruled()?;
    fields.end()?;
    let _ = write!(out, "{}", verdict::number(&codes::check_rule(n, g, rule)));
    Ok(())
}

// F: a family.
pub(crate) fn family(mut fields: Fields, out: &mut Output) -> Result<(), Unclear> {
    let f = fields.number()?;
    fields.end()?;
    let family = families::family_of(f);
    let _ = write!(out, "{} {} {}", family.n, family.g, u64::from(family.pairs));
    Ok(())
}

// s and p: n g message. r: n g word.
pub(crate) fn convert<F: FnOnce(usize, u64, u64) -> Result<u64, Refusal>>(
    mut fields: Fields,
    out: &mut Output,
    call: F,
) -> Result<(), Unclear>
    requires { F.IsAlwaysCallable call }
{
    let (n, g) = fields.code()?;
    let input = fields.number()?;
    fields.end()?;
    let (number, value) = both(call(n, g, input));
    let _ = write!(out, "{number} {value}");
    Ok(())
}

// m and q: n g rule word.
pub(crate) fn decode<F: FnOnce(usize, u64, u64, u64) -> Result<Decoding, Refusal>>(
    mut fields: Fields,
    out: &mut Output,
    call: F,
) -> Result<(), Unclear>
    requires { F.IsAlwaysCallable call }
{
    let (n, g, rule) = fields.ruled()?;
    let word = fields.number()?;
    fields.end()?;
    let _ = match call(n, g, rule, word) {
        Ok(x) => write!(out, "0 {} {}", x.mended, x.message),
        Err(refusal) => write!(out, "{} 0 0", u64::from(refusal)),
    };
    Ok(())
}
