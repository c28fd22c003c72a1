// The calls on lent cells.
use super::fields::{Fields, Rooms, Unclear};
use super::output::{Output, both};
use std::fmt::Write;
use verdict::Refusal;

// L and H: divisor dividend.
pub(crate) fn divided<F: FnOnce(&[u8], u64) -> Result<u64, Refusal>>(
    mut fields: Fields,
    rooms: &mut Rooms,
    out: &mut Output,
    call: F,
) -> Result<(), Unclear>
    requires { F.IsAlwaysCallable call }
{
    let g = fields.number()?;
    let n = fields.cells(&mut rooms.first)?;
    fields.end()?;
    let (number, remainder) = both(call(&rooms.first[..n], g));
    let _ = write!(out, "{number} {remainder}");
    Ok(())
}

// D: divisor dividend quotient.
pub(crate) fn divide(
    mut fields: Fields,
    rooms: &mut Rooms,
    out: &mut Output,
) -> Result<(), Unclear> {
    let Rooms { first, second } = rooms;
    let g = fields.number()?;
    let n = fields.cells(first)?;
    let lent = fields.cells(second)?;
    fields.end()?;
    let quotient = &mut second[..lent];
    let (number, remainder) = both(division::divide(&first[..n], g, quotient));
    let _ = write!(out, "{number} {remainder} ");
    out.cells(quotient);
    Ok(())
}

// R: n g word.
pub(crate) fn remainder(
    mut fields: Fields,
    rooms: &mut Rooms,
    out: &mut Output,
) -> Result<(), Unclear> {
    let (n, g) = fields.code()?;
    let lent = fields.cells(&mut rooms.first)?;
    fields.end()?;
    let (number, remainder) = both(words::remainder(n, g, &rooms.first[..lent]));
    let _ = write!(out, "{number} {remainder}");
    Ok(())
}

// S and P: n g message word.
pub(crate) fn encode<F: FnOnce(usize, u64, &[u8], &mut [u8]) -> Result<(), Refusal>>(
    mut fields: Fields,
    rooms: &mut Rooms,
    out: &mut Output,
    call: F,
) -> Result<(), Unclear>
    requires { F.IsAlwaysCallable call }
{
    let Rooms { first, second } = rooms;
    let (n, g) = fields.code()?;
    let given = fields.cells(first)?;
    let lent = fields.cells(second)?;
    fields.end()?;
    let word = &mut second[..lent];
    let _ = write!(
        out,
        "{} ",
        verdict::number(&call(n, g, &first[..given], word))
    );
    out.cells(word);
    Ok(())
}

// M, Q and W: n g rule word message.
pub(crate) fn decode<F: FnOnce(usize, u64, u64, &[u8], &mut [u8]) -> Result<u64, Refusal>>(
    mut fields: Fields,
    rooms: &mut Rooms,
    out: &mut Output,
    call: F,
) -> Result<(), Unclear>
    requires { F.IsAlwaysCallable call }
{
    let Rooms { first, second } = rooms;
    let (n, g, rule) = fields.ruled()?;
    let given = fields.cells(first)?;
    let lent = fields.cells(second)?;
    fields.end()?;
    let message = &mut second[..lent];
    let (number, mended) = both(call(n, g, rule, &first[..given], message));
    let _ = write!(out, "{number} {mended} ");
    out.cells(message);
    Ok(())
}

// B: n g rule first second.
pub(crate) fn better(
    mut fields: Fields,
    rooms: &mut Rooms,
    out: &mut Output,
) -> Result<(), Unclear> {
    let Rooms { first, second } = rooms;
    let (n, g, rule) = fields.ruled()?;
    let one = fields.cells(first)?;
    let two = fields.cells(second)?;
    fields.end()?;
    let (first, second) = (&first[..one], &second[..two]);
    let number = verdict::number(&readings::better_number(n, g, rule, first, second));
    let word = readings::better_word(n, g, rule, first, second).map_or(0, u64::from);
    let _ = write!(out, "{number} {word} ");
    out.cells(readings::better(n, g, rule, first, second));
    Ok(())
}
