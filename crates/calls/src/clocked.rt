// The calls of the clocked reader.
use super::fields::{Fields, Rooms, Unclear};
use super::output::{Output, both};
use reader::Reader;
use std::fmt::Write;

// What is printed beside a refused start. (No Default: an array of 63 has none.)
const NONE: Reader = Reader {
    n: 0,
    g: 0,
    rule: 0,
    clocks: 0,
    mended: 0,
    stages: [0; 32],
    cells: [0; 63],
};

// N: n g rule.
pub(crate) fn start(mut fields: Fields, out: &mut Output) -> Result<(), Unclear> {
    let (n, g, rule) = fields.ruled()?;
    fields.end()?;
    match Reader::start(n, g, rule) {
        Ok(reader) => {
            let _ = out.write_str("0 ");
            out.reader(&reader);
        }
        Err(refusal) => {
            let _ = write!(out, "{} ", u64::from(refusal));
            out.reader(&NONE);
        }
    }
    Ok(())
}

// C: a reader, and a cell in decimal.
pub(crate) fn clock(mut fields: Fields, out: &mut Output) -> Result<(), Unclear> {
    let reader = fields.reader()?;
    let cell = u8::try_from(fields.number()?).map_err(|_| Unclear)?;
    fields.end()?;
    let x = reader.clock(cell);
    let (number, given) = both(x.given.map(u64::from));
    let _ = write!(out, "{number} {given} ");
    out.reader(&x.reader);
    Ok(())
}

// A: a reader and a message.
pub(crate) fn answer(
    mut fields: Fields,
    rooms: &mut Rooms,
    out: &mut Output,
) -> Result<(), Unclear> {
    let reader = fields.reader()?;
    let lent = fields.cells(&mut rooms.first)?;
    fields.end()?;
    let message = &mut rooms.first[..lent];
    let (number, mended) = both(reader.answer(message));
    let _ = write!(out, "{number} {mended} ");
    out.cells(message);
    Ok(())
}
