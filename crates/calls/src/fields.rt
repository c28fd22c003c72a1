// The fields of a line, each behind one space.
ghost use Rattle.std.specs.Prelude.{◌≤◌, ◌<◌, length, IfOk, IfSome};

use reader::Reader;

// The most cells of a field that has no fixed count.
const MOST: usize = 8192;

// Room for the cells of two fields, made once. What it holds from a line before is nobody's.
#[derive(Drop)]
pub(crate) struct Rooms {
    pub(crate) first: [u8; MOST],
    pub(crate) second: [u8; MOST],
}

impl Rooms {
    pub(crate) fn new() -> Rooms {
        Rooms {
            first: [0; MOST],
            second: [0; MOST],
        }
    }
}

// Why a line has no results: it is not of the form.
#[derive(Clone, Copy)]
pub(crate) struct Unclear;

// The fields that are not yet read.
#[derive(Clone, Copy)]
pub(crate) struct Fields<'a> {
    rest: &'a [u8],
}

// The value of a hexadecimal digit in lower case. (No `to_digit`: it takes upper case too.)
fn digit(b: u8) -> Option<u8>
    ensures { IfSome result (λ d. d < 16) }
{
    match b {
        b'0'..=b'9' => Some(b - b'0'),
        b'a'..=b'f' => Some(b - b'a' + 10),
        _ => None,
    }
}

// The byte that a text begins with as two hexadecimal digits, and what stands behind it.
fn first_byte(text: &[u8]) -> Option<(u8, &[u8])> {
    let (digits, behind) = text.split_first_chunk::<2>()?;
    Some((digit(digits[0])? * 16 + digit(digits[1])?, behind))
}

impl<'a> Fields<'a> {
    pub(crate) fn new(line: &'a [u8]) -> Fields<'a> {
        Fields { rest: line }
    }

    // The space before a field.
    fn space(&mut self) -> Result<(), Unclear> {
        match self.rest.split_first() {
            Some((b' ', behind)) => {
                self.rest = behind;
                Ok(())
            }
            _ => Err(Unclear),
        }
    }

    // No field is left.
    pub(crate) fn end(self) -> Result<(), Unclear> {
        if self.rest.is_empty() {
            Ok(())
        } else {
            Err(Unclear)
        }
    }

    // A number in decimal, below 2^64. (No index: what is left of the text.)
    pub(crate) fn number(&mut self) -> Result<u64, Unclear> {
        self.space()?;
        let mut value: u64 = 0;
        let mut rest = self.rest;
        while let Some((first, behind)) = rest.split_first() {
            if !first.is_ascii_digit() {
                break;
            }
            let lowest = u64::from(*first - b'0');
            value = value
                .checked_mul(10)
                .and_then(|v| v.checked_add(lowest))
                .ok_or(Unclear)?;
            rest = behind;
        }
        if rest.len() == self.rest.len() {
            return Err(Unclear);
        }
        self.rest = rest;
        Ok(value)
    }

    // n and g.
    pub(crate) fn code(&mut self) -> Result<(usize, u64), Unclear> {
        Ok((self.number()? as usize, self.number()?))
    }

    // n, g and the rule.
    pub(crate) fn ruled(&mut self) -> Result<(usize, u64, u64), Unclear> {
        let (n, g) = self.code()?;
        Ok((n, g, self.number()?))
    }

    // Cells, `0`, `1` or a byte each, put into the front of those that are lent, and how many they are. What is no cell, or does not fit, is left, and begins
    // no field. (A cell is one byte or three, so no `for` goes over the text.)
    pub(crate) fn cells(&mut self, room: &mut [u8]) -> Result<usize, Unclear>
        ensures { IfOk result (λ count. count ≤ length room.new) }
    {
        self.space()?;
        if let Some((b'-', behind)) = self.rest.split_first() {
            self.rest = behind;
            return Ok(0);
        }
        let mut count = 0;
        let mut rest = self.rest;
        while count < room.len()
            && let Some((first, behind)) = rest.split_first()
        {
            if *first == b'0' || *first == b'1' {
                room[count] = *first - b'0';
                rest = behind;
            } else if *first == b'x'
                && let Some((byte, after)) = first_byte(behind)
            {
                room[count] = byte;
                rest = after;
            } else {
                break;
            }
            count += 1;
        }
        if count == 0 {
            return Err(Unclear);
        }
        self.rest = rest;
        Ok(count)
    }

    // A row of N cells.
    pub(crate) fn row<const N: usize>(&mut self) -> Result<[u8; N], Unclear> {
        let mut row = [0; N];
        if self.cells(&mut row)? != N {
            return Err(Unclear);
        }
        Ok(row)
    }

    // A reader's seven fields.
    pub(crate) fn reader(&mut self) -> Result<Reader, Unclear> {
        let (n, g, rule) = self.ruled()?;
        Ok(Reader {
            n,
            g,
            rule,
            clocks: self.number()? as usize,
            mended: self.number()?,
            stages: self.row()?,
            cells: self.row()?,
        })
    }
}
