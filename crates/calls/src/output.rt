// The results that are not yet written.
ghost use Rattle.std.specs.Prelude.{◌<◌};

use reader::Reader;
use std::fmt::Write;
use std::{fmt, io};
use verdict::Refusal;

// A line's results are added where there is less than a block of others, and then fit: the longest are 8,192 cells of three bytes.
const BLOCK: usize = 32768;

const ROOM: usize = 65536;

// (Fixed memory, and no `Vec`, which can run out of memory.)
#[derive(Drop)]
pub(crate) struct Output {
    bytes: [u8; ROOM],
    filled: usize,
}

impl fmt::Write for Output {
    // It does not fail: what a line has fits.
    fn write_str(&mut self, text: &str) -> fmt::Result {
        self.filled = text::put_bytes(&mut self.bytes, self.filled, text.as_bytes());
        Ok(())
    }
}

impl Output {
    pub(crate) fn new() -> Output {
        Output {
            bytes: [0; ROOM],
            filled: 0,
        }
    }

    // Cells as one text, `-` for none. (By hand and no `Display`: with a call for each cell a reader's cells took twice as long. Where each is 0 or 1, as most
    // are, they go there at once.)
    pub(crate) fn cells(&mut self, cells: &[u8]) {
        let mut end = self.filled;
        let behind = end.saturating_add(cells.len());
        if cells.is_empty() {
            end = put(&mut self.bytes, end, b'-');
        } else if cells.iter().all(|&cell| cell < 2)
            && let Some(room) = self.bytes.get_mut(end..behind)
        {
            for (digit, &cell) in room.iter_mut().zip(cells) {
                *digit = b'0' | cell;
            }
            self.filled = behind;
            return;
        }
        for &cell in cells {
            if cell < 2 {
                end = put(&mut self.bytes, end, b'0' + cell);
            } else {
                end = put(&mut self.bytes, end, b'x');
                end = put(&mut self.bytes, end, hex(cell / 16));
                end = put(&mut self.bytes, end, hex(cell % 16));
            }
        }
        self.filled = end;
    }

    // A reader's seven fields.
    pub(crate) fn reader(&mut self, x: &Reader) {
        let _ = write!(
            self,
            "{} {} {} {} {} ",
            x.n, x.g, x.rule, x.clocks, x.mended
        );
        self.cells(&x.stages);
        let _ = self.write_str(" ");
        self.cells(&x.cells);
    }

    // Whether there is a block to write.
    pub(crate) fn is_block(&self) -> bool {
        BLOCK <= self.filled
    }

    // Writes all.
    pub(crate) fn write(&mut self, rt: &impl Print) -> io::Result<()> {
        let end = self.filled.min(ROOM);
        self.filled = 0;
        rt.write_all(&self.bytes[..end])
    }
}

// The number handed back, and the value, 0 beside a refusal.
pub(crate) fn both(outcome: Result<u64, Refusal>) -> (u64, u64) {
    (verdict::number(&outcome), outcome.unwrap_or(0))
}

// Puts a byte behind those that are there, and hands back where they end.
fn put(bytes: &mut [u8], end: usize, byte: u8) -> usize {
    if bytes.len() <= end {
        return end;
    }
    bytes[end] = byte;
    end + 1
}

// A hexadecimal digit in lower case. (No `{:x}`: see `cells`.)
fn hex(d: u8) -> u8
    requires { d < 16 }
{
    if d < 10 { b'0' + d } else { b'a' + (d - 10) }
}
