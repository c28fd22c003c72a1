// Records and their lines.
#![tactic(auto)]

mod job;
mod jobs;
mod record;

ghost use Rattle.std.specs.Prelude.{◌+◌, ◌≤◌, ◌<◌, length};
ghost use Rattle.verdict.specs.Refusal.{number};
ghost use Rattle.records.specs.Records.{line_of, short_of, Printed};
ghost use Rattle.records.specs.Steps.{count_of, value_of, fields, PutsLine, Line};

use jobs::{Reading, Tables};
use record::Record;
use verdict::Refusal;

// Writes a line from place `at` on, and hands back the place after it. Number and count have one digit. (`out` and `at` are no struct: text::put_bytes and
// put_number, whose clauses are fixed, take and hand back the two, and a struct's methods would only repeat these. A
// refused record's line has zeros, and so do the three here.)
fn put_fields(out: &mut [u8], at: usize, record: Record, answer: Result<Reading, Refusal>) -> usize
    requires { (number answer < 10) × (count_of answer < 10) × (at + 64 ≤ length out.old) }
    ensures { PutsLine (line_of (fields «record») (number answer) (count_of answer) (value_of answer)) out.old at out.new result }
{
    let (number, count, value) = match answer {
        Ok(reading) => (0, reading.count, reading.value),
        Err(refusal) => (u64::from(refusal), 0, 0),
    };
    let a = text::put_number(out, at, u64::from(record.station));
    let middle = [
        b' ',
        job::shown(record.letter),
        b' ',
        b'0' + number as u8,
        b' ',
        b'0' + count as u8,
        b' ',
    ];
    let b = text::put_bytes(out, a, &middle);
    let c = text::put_number(out, b, value);
    text::put_bytes(out, c, b"\n")
}

// The line of a record.
fn put_line(tables: &Tables, bytes: [u8; 16], out: &mut [u8], at: usize) -> usize
    requires { at + 64 ≤ length out.old }
    ensures { Line bytes out.old at out.new result }
{
    let record = Record::from(bytes);
    put_fields(out, at, record, tables.answer(record))
}

// The short line.
fn put_short(out: &mut [u8], at: usize, count: usize) -> usize
    requires { (count < 16) × (at + 64 ≤ length out.old) }
    ensures { PutsLine (short_of count) out.old at out.new result }
{
    let a = text::put_bytes(out, at, b"short ");
    let b = text::put_number(out, a, count as u64);
    text::put_bytes(out, b, b"\n")
}

/// The lines of a block of records, from the front of `out` on, and the place after them. Where `out` has no room, nothing is written and 0 handed back.
/// (0 and no Option: with room, only a block of no bytes gives 0.)
pub fn lines(records: &[u8], out: &mut [u8]) -> usize
    ensures { Printed records.now out.old out.new result }
{
    if out.len() / 64 <= records.len() / 16 {
        return 0;
    }
    let tables = Tables::new();
    let (whole, rest) = records.as_chunks::<16>();
    let mut at = 0;
    for record in whole {
        at = put_line(&tables, *record, out, at);
    }
    if rest.is_empty() {
        return at;
    }
    put_short(out, at, rest.len())
}
