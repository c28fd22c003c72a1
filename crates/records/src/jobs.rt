// From the fields of a record to what it gives: the count of mended cells and the value, or a refusal.
ghost use Rattle.std.specs.Prelude.{◌≡◌, ◌^◌, ◌<◌};
ghost use Rattle.verdict.specs.Refusal.{number};
ghost use Rattle.codes.specs.Finding.{FindsCode};
ghost use Rattle.records.specs.Records.{Gives};
ghost use Rattle.records.specs.Steps.{Answered, count_of, value_of, fields};

use crate::job::Job;
use crate::record::Record;
use tables::{Division, Patterns, Plate};
use verdict::Refusal;

// What is read out of a record that is done. (That number and count are digits is no invariant of it: the number is the refusal's, and other calls refuse
// with 10 and 11.)
#[derive(Clone, Copy)]
pub(crate) struct Reading {
    pub count: u64,
    pub value: u64,
}

// That of a job that mends nothing.
fn unmended(value: u64) -> Reading
    ensures { (result.count ≡ 0) × (result.value ≡ value) }
{
    Reading { count: 0, value }
}

// The tables that the jobs are done by, made once for a block of records.
#[derive(Drop)]
pub(crate) struct Tables {
    division: Division,
    patterns: Patterns,
}

impl Tables {
    pub(crate) fn new() -> Tables {
        let division = Division::new();
        let patterns = Patterns::new(&division);
        Tables { division, patterns }
    }

    // The code word that differs from w in a pattern of the rule, and the number of cells in that pattern. (A rule is a number: see
    // `pattern_count` in codes.)
    fn mend(&self, plate: Plate, rule: u64, w: u64) -> Result<Reading, Refusal>
        requires { w < 2 ^ plate.n }
        ensures mends { FindsCode plate.n plate.g rule w (number result) (value_of result) (count_of result) }
        ensures digits { (number result < 10) × (count_of result < 10) }
    {
        if 2 < rule {
            return Err(Refusal::Rule);
        }
        if plate.highest < rule {
            return Err(Refusal::NotCarried);
        }
        let s = self.division.remainder(plate, w);
        let Some(pattern) = self.patterns.find(plate, rule, s) else {
            return Err(Refusal::Unreadable);
        };
        Ok(Reading {
            count: u64::from(pattern.count_ones()),
            value: w ^ pattern,
        })
    }

    // What a job gives for a plate.
    fn perform(&self, job: Job, plate: Plate, rule: u64, word: u64) -> Result<Reading, Refusal>
        ensures { Answered job plate.n plate.g rule word (number result) (count_of result) (value_of result) }
    {
        if !job.allows(plate, rule, word) {
            return Err(Refusal::Record);
        }
        match job {
            Job::E => {
                let x = word << plate.r;
                Ok(unmended(x ^ self.division.remainder(plate, x)))
            }
            Job::P => Ok(unmended(poly::times_number(plate.g, word))),
            Job::S => Ok(unmended(self.division.remainder(plate, word))),
            Job::D => {
                let m = self.mend(plate, rule, word)?;
                Ok(Reading {
                    value: m.value >> plate.r,
                    ..m
                })
            }
            Job::Q => {
                let m = self.mend(plate, rule, word)?;
                Ok(Reading {
                    value: self.division.divide(plate, m.value) >> plate.r,
                    ..m
                })
            }
        }
    }

    // What a record gives. Number 9 comes before every other.
    pub(crate) fn answer(&self, record: Record) -> Result<Reading, Refusal>
        ensures digits { (number result < 10) × (count_of result < 10) }
        ensures gives { Gives (fields «record») (number result) (count_of result) (value_of result) }
    {
        if record.spare != 0 {
            return Err(Refusal::Record);
        }
        let job = Job::try_from(record.letter)?;
        let plate = Plate::of(u64::from(record.family)).ok_or(Refusal::Record)?;
        self.perform(job, plate, u64::from(record.rule), record.word)
    }
}
