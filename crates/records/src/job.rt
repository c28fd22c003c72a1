// The jobs, and which letter, rule byte and word ask for one.
ghost use Rattle.std.specs.Prelude.{◌≡◌, ◌<◌};
ghost use Rattle.verdict.specs.Verdict.{Tells};
ghost use Rattle.records.specs.Records.{RuleFits, WordFits, shown as shownOf};
ghost use Rattle.records.specs.Steps.{Asks};

use tables::Plate;
use verdict::Refusal;

// E systematic encode, P product encode, S remainder, D systematic decode, Q product decode.
#[derive(Clone, Copy)]
pub(crate) enum Job {
    E,
    P,
    S,
    D,
    Q,
}

// The job that a letter asks for.
impl TryFrom<u8> for Job {
    type Error = Refusal;

    ghost try_from_gives = { Asks };

    fn try_from(letter: u8) -> Result<Job, Refusal> {
        match letter {
            b'E' => Ok(Job::E),
            b'P' => Ok(Job::P),
            b'S' => Ok(Job::S),
            b'D' => Ok(Job::D),
            b'Q' => Ok(Job::Q),
            _ => Err(Refusal::Record),
        }
    }
}

impl Job {
    // Whether rule byte and word are such as the job allows: a word has at most k digits with E and P. (A rule
    // is a number: see `pattern_count` in codes.)
    pub(crate) fn allows(self, plate: Plate, rule: u64, word: u64) -> bool
        ensures { Tells (RuleFits self rule × WordFits self plate.n plate.g word) result }
    {
        match self {
            Job::E | Job::P => rule == 0 && word >> (plate.n - plate.r) == 0,
            Job::S => rule == 0 && word >> plate.n == 0,
            Job::D | Job::Q => word >> plate.n == 0,
        }
    }
}

// The letter, `?` if unknown. (The record's own byte, and no text of a `Job`, since unknown letters have none.)
pub(crate) fn shown(letter: u8) -> u8
    ensures { result ≡ shownOf letter }
{
    if Job::try_from(letter).is_ok() {
        letter
    } else {
        b'?'
    }
}
