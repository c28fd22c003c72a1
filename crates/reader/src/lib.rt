// The clocked reader of a cyclic code (Meggitt).
#![tactic(auto)]

ghost use Rattle.std.specs.Prelude.{◌≡◌, ◌+◌, ◌-◌, ◌*◌, ◌%◌, ◌≤◌, ◌<◌, length, take, IfSome, IfNone};
ghost use Rattle.poly.specs.Poly.{sum};
ghost use Rattle.poly.specs.Cells.{Cells};
ghost use Rattle.poly.specs.Register.{held, low_shift, added};
ghost use Rattle.verdict.specs.Verdict.{Tells};
ghost use Rattle.verdict.specs.Refusal.{number, value};
ghost use Rattle.codes.specs.Mending.{Pattern};
ghost use Rattle.codes.specs.Coding.{First};
ghost use Rattle.codes.specs.Calls.{DecodesCells};
ghost use Rattle.reader.specs.Reader.{Row, InForm, fresh, started, clocked, Starts, Looks, Loads, Gives, Clocks, Answers};
ghost use Rattle.reader.specs.Demand.{Reached};
ghost use Rattle.reader.specs.Within.{Halves, Triggers};

use codes::Code;
use verdict::Refusal;

/// A reader as it stands. Stage i is for x^i; the cells are stored first cell first.
/// The C interface (`plate_clock`) takes and hands back these fields: a row of 63 cells with n beside it, and the rule by its number.
#[repr(C)]
#[derive(Clone, Copy)]
pub struct Reader {
    pub n: usize,
    pub g: u64,
    pub rule: u64,
    pub clocks: usize,
    pub mended: u64,
    pub stages: [u8; 32],
    pub cells: [u8; 63],
}

// A reader in form, and its code. (A ghost fact is kept as a proposition, and `InForm` is truncated to be one: its parts are got back by `opened`.)
#[derive(Clone, Copy)]
struct Formed {
    reader: Reader,
    code: Code,
    ghost own: { (code.n ≡ reader.n) × (code.g ≡ reader.g) },
    ghost form: { ∥ InForm reader ∥₁ },
}

/// What a clock hands back: the cell given out, and the next reader; a refused clock gives the reader back.
#[derive(Clone, Copy)]
pub struct Clocked {
    pub given: Result<u8, Refusal>,
    pub reader: Reader,
}

// ---- the register

// The number that the stages hold.
fn held_in(stages: [u8; 32]) -> u64
    requires { Cells stages }
    ensures { result ≡ held stages }
{
    let mut p: u64 = 0;
    for &cell in stages.iter().rev() {
        p = p * 2 + u64::from(cell);
    }
    p
}

// A cell with f added to it, where p has its lowest digit.
fn fed(cell: u8, p: u64, f: u8) -> u8
    ensures { result ≡ sum cell (p % 2 * f) }
{
    if p % 2 == 1 { cell ^ f } else { cell }
}

// One shift of the register, with input at the low side.
fn shift(stages: [u8; 32], input: u8, g: u64, r: usize) -> [u8; 32]
    requires { (1 ≤ r) × (r ≤ 32) }
    ensures { result ≡ low_shift r g input stages }
{
    let f = stages[r - 1];
    let mut t = stages;
    let mut below = input;
    let mut rest = g;
    for stage in t.iter_mut() {
        let here = *stage;
        *stage = fed(below, rest, f);
        below = here;
        rest /= 2;
    }
    t
}

// A number added to the register.
fn add(stages: [u8; 32], p: u64) -> [u8; 32]
    ensures { result ≡ added p stages }
{
    let mut t = stages;
    let mut rest = p;
    for stage in t.iter_mut() {
        *stage = fed(*stage, rest, 1);
        rest /= 2;
    }
    t
}

// x cancelled: the remainder of p from s, that of x p. As g is odd, one of s and s + g is even.
fn halved(g: u64, s: u64) -> u64
    requires { g % 2 ≡ 1 }
    ensures { Halves g s result }
{
    if s % 2 == 0 { s / 2 } else { (s ^ g) / 2 }
}

// Whether the cells are 0 or 1, and 0 from place k on.
fn row_fits(s: &[u8], k: usize) -> bool
    ensures { Tells (Row (length s.now) k s.now) result }
{
    for (i, &c) in s.iter().enumerate() {
        if 1 < c || k <= i && c != 0 {
            return false;
        }
    }
    true
}

impl Formed {
    // The reader, if it is in form.
    fn new(reader: Reader) -> Option<Formed>
        ensures some { IfSome result (λ formed. formed.reader ≡ reader) }
        ensures none { IfNone result (InForm reader → ⊥) }
    {
        let Ok(code) = Code::carrying(reader.n, reader.g, reader.rule) else {
            return None;
        };
        let past = reader.clocks.saturating_sub(reader.n) as u64;
        if 2 * reader.n < reader.clocks || past < reader.mended {
            return None;
        }
        if !row_fits(&reader.stages, code.r) || !row_fits(&reader.cells, reader.n) {
            return None;
        }
        Some(Formed { reader, code })
    }

    // ---- one clock

    // Clock c up to n shifts the input in, stores it as the c-th cell and gives out 0.
    fn load(self, input: u8) -> Clocked
        requires { self.reader.clocks < self.reader.n }
        ensures { (number result.given ≡ 0) × Loads self.reader input (clocked result) }
    {
        let mut next = self.reader;
        next.cells[next.clocks] = input;
        next.stages = shift(next.stages, input, next.g, self.code.r);
        next.clocks += 1;
        Clocked {
            given: Ok(0),
            reader: next,
        }
    }

    // Whether the register is the remainder of x^i times a pattern that has cell i. The ends are joined and x^n leaves 1, so what these patterns
    // leave is the same for every cell: u, the remainder of x^(n-1), for the cell alone, u + 1 with the cell before it, and u + the remainder of
    // x^(n-2) with the cell after it. (The rule is a number: the reader's layout for C keeps one, and `Pattern` goes by 1 ≤ rule and 2 ≤ rule.)
    fn triggers(self) -> bool
        ensures { Triggers self.reader result }
    {
        let Reader {
            g,
            rule,
            stages,
            ..
        } = self.reader;
        if rule == 0 {
            return false;
        }
        let s = held_in(stages);
        let u = halved(g, 1);
        s == u || rule != 1 && (s == u ^ 1 || s == u ^ halved(g, u))
    }

    // A look at cell i: if the register triggers there, the cell changes, is counted, and the remainder of x^(n-1) is added to the register.
    fn look(self, i: usize) -> Reader
        requires { i < self.reader.n }
        ensures { Looks (Pattern self.reader.n self.reader.rule) self.reader i result }
    {
        let mut next = self.reader;
        if self.triggers() {
            next.stages = add(next.stages, halved(next.g, 1));
            next.cells[i] ^= 1;
            next.mended += 1;
        }
        next
    }

    // Clock n+j looks at the j-th cell; then 0 is shifted in and the stored cell given out.
    fn give(self) -> Clocked
        requires { (self.reader.n ≤ self.reader.clocks) × (self.reader.clocks < 2 * self.reader.n) }
        ensures { (number result.given ≡ 0) × Gives (Pattern self.reader.n self.reader.rule) self.reader (self.reader.clocks - self.reader.n) (clocked result) }
    {
        let i = self.reader.clocks - self.reader.n;
        let mut next = self.look(i);
        next.stages = shift(next.stages, 0, self.reader.g, self.code.r);
        next.clocks += 1;
        Clocked {
            given: Ok(next.cells[i]),
            reader: next,
        }
    }
}

// The first of the stored cells, as many as are lent. (By places: see `copy_front` in words.)
fn copy_first(cells: [u8; 63], message: &mut [u8])
    requires { length message.old ≤ 63 }
    ensures { message.new ≡ take (length message.old) cells }
{
    for i in 0..message.len() {
        message[i] = cells[i];
    }
}

impl Reader {
    // A clock that is refused: the reader as it was given.
    fn refused(self, why: Refusal) -> Clocked
        ensures { (result.given ≡ Err why) × (result.reader ≡ self) }
    {
        Clocked {
            given: Err(why),
            reader: self,
        }
    }

    // ---- the calls

    /// A start with n, g and a rule: a reader that stores zeros.
    pub fn start(n: usize, g: u64, rule: u64) -> Result<Reader, Refusal>
        ensures { Starts n g rule (started result) }
    {
        codes::check_rule(n, g, rule)?;
        Ok(Reader {
            n,
            g,
            rule,
            clocks: 0,
            mended: 0,
            stages: [0; 32],
            cells: [0; 63],
        })
    }

    /// One clock takes the reader as it stands and gives the next.
    pub fn clock(self, cell: u8) -> Clocked
        ensures { Clocks self cell (clocked result) }
    {
        let Some(formed) = Formed::new(self) else {
            return self.refused(Refusal::Form);
        };
        if 2 * self.n <= self.clocks {
            return self.refused(Refusal::Form);
        }
        if 1 < cell || self.n <= self.clocks && cell != 0 {
            return self.refused(Refusal::Cell);
        }
        if self.clocks < self.n {
            formed.load(cell)
        } else {
            formed.give()
        }
    }

    /// After 2n clocks: the message, written into k lent cells, and the count of mended cells.
    pub fn answer(self, message: &mut [u8]) -> Result<u64, Refusal>
        ensures { Answers self message.old message.new (number result) (value result) }
    {
        let formed = Formed::new(self).ok_or(Refusal::Form)?;
        if self.clocks != 2 * self.n {
            return Err(Refusal::Form);
        }
        if message.len() != self.n - formed.code.r {
            return Err(Refusal::Lent);
        }
        if held_in(self.stages) != 0 {
            return Err(Refusal::Unreadable);
        }
        copy_first(self.cells, message);
        Ok(self.mended)
    }
}

// A word's cells, and then zeros, into a reader that stores zeros: 2n clocks. (No chain of the cells and zeros: a word of another length gets 2n clocks too.)
fn through(first: Reader, word: &[u8]) -> Reader
    requires { (first.n ≤ 63) × (first ≡ fresh first.n first.g first.rule) }
    ensures { Reached first.n first.g first.rule word.now (first.n + first.n) result }
{
    let mut reader = first;
    for i in 0..2 * first.n {
        reader = reader.clock(word.get(i).copied().unwrap_or(0)).reader;
    }
    reader
}

/// A lent word read by the clocked reader: started, clocked 2n times and asked for its answer. (Its look at the lent cells is that of `lent` in words, which
/// is private there.)
pub fn read(n: usize, g: u64, rule: u64, word: &[u8], message: &mut [u8]) -> Result<u64, Refusal>
    ensures { DecodesCells First n g rule word.now message.old message.new (number result) (value result) }
{
    let first = Reader::start(n, g, rule)?;
    if message.len() != n - poly::degree_of(g) || word.len() != n {
        return Err(Refusal::Lent);
    }
    cells::check(word)?;
    through(first, word).answer(message)
}
