// Lent cells and the numbers they stand for: the first cell is the highest power.
#![tactic(auto)]

ghost use Rattle.std.specs.Prelude.{◌≡◌, ◌≤◌, length, MatchResult};
ghost use Rattle.poly.specs.Cells.{Cells, poly, cells};
ghost use Rattle.verdict.specs.Verdict.{Where};
ghost use Rattle.verdict.specs.declared.Refusal.TheVariants.{Cell};
ghost use Rattle.cells.specs.Lent.{FirstBad};

use verdict::Refusal;

/// The place of the first cell that is not 0 or 1, and the length where each is. (The length and no Option: a leaf takes anything, docs/DECISIONS.md.)
pub fn first_bad(word: &[u8]) -> usize
    ensures { FirstBad word.now result }
{
    word.iter().position(|&c| 1 < c).unwrap_or(word.len())
}

/// The check of number 7: each cell is 0 or 1.
pub fn check(word: &[u8]) -> Result<(), Refusal>
    ensures { MatchResult result (λ _. Cells word.now) (λ e. (e ≡ Cell) × (Cells word.now → ⊥)) }
{
    if first_bad(word) < word.len() {
        return Err(Refusal::Cell);
    }
    Ok(())
}

/// The number that at most 63 cells stand for; 0 where there are more, or where one is not 0 or 1. (0 and no Option: a leaf takes anything, docs/DECISIONS.md.)
pub fn number_of(word: &[u8]) -> u64
    ensures { Where ((length word.now ≤ 63) × Cells word.now) (result ≡ poly word.now) (result ≡ 0) }
{
    if 63 < word.len() || first_bad(word) < word.len() {
        return 0;
    }
    let mut p: u64 = 0;
    for &c in word {
        p = p * 2 + u64::from(c);
    }
    p
}

/// The low digits of a number as cells, as many as are lent. (By places: after `iter_mut().rev()` nothing is known of the cells.)
pub fn write_number(word: &mut [u8], p: u64)
    ensures { word.new ≡ cells (length word.old) p }
{
    let mut rest = p;
    for i in (0..word.len()).rev() {
        word[i] = (rest % 2) as u8;
        rest /= 2;
    }
}
