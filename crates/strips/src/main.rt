// Reads records from standard input to its end, and prints their lines.
#![tactic(auto)]

ghost use Rattle.std.specs.Prelude.{◌≡◌, ◌%◌, ◌≤◌, MatchResult, length};
ghost use Rattle.records.specs.Records.{Room};

use std::io::Read;
use std::ops::ControlFlow;

// Reads until the block is full, the input ends or a read fails, which is an `Err`, and hands back how many bytes were read. Records may be split across
// reads. (No `read_exact`: where that fails, it does not say how much was read.)
fn fill(input: &mut impl Read, block: &mut [u8]) -> Result<usize, usize>
    ensures { MatchResult result (λ n. n ≤ length block.old) (λ n. n ≤ length block.old) }
{
    let mut n = 0;
    while n < block.len() {
        match input.read(&mut block[n..]) {
            Ok(0) => return Ok(n),
            Ok(more) => n += more,
            Err(_) => return Err(n),
        }
    }
    Ok(n)
}

// Says on standard error what failed; no block follows.
fn stop(rt: &impl Eprint, message: &str) -> ControlFlow<()> {
    let _ = rt.eprintln(message);
    ControlFlow::Break(())
}

// Writes the lines of the records.
fn print(rt: &(impl Print + Eprint), records: &[u8], out: &mut [u8]) -> ControlFlow<()>
    requires { Room records.now out.old }
{
    let end = records::lines(records, out);
    match rt.write_all(&out[..end]) {
        Ok(()) => ControlFlow::Continue(()),
        Err(_) => stop(rt, "strips: standard output cannot be written"),
    }
}

// One block of whole records; goes on after a full one. What is left over before a read that fails is no remainder of the input.
fn one_block(
    rt: &(impl Print + Eprint),
    input: &mut impl Read,
    block: &mut [u8],
    out: &mut [u8],
) -> ControlFlow<()>
    requires { Room block.old out.old × (length block.old % 16 ≡ 0) }
{
    match fill(input, block) {
        Ok(n) => {
            print(rt, &block[..n], out)?;
            if n < block.len() {
                return ControlFlow::Break(());
            }
            ControlFlow::Continue(())
        }
        Err(n) => {
            let _ = print(rt, &block[..n - n % 16], out);
            stop(rt, "strips: standard input cannot be read")
        }
    }
}

// A block of zeros: fixed memory, however long the input is. The clause gives the check its length.
fn zeros<const N: usize>() -> [u8; N]
    ensures { N ≡ length result }
{
    [0; N]
}

// Block after block: 16,384 records, and what their lines may take. The loop ends with the input; that it ends at all is proved by a count of blocks, far
// above any input there is.
fn main(rt: HostRuntime) {
    let mut input = rt.stdin();
    let mut block = zeros::<262144>();
    let mut out = zeros::<1048640>();
    for _ in 0..=u64::MAX {
        if one_block(&rt, &mut input, &mut block, &mut out).is_break() {
            return;
        }
    }
    let _ = rt.eprintln("strips: there is more input than it can count");
}
