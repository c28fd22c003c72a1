// Bytes and numbers in decimal, written into a lent slice at a place.
#![tactic(auto)]

ghost use Rattle.std.specs.Prelude.{◌+◌, ◌≤◌, ◌≡◌, leb, length};
ghost use Rattle.text.specs.Text.{decimal, written, Puts};
ghost use Rattle.text.specs.Lowest.{lowest};

/// Writes the text `bytes` into the slice from place `at` on and hands back the place after it. If it does not fit, nothing is written and `at` is handed back.
pub fn put_bytes(out: &mut [u8], at: usize, bytes: &[u8]) -> usize
    ensures { Puts bytes.now out.old at out.new result }
{
    if !has_room(out.len(), at, bytes.len()) {
        return at;
    }
    out[at..at + bytes.len()].copy_from_slice(bytes);
    at + bytes.len()
}

// The four lowest digits of v, from place `at` on.
fn put_four(out: &mut [u8], at: usize, v: u64)
    requires { at + 4 ≤ length out.old }
    ensures { out.new ≡ written (lowest 4 v) out.old at }
{
    let w = v % 10000;
    out[at..at + 4].copy_from_slice(&[
        b'0' + (w / 1000) as u8,
        b'0' + (w / 100 % 10) as u8,
        b'0' + (w / 10 % 10) as u8,
        b'0' + (w % 10) as u8,
    ]);
}

/// Writes the number in decimal, with no leading zeros and 0 as `0`, as `put_bytes` writes a text. The digits go straight to their places, from the last to the
/// first. (Four at a time while there are more than four: one at a time costs 6 percent more of a record's instructions. The place goes by hand, since how
/// many turns there are depends on the value.)
pub fn put_number(out: &mut [u8], at: usize, value: u64) -> usize
    ensures { Puts (decimal value) out.old at out.new result }
{
    let digits = count_digits(value);
    if !has_room(out.len(), at, digits) {
        return at;
    }
    let end = at + digits;
    let mut i = end;
    let mut v = value;
    while 10000 <= v {
        i -= 4;
        put_four(out, i, v);
        v /= 10000;
    }
    while 10 <= v {
        i -= 1;
        out[i] = b'0' + (v % 10) as u8;
        v /= 10;
    }
    out[at] = b'0' + v as u8;
    end
}

// How many digits the number has; 0 has one, as 1 has.
fn count_digits(value: u64) -> usize
    ensures { result ≡ length (decimal value) }
{
    value.max(1).ilog10() as usize + 1
}

// Whether `count` bytes from place `at` on lie in a slice of `len` bytes.
fn has_room(len: usize, at: usize, count: usize) -> bool
    ensures { result ≡ leb (at + count) len }
{
    at <= len && count <= len - at
}
