// Replays recorded scripts: standard input is a sequence of entries, each a script and what the published Rust's listing of it
// is (differential/README.md has the form). Prints how many entries there are and how many differ.
#![tactic(auto)]

ghost use Rattle.std.specs.Prelude.{◌≡◌};
ghost use Rattle.seqs.specs.Seqs.{Says};
ghost use Rattle.rules.specs.Listing.{output};

use program::{MOST_OUTPUT, MOST_READ};
use unbuffered::Unbuffered;

// Whether the program prints just this for the script. Compiled by itself: its buffer is then cleared once for each script.
#[inline(never)]
fn prints(script: &[u8], want: &[u8]) -> bool
    ensures { Says result (output script.now ≡ want.now) }
{
    let mut out = [0u8; MOST_OUTPUT];
    let n = program::print(script, &mut out);
    &out[..n] == want
}

// The next `n` bytes of standard input, in front of `buf`; none where there are not so many, or no room for them.
fn read_front(buf: &mut [u8], n: usize) -> Option<&[u8]> {
    if buf.len() < n {
        return None;
    }
    let front = &mut buf[..n];
    if io::read_full(0, front) == n {
        Some(front)
    } else {
        None
    }
}

// The number that the next `n` bytes have, at most four, the lowest first.
fn next_number(n: usize) -> Option<usize> {
    let mut b = [0u8; 4];
    read_front(&mut b, n)?;
    Some(u32::from_le_bytes(b) as usize)
}

// Whether the program prints for the script, of `n` bytes, what follows it; none where either is longer than it may be, or the
// input ends before it.
fn compare(n: usize) -> Option<bool> {
    let mut buf = [0u8; MOST_READ];
    let script = read_front(&mut buf, n)?;
    let m = next_number(4)?;
    let mut out = [0u8; MOST_OUTPUT];
    let want = read_front(&mut out, m)?;
    Some(prints(script, want))
}

// Whether the next entry, a script behind its length, and what must be printed behind its own, is as it must be; none at the end.
fn replay_entry() -> Option<bool> {
    let n = next_number(2)?;
    Some(compare(n).unwrap_or(false))
}

fn run(rt: HostRuntime) -> std::io::Result<()> {
    let mut scripts: u64 = 0;
    let mut differ: u64 = 0;
    for _i in 0..100000u64 {
        let Some(same) = replay_entry() else {
            break;
        };
        scripts += 1;
        differ += u64::from(!same);
    }
    print!(Unbuffered(&rt); "{scripts} scripts, {differ} differ\n")
}

// Output that cannot be written is no failure: the program ends silently, with status 0.
fn main(rt: HostRuntime) {
    let _ = run(rt);
}
