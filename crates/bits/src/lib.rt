// An occupancy map in one lent slice: place p is bit p % 64 of the 64-bit word p / 64. A word is two numbers of 32 bits, the low half
// first, so that p is also bit p % 32 of the number p / 32. A set bit says that the place is taken.
#![tactic(auto)]

ghost use Rattle.std.specs.Prelude.{◌≡◌, ◌+◌, ◌*◌, ◌/◌, ◌%◌, ◌≤◌, ◌<◌, ◌↔◌, IsTrue, length, get_or};
ghost use Rattle.bits.specs.Map.{bit, lowest, Ones, Full, Opens, Skipped, Flipped, Cleared};

// Two cells, from `k` on, as one word of 64 bits.
#[inline(always)]
fn word(b: &[u32], k: usize) -> u64
    requires { k + 1 < length b.now }
    ensures { result ≡ get_or b.now (k + 1) 0 * 4294967296 + get_or b.now k 0 }
{
    u64::from(b[k + 1]) * 4294967296 + u64::from(b[k])
}

// Kept (point 2): the count of the zeros of a complement does not say by itself that it names the first place free of the word.
// How many of the lowest bits of `w` are set.
#[inline(always)]
fn ones(w: u64) -> u32
    ensures { Ones w result }
{
    u64::trailing_zeros(!w)
}

// Whether every place of these cells is marked. The cells' bits in common are taken first, so that there is one test for all.
#[inline(always)]
fn is_full(cells: &[u32]) -> bool
    ensures { IsTrue result ↔ Full cells.now }
{
    cells.iter().fold(u32::MAX, |common, cell| common & cell) == u32::MAX
}

// The first whole group of `SIZE` cells where a place is not marked.
fn first_open<const SIZE: usize>(b: &[u32]) -> Option<usize>
    requires { 0 < SIZE }
    ensures { Opens SIZE b.now result }
{
    b.chunks_exact(SIZE).position(|cells| !is_full(cells))
}

// A cell below which every place is marked: full words are passed eight at a time, and the rest is left to the search by words.
fn skip_full(b: &[u32]) -> usize
    requires { length b.now ≤ 1048576 }
    ensures { Skipped b.now result }
{
    match first_open::<16>(b) {
        Some(i) => 16 * i,
        None => b.len() - b.len() % 16,
    }
}

// The lowest place below `n` that is not marked, a word at a time.
pub fn lowest_free(b: &[u32], n: usize) -> Option<usize>
    requires { (length b.now % 2 ≡ 0) × ((n ≤ 32 * length b.now) × (length b.now ≤ 1048576)) }
    ensures { result ≡ lowest (bit b.now) n }
{
    let from = skip_full(b);
    let k = from + 2 * first_open::<2>(&b[from..])?;
    let p = 32 * k + ones(word(b, k)) as usize;
    if p < n { Some(p) } else { None }
}

// Marks place `p`, or takes the mark away.
#[inline(always)]
pub fn flip(b: &mut [u32], p: usize)
    requires { p < 32 * length b.old }
    ensures { Flipped b.old b.new p }
{
    b[p / 32] ^= 1 << (p % 32);
}

// Whether place `p` is marked.
#[inline(always)]
pub fn mark(b: &[u32], p: usize) -> bool
    requires { p < 32 * length b.now }
    ensures { IsTrue result ↔ (bit b.now p ≡ 1) }
{
    (b[p / 32] >> (p % 32)) % 2 == 1
}

// Kept (point 2): fill says what the cells hold; this says what zeros mean here, no place marked, and its callers go by that.
// No place is marked.
pub fn clear(b: &mut [u32])
    ensures { Cleared b.old b.new }
{
    b.fill(0);
}
