// An arena of n places, 1 to 16,384, in one lent slice of 2 + n + n + 2 * ceil(n / 64) numbers: the birth table (next birth number,
// live count, live places by rising number, stamps), and then the occupancy map. A thing is born at the lowest free place, gets the
// next birth number, which no other thing ever has, and is found by it. Ported from `Arena` and the counters of
// context.rs of pliron 0.20.0 (Apache-2.0).
// Kept (point 5): m and n stay two parameters, since a struct of the two would be made anew from the lent buffer at each call.
// Kept (point 6): the table and the map stay in one slice, since all memory is one lent buffer of a fixed size.
#![tactic(auto)]

ghost use Rattle.std.specs.Prelude.{◌≡◌, ◌+◌, ◌-◌, ◌*◌, ◌≤◌, ◌<◌, length, get_or};
ghost use Rattle.arena.specs.Packed.{Packed, Alive, Bore, Gone, Fresh, Agree, Spare, front, cells, words};
ghost use Rattle.bits.specs.Map.{lowest};
ghost use Rattle.table.specs.Table.{Table, next, count, stamp, live, find_in};
ghost use Rattle.seqs.specs.Seqs.{Says};
ghost use Rattle.seqs.specs.Entries.{lookup, places};

// How many cells the table has: the map starts after them.
#[inline(always)]
pub fn front_len(n: usize) -> usize
    requires { n ≤ 16384 }
    ensures { result ≡ cells n }
{
    2 + n + n
}

// How many cells an arena of `n` places has: its table's, and two for each 64 places of the map. By a shift and not `div_ceil`, since a
// look-up works out several sizes.
#[inline(always)]
pub fn size(n: usize) -> usize
    requires { n ≤ 16384 }
    ensures { result ≡ cells n + words n }
{
    front_len(n) + (n + 63) / 64 * 2
}

// The place of the live thing with this number; nothing where it has ended or was never born.
#[inline(always)]
pub fn find(m: &[u32], n: usize, number: u32) -> Option<usize>
    requires { Packed n m.now }
    ensures { result ≡ find_in (live n (front n m.now)) number }
{
    table::find(&m[..front_len(n)], n, number)
}

// The lowest free place.
fn free_place(m: &[u32], n: usize) -> Option<usize>
    requires { Packed n m.now }
    ensures { result ≡ lowest (stamp n (front n m.now)) n }
{
    bits::lowest_free(&m[front_len(n)..], n)
}

// A thing is born at the lowest free place, which is handed back, and gets the next birth number.
pub fn birth(m: &mut [u32], n: usize) -> usize
    requires { Packed n m.old × ((count (front n m.old) < n) × (next (front n m.old) < 4294967295)) }
    ensures { Bore n m.old m.new result }
{
    let place = free_place(m, n).unwrap();
    let (births, marks) = m.split_at_mut(front_len(n));
    table::birth_at(births, n, place);
    bits::flip(marks, place);
    place
}

// The thing at place `p` ends: its place is free again, and its number is never given again.
pub fn end(m: &mut [u32], n: usize, p: usize)
    requires { Packed n m.old × ((p < n) × (0 < stamp n (front n m.old) p)) }
    ensures { Gone n m.old m.new p }
{
    let (births, marks) = m.split_at_mut(front_len(n));
    table::end(births, n, p);
    bits::flip(marks, p);
}

// An empty arena, whatever the slice held.
pub fn start(m: &mut [u32], n: usize)
    requires { (length m.old ≡ cells n + words n) × (n ≤ 16384) }
    ensures { Fresh n m.new }
{
    let (births, marks) = m.split_at_mut(front_len(n));
    table::start(births, n);
    bits::clear(marks);
}

// Whether each place's mark says whether it is taken.
fn check_marks(t: &[u32], b: &[u32], n: usize) -> bool
    requires { Table n t.now × (n ≤ 32 * length b.now) }
    ensures { Says result (Agree n t.now b.now) }
{
    (0..n).all(|p| bits::mark(b, p) == table::number_at(t, n, p).is_some())
}

// Whether no place from `n` on is marked.
fn check_spare(b: &[u32], n: usize) -> bool
    requires { (length b.now ≤ 1048576) × (n ≤ 32 * length b.now) }
    ensures { Says result (Spare n b.now) }
{
    (n..32 * b.len()).all(|p| !bits::mark(b, p))
}

// Whether the slice holds an arena of n places: exact on any contents and any length.
pub fn check(m: &[u32], n: usize) -> bool
    ensures { Says result (Packed n m.now) }
{
    if 16384 < n {
        return false;
    }
    let front = front_len(n);
    m.len() == size(n)
        && table::check_table(&m[..front], n)
        && check_spare(&m[front..], n)
        && check_marks(&m[..front], &m[front..], n)
}

// How many things live.
#[inline(always)]
pub fn taken(m: &[u32], n: usize) -> usize
    requires { Packed n m.now }
    ensures { result ≡ count (front n m.now) }
{
    m[1] as usize
}

// The next birth number.
#[inline(always)]
pub fn upcoming(m: &[u32], n: usize) -> u32
    requires { Packed n m.now }
    ensures { result ≡ next (front n m.now) }
{
    m[0]
}

// Whether a thing lives at place `p`.
#[inline(always)]
pub fn is_live(m: &[u32], n: usize, p: usize) -> bool
    requires { Packed n m.now }
    ensures { Says result (Alive n m.now p) }
{
    p < n && table::number_at(&m[..front_len(n)], n, p).is_some()
}

// The birth number of the thing at place `p`.
#[inline(always)]
pub fn number_at(m: &[u32], n: usize, p: usize) -> u32
    requires { Packed n m.now × Alive n m.now p }
    ensures { result ≡ lookup (live n (front n m.now)) p }
{
    table::number_at(&m[..front_len(n)], n, p).unwrap()
}

// The place of the `k`-th thing alive, by rising birth number.
#[inline(always)]
pub fn nth_live(m: &[u32], n: usize, k: usize) -> usize
    requires { Packed n m.now × (k < count (front n m.now)) }
    ensures { result ≡ get_or (places (live n (front n m.now))) k 0 }
{
    table::order_at(&m[..front_len(n)], n, k)
}
