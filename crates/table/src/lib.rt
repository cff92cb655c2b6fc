// The birth table of an arena, in one lent slice of 2 + n + n numbers for n places: the next birth number; how many are alive; the
// order, which is the live places by rising birth number and then 0; and each place's stamp, its birth number + 1, or 0 where it is free.
// Kept (point 5): t and n stay two parameters, since a struct of the two would be made anew from the lent buffer at each call.
// Kept (point 6): the order and the stamps stay in one slice, since all memory is one lent buffer of a fixed size.
#![tactic(auto)]

ghost use Rattle.std.specs.Prelude.{◌≡◌, ◌+◌, ◌-◌, ◌≤◌, ◌<◌, length, get_or};
ghost use Rattle.seqs.specs.Cells.{decoded};
ghost use Rattle.seqs.specs.Seqs.{Says};
ghost use Rattle.table.specs.Table.{Table, Shape, Ordered, Placed, Rested, Rank, Bracket, Born, Ended, Shifted, Started, next, order, stamp, live, find_in};

// The birth number of the thing at the place `p`; none where it is free.
#[inline(always)]
pub fn number_at(t: &[u32], n: usize, p: usize) -> Option<u32>
    requires { Shape n t.now × (p < n) }
    ensures { result ≡ decoded (stamp n t.now p) }
{
    t[2 + n + p].checked_sub(1)
}

// Kept (point 1): the searches for a number and the test of the order compare stamps as they are stored, with 0 below all of them.
// The stamp of the place `p`: its birth number + 1, and 0 where it is free.
#[inline(always)]
fn stamp_at(t: &[u32], n: usize, p: usize) -> usize
    requires { Shape n t.now × (p < n) }
    ensures { result ≡ stamp n t.now p }
{
    t[2 + n + p] as usize
}

// The place of the live thing at index `i` of the order.
#[inline(always)]
pub fn order_at(t: &[u32], n: usize, i: usize) -> usize
    requires { Shape n t.now × (i < n) }
    ensures { result ≡ order t.now i }
{
    t[2 + i] as usize
}

// How many live things have a stamp of at most `x`, known to be from `from` to `to`: by halves.
#[inline(always)]
fn rank_between(t: &[u32], n: usize, x: usize, from: usize, to: usize) -> usize
    requires { Table n t.now × Bracket n t.now x from to }
    ensures { Rank n t.now x result }
{
    from + t[2 + from..2 + to].partition_point(|p| {
        let p = *p as usize;
        p < n && stamp_at(t, n, p) <= x
    })
}

// How many live things have a stamp of at most `x`. Where d numbers have ended, the number `x` can stand only at an index
// from x - d to x, so that few steps are left where few have ended, and none where none has.
#[inline(always)]
fn rank(t: &[u32], n: usize, x: usize) -> usize
    requires { Table n t.now }
    ensures { Rank n t.now x result }
{
    let l = t[1] as usize;
    let d = t[0] as usize - l;
    let from = l.min(x.saturating_sub(d));
    let to = l.min(x);
    rank_between(t, n, x, from, to)
}

// The place of the live thing with this number.
#[inline(always)]
pub fn find(t: &[u32], n: usize, number: u32) -> Option<usize>
    requires { Table n t.now }
    ensures { result ≡ find_in (live n t.now) number }
{
    let k = rank(t, n, number as usize);
    if t[1] as usize <= k {
        return None;
    }
    let p = order_at(t, n, k);
    if stamp_at(t, n, p) == number as usize + 1 {
        Some(p)
    } else {
        None
    }
}

// A thing is born at the free place `p`.
pub fn birth_at(t: &mut [u32], n: usize, p: usize)
    requires { Table n t.old × ((next t.old < 4294967295) × ((p < n) × (stamp n t.old p ≡ 0))) }
    ensures { Born n t.old t.new p }
{
    let l = t[1];
    let m = t[0] + 1;
    t[2 + n + p] = m;
    t[2 + l as usize] = p as u32;
    t[0] = m;
    t[1] = l + 1;
}

// The places of the order from `k + 1` to `l` move down by one. Over a part lent for it, so that the compiler makes it one move of
// memory.
fn close_gap(t: &mut [u32], k: usize, l: usize)
    requires { (k < l) × (2 + l ≤ length t.old) }
    ensures { Shifted k l t.old t.new }
{
    t[2 + k..2 + l].copy_within(1.., 0);
}

// The thing at place `p` ends.
pub fn end(t: &mut [u32], n: usize, p: usize)
    requires { Table n t.old × ((p < n) × (0 < stamp n t.old p)) }
    ensures { Ended n t.old t.new p }
{
    let number = number_at(t, n, p).unwrap();
    let k = rank(t, n, number as usize);
    let l = t[1];
    close_gap(t, k, l as usize);
    t[1 + l as usize] = 0;
    t[2 + n + p] = 0;
    t[1] = l - 1;
}

// Kept (point 2): fill says what the cells hold; this says what zeros mean here, a table where nothing lives, and its callers go by that.
// An empty table.
pub fn start(t: &mut [u32], n: usize)
    requires { (length t.old ≡ 2 + n + n) × (n ≤ 16384) }
    ensures { Started n t.new }
{
    t.fill(0);
}

// Kept (point 3): `all` and `is_sorted_by` over the order (tried, two goals left) read each stamp three times, at every edit; a closure in `all` that
// keeps the last stamp tells a proof nothing.
// Whether the order is one of rising numbers.
fn check_order(t: &[u32], n: usize) -> bool
    requires { Shape n t.now }
    ensures { Says result (Ordered n t.now) }
{
    let mut prev = 0;
    for i in 0..t[1] as usize {
        let q = order_at(t, n, i);
        if n <= q {
            return false;
        }
        let s = stamp_at(t, n, q);
        if s <= prev {
            return false;
        }
        prev = s;
    }
    true
}

// Whether each taken place is in the order: as many are taken as the order has.
fn check_places(t: &[u32], n: usize) -> bool
    requires { Shape n t.now × Ordered n t.now }
    ensures { Says result (Placed n t.now) }
{
    let next = t[0] as usize;
    let mut taken: usize = 0;
    for p in 0..n {
        let s = stamp_at(t, n, p);
        if next < s {
            return false;
        }
        taken += usize::from(s != 0);
    }
    taken == t[1] as usize
}

// Whether the order is 0 past its last.
fn check_rest(t: &[u32], n: usize) -> bool
    requires { Shape n t.now }
    ensures { Says result (Rested n t.now) }
{
    let l = t[1] as usize;
    t[2 + l..2 + n].iter().all(|q| *q == 0)
}

// Whether the slice holds a table.
pub fn check_table(t: &[u32], n: usize) -> bool
    ensures { Says result (Table n t.now) }
{
    n <= 16384
        && t.len() == 2 + n + n
        && t[1] as usize <= n
        && check_order(t, n)
        && check_rest(t, n)
        && check_places(t, n)
}
