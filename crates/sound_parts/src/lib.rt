// The check of a whole store, over its parts.
#![tactic(auto)]

pub mod parts; // parts.rt

ghost use Rattle.std.specs.Prelude.{◌≡◌, ◌↔◌, ℕ, ◌+◌, ◌*◌, ◌≤◌, ◌<◌, IsTrue, length, get_or, slice_get};
ghost use Rattle.seqs.specs.Seqs.{Says};
ghost use Rattle.table.specs.Table.{count};
ghost use Rattle.seqs.specs.Cells.{code};
ghost use Rattle.linked_list.specs.Links.{home, row};
ghost use Rattle.sound_parts.specs.Tests.{Sized, IsLive, LivesInOne, HomesFoundIn, MustIn, ShortIn, FlagsOf, UseIn, SlotsIn, AroundIn, climb_in, OutsideIn, ClimbsIn, PlacedIn, UsesFit, ValuesFit, RegionsFit, NestFits};

use edit::MOST_LISTED;
use linked_list::Nodes;
pub use parts::{Births, Nest, Rows};

// The greatest flags of an operation: two bits.
const MOST_FLAGS: u32 = 3;

impl<'a> Births<'a> {
    // Whether a thing lives at the place p.
    fn is_live(&self, p: usize) -> bool
        requires p_lt_places { p < self.now.places }
        ensures { IsTrue result ↔ IsLive self.now p }
    {
        table::number_at(self.words, self.places, p).is_some()
    }
}

impl<'a> Rows<'a> {
    // The container whose list has the node q.
    fn home(&self, q: usize) -> Option<usize>
        requires q_lt_nn { q < self.now.lists.nn }
        ensures { (code result ≡ get_or self.now.words.now (home self.now.lists.nc self.now.lists.nn q) 0) × (code result ≤ self.now.lists.nc) }
    {
        self.lists.get_container(self.words, q)
    }

    // The first node of the list c.
    fn first(&self, c: usize) -> Option<usize>
        requires c_lt_nc { c < self.now.lists.nc }
        ensures { result ≡ slice_get (row self.now.lists.nc self.now.lists.nn self.now.words.now c) 0 }
    {
        self.lists.get_head(self.words, c)
    }

    // The nodes of the list c, in order.
    fn list(&self, c: usize) -> Nodes<'_>
        requires c_lt_nc { c < self.now.lists.nc }
        ensures { result ≡ row self.now.lists.nc self.now.lists.nn self.now.words.now c }
    {
        self.lists.iter(self.words, c)
    }

    // How long the list c is.
    fn count(&self, c: usize) -> usize
        requires c_lt_nc { c < self.now.lists.nc }
        ensures { result ≡ length (row self.now.lists.nc self.now.lists.nn self.now.words.now c) }
    {
        self.lists.count(self.words, c)
    }
}

impl<'a> Nest<'a> {
    // The operation around the operation p: its block's region's.
    fn around(&self, p: usize) -> Option<usize>
        requires p_lt_o { p < self.now.ops.nodes.places }
        ensures within { code result ≤ self.now.ops.nodes.places }
        ensures around { AroundIn self.now p (code result) }
    {
        let b = self.ops.home(p)?;
        let r = self.blocks.home(b)?;
        self.regions.home(r)
    }

    // Whether climbing from the operation p, from operation to operation around it, ends within n of them.
    fn climbs(&self, n: usize, p: usize) -> bool
        requires p_lt_o { p < self.now.ops.nodes.places }
        ensures { result ≡ climb_in self.now n p }
    {
        if n == 0 {
            return false;
        }
        match self.around(p) {
            None => true,
            Some(q) => self.climbs(n - 1, q),
        }
    }

    // Whether the operation p is outside of itself: one without a region has nothing inside.
    fn is_outside_itself(&self, n: usize, p: usize) -> bool
        requires p_lt_o { p < self.now.ops.nodes.places }
        ensures { Says result (OutsideIn self.now n p) }
    {
        self.regions.first(p).is_none() || self.climbs(n, p)
    }
}

// Whether the thing k lives, where the first are those of one kind, and the others those of another.
fn lives_in(first: &Births, second: &Births, k: usize) -> bool
    requires k_bound { k < first.now.places + second.now.places }
    ensures { Says result (LivesInOne first.now second.now k) }
{
    if k < first.places {
        first.is_live(k)
    } else {
        second.is_live(k - first.places)
    }
}

// Kept (point 3): as `(0..n).all(..)` (tried) the closure that calls `has` needs clauses and a proof of its own, longer than this loop.
// Whether each node in a list lives, and so does what has the list: `has` says which of those do.
fn check_homes<H: Fn(usize) -> bool>(rows: &Rows, has: H) -> bool
    requires { (k : ℕ) → k < rows.now.lists.nc → H.pre has k }
    ensures { HomesFoundIn rows.now (H.post has) result }
{
    for q in 0..rows.nodes.places {
        if let Some(k) = rows.home(q) {
            if !rows.nodes.is_live(q) || !has(k) {
                return false;
            }
        }
    }
    true
}

// Whether each live node stands in a list.
fn check_must(rows: &Rows) -> bool
    ensures { Says result (MustIn rows.now) }
{
    (0..rows.nodes.places).all(|q| !rows.nodes.is_live(q) || rows.home(q).is_some())
}

// Whether no list has more than 64 nodes.
fn check_short(rows: &Rows) -> bool
    ensures { Says result (ShortIn rows.now) }
{
    (0..rows.lists.nc).all(|c| rows.count(c) <= MOST_LISTED)
}

// Whether each live node stands in a list, and no list has more than 64.
fn check_listed(rows: &Rows) -> bool
    ensures { Says result (MustIn rows.now × ShortIn rows.now) }
{
    check_must(rows) && check_short(rows)
}

// Whether no flags of a live operation are over the most.
fn check_flags(ops: &Births, flags: &[u32]) -> bool
    requires { length flags.now ≡ ops.now.places }
    ensures { Says result (FlagsOf ops.now flags.now) }
{
    (0..ops.places).all(|p| !ops.is_live(p) || flags[p] <= MOST_FLAGS)
}

// Kept (point 1): the lists of slots are the numbers 2 * p and 2 * p + 1, and `UseAt` and `Slots` are said of such a number, which the loop runs over.
// Whether the use x of the list c of slots lives, and its operation, and is held by a definition of the right kind: the first are
// values, and the others blocks.
fn use_at(ops: &Births, values: usize, sets: &Rows, c: usize, x: usize) -> bool
    requires { (c < 2 * ops.now.places) × (x < sets.now.nodes.places) }
    ensures { Says result (UseIn ops.now values sets.now c x) }
{
    sets.nodes.is_live(x)
        && ops.is_live(c / 2)
        && sets
            .home(x)
            .is_some_and(|d| if c % 2 == 0 { d < values } else { d >= values })
}

// Kept (point 3): the project asks for nested loops, left by a label at the first fault.
// Operations, their two lists of slots, and the uses there: the first fault found ends the search.
fn check_slots(ops: &Births, values: usize, slots: &Rows, sets: &Rows) -> bool
    requires slots_sized { Sized slots.now.lists (2 * ops.now.places) sets.now.nodes.places }
    ensures { Says result (SlotsIn ops.now values slots.now sets.now) }
{
    let mut ok = true;
    'search: for p in 0..ops.places {
        for c in 2 * p..2 * p + 2 {
            for (j, x) in slots.list(c).enumerate() {
                if j >= MOST_LISTED || !use_at(ops, values, sets, c, x) {
                    ok = false;
                    break 'search;
                }
            }
        }
    }
    ok
}

// The uses: each stands in one slot of a live operation and is held by one live definition, and no other is live or held.
pub fn check_uses(ops: &Births, blocks: &Births, values: &Births, slots: &Rows, sets: &Rows) -> bool
    requires slots_sized { slots.now.lists.nc ≡ 2 * ops.now.places }
    requires sets_sized { sets.now.lists.nc ≡ values.now.places + blocks.now.places }
    requires same_uses { (slots.now.nodes.places ≡ sets.now.nodes.places) × (slots.now.nodes.words.now ≡ sets.now.nodes.words.now) }
    ensures { Says result (UsesFit ops.now blocks.now values.now slots.now sets.now) }
{
    check_slots(ops, values.places, slots, sets)
        && check_must(slots)
        && check_homes(sets, |d| lives_in(values, blocks, d))
}

// The values: each is the result of a live operation or the argument of a live block.
pub fn check_values(ops: &Births, blocks: &Births, values: &Rows) -> bool
    requires values_sized { values.now.lists.nc ≡ ops.now.places + blocks.now.places }
    ensures { Says result (ValuesFit ops.now blocks.now values.now) }
{
    check_homes(values, |k| lives_in(ops, blocks, k)) && check_listed(values)
}

// The regions: each stands in one list of one live operation, and no list has more than 64.
fn check_regions(nest: &Nest) -> bool
    ensures { Says result (RegionsFit nest.now) }
{
    check_homes(&nest.regions, |k| nest.ops.nodes.is_live(k)) && check_listed(&nest.regions)
}

// Whether the operations and the blocks in lists live, and so do the blocks and the regions that have these.
fn check_placed(nest: &Nest) -> bool
    ensures { Says result (PlacedIn nest.now) }
{
    check_homes(&nest.ops, |k| nest.blocks.nodes.is_live(k))
        && check_homes(&nest.blocks, |k| nest.regions.nodes.is_live(k))
}

// Whether each live operation with a region is in no region of its own, however deep.
fn check_climbs(nest: &Nest, n: usize) -> bool
    ensures { Says result (ClimbsIn nest.now n) }
{
    (0..nest.ops.nodes.places).all(|p| !nest.ops.nodes.is_live(p) || nest.is_outside_itself(n, p))
}

// Operations, blocks and regions: only live things are linked, each region has its operation, and nothing lies inside itself. n is how
// many operations live: a climb that does not end within as many meets one twice.
pub fn check_nest(nest: &Nest, flags: &[u32], n: usize) -> bool
    requires flags_len { length flags.now ≡ nest.now.ops.nodes.places }
    requires alive { n ≡ count nest.now.ops.nodes.words.now }
    ensures { Says result (NestFits nest.now flags.now) }
{
    check_regions(nest)
        && check_placed(nest)
        && check_flags(&nest.ops.nodes, flags)
        && check_climbs(nest, n)
}
