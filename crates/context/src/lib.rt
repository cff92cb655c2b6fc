// The store in one lent memory: its layout, start, tables, look-ups and the check of its parts. The parts are lent to the lower crates.
// After context.rs of pliron 0.20.0 (Apache-2.0); the modules are after the files that they are named after.
#![tactic(auto)]

pub mod view; // view.rt: a sound store lent to readers
pub mod lists; // lists.rt: nodes enter and leave lists
pub mod value; // value.rt: values and uses
pub mod operation; // operation.rt
pub mod basic_block; // basic_block.rt
pub mod region; // region.rt

ghost use Rattle.std.specs.Prelude.{◌≡◌, ◌≤◌, ◌<◌, length};
ghost use Rattle.edit.specs.Kinds.{number_of, slot_of, member_of};
ghost use Rattle.linked_list.specs.Links.{Sizes};
ghost use Rattle.places.specs.Store.{Live, op, val, slots, use_sets, vals};
ghost use Rattle.places.specs.Roles.{missing_code, slot_role, def_kind, def_role, value_role, member_kind};
ghost use Rattle.context.specs.Kinds.{kind_of, fam_of, IsNested, IsMember, IsMemberFamily, IsInnerFamily, IsNode};
ghost use Rattle.context.specs.Layout.{cap_of, nc_of, nn_of, total, Caps, TableAt, FamilyAt, FamiliesAt, SpanOf, RoomOf, TagsAt, TotalIs, HasTag};
ghost use Rattle.context.specs.Memory.{con, ListIs, state_of, Well, RoomFor, Borne, Finished, Finds, HomeIs, LengthIs, RoomIs, GrowIs, FirstIs};
ghost use Rattle.context.specs.Reading.{list_of, NextIs, LastIs, NthIs, NumberIs, LiveIs, NextNumberIs, NthLiveIs};
ghost use Rattle.context.specs.Steps.{Started};
ghost use Rattle.context.specs.Start.{StartIs, WordsNeeded};
ghost use Rattle.context.specs.Checked.{Headed, Fits, TableOk, FamilyOk, TablesOk, FamiliesOk, SpareAt, SpareIn, SpareOk};
ghost use Rattle.arena.specs.Packed.{Packed};
ghost use Rattle.seqs.specs.Seqs.{Says};

use edit::{MOST_LISTED, Member, Nested, Refusal, Slot};
use linked_list::Lists;

// What lives in a store.
#[derive(Clone, Copy, PartialEq, Eq)]
pub enum Kind {
    Operation,
    Block,
    Region,
    Value,
    Use,
}

impl From<Nested> for Kind {
    ghost from_gives = { IsNested };

    #[inline(always)]
    fn from(n: Nested) -> Kind {
        match n {
            Nested::Operation => Kind::Operation,
            Nested::Block => Kind::Block,
            Nested::Region => Kind::Region,
        }
    }
}

impl From<Member> for Kind {
    ghost from_gives = { IsMember };

    #[inline(always)]
    fn from(w: Member) -> Kind {
        match w {
            Member::Operation => Kind::Operation,
            Member::Block => Kind::Block,
        }
    }
}

// The families of lists: the uses in the slots of operations, the uses of definitions, results and arguments, the regions of
// operations, the operations of blocks, the blocks of regions.
#[derive(Clone, Copy, PartialEq, Eq)]
pub enum Family {
    Slots,
    UseSets,
    Values,
    Regions,
    Operations,
    Blocks,
}

impl From<Member> for Family {
    ghost from_gives = { IsMemberFamily };

    #[inline(always)]
    fn from(w: Member) -> Family {
        match w {
            Member::Operation => Family::Operations,
            Member::Block => Family::Blocks,
        }
    }
}

impl From<Nested> for Family {
    ghost from_gives = { IsInnerFamily };

    // The family of what lies in a thing.
    #[inline(always)]
    fn from(n: Nested) -> Family {
        match n {
            Nested::Operation => Family::Regions,
            Nested::Block => Family::Operations,
            Nested::Region => Family::Blocks,
        }
    }
}

// The kind of what stands in the lists of a family.
impl From<Family> for Kind {
    ghost from_gives = { IsNode };

    #[inline(always)]
    fn from(f: Family) -> Kind {
        match f {
            Family::Slots | Family::UseSets => Kind::Use,
            Family::Values => Kind::Value,
            Family::Regions => Kind::Region,
            Family::Operations => Kind::Operation,
            Family::Blocks => Kind::Block,
        }
    }
}

// A thing with an inside, by its kind and its place.
#[derive(Clone, Copy, PartialEq, Eq)]
pub struct Thing {
    pub kind: Nested,
    pub place: usize,
}

// Kept (point 5): readers take a `View`; the edits keep words and layout as two parameters, since a struct lent by &mut could come back with other ones: each contract would deny it, each proof rewrite by that (tried: those of values and dropping grew by half).
// The capacities of the five tables.
#[repr(C)]
#[derive(Clone, Copy)]
pub struct Layout {
    pub ops: usize,
    pub blocks: usize,
    pub regions: usize,
    pub values: usize,
    pub uses: usize,
}

// Where a table stands, up to its end, and how many places it has.
#[derive(Clone, Copy)]
pub struct Table {
    pub at: usize,
    pub end: usize,
    pub places: usize,
}

// Where a family of lists stands, up to its end, and its sizes.
#[derive(Clone, Copy)]
pub struct Span {
    pub at: usize,
    pub end: usize,
    pub lists: Lists,
}

// The table of `n` places that starts at `at`.
#[inline(always)]
fn table_at(at: usize, n: usize) -> Table
    requires { (at ≤ 600000) × (n ≤ 16384) }
    ensures { TableAt at n result }
{
    Table {
        at,
        end: at + arena::size(n),
        places: n,
    }
}

// Where the table of a kind stands: each starts where the one before it ends. No size is worked out that is not needed.
#[inline]
pub fn table_span(l: Layout, k: Kind) -> Table
    requires { Caps l }
    ensures { RoomOf l (kind_of k) result }
{
    let ops = table_at(5, l.ops);
    if let Kind::Operation = k {
        return ops;
    }
    let blocks = table_at(ops.end, l.blocks);
    if let Kind::Block = k {
        return blocks;
    }
    let regions = table_at(blocks.end, l.regions);
    if let Kind::Region = k {
        return regions;
    }
    let values = table_at(regions.end, l.values);
    if let Kind::Value = k {
        return values;
    }
    table_at(values.end, l.uses)
}

// Where the families start: past the header and the five tables.
#[inline(always)]
fn families_at(l: Layout) -> usize
    requires { Caps l }
    ensures { FamiliesAt l result }
{
    table_span(l, Kind::Use).end
}

// The family of nc lists and nn nodes that starts at `at`.
#[inline(always)]
fn family_at(at: usize, nc: usize, nn: usize) -> Span
    requires small { at ≤ 600000 }
    requires sizes { Sizes nc nn }
    ensures { FamilyAt at nc nn result }
{
    Span {
        at,
        end: at + 2 * nc + 3 * nn,
        lists: Lists { nc, nn },
    }
}

// Where a family stands, likewise.
#[inline]
pub fn family_span(l: Layout, f: Family) -> Span
    requires { Caps l }
    ensures { SpanOf l (fam_of f) result }
{
    let slots = family_at(families_at(l), 2 * l.ops, l.uses);
    if let Family::Slots = f {
        return slots;
    }
    let use_sets = family_at(slots.end, l.values + l.blocks, l.uses);
    if let Family::UseSets = f {
        return use_sets;
    }
    let values = family_at(use_sets.end, l.ops + l.blocks, l.values);
    if let Family::Values = f {
        return values;
    }
    let regions = family_at(values.end, l.ops, l.regions);
    if let Family::Regions = f {
        return regions;
    }
    let operations = family_at(regions.end, l.blocks, l.ops);
    if let Family::Operations = f {
        return operations;
    }
    family_at(operations.end, l.regions, l.blocks)
}

// The kind of what the uses in a slot are uses of.
#[inline(always)]
pub fn definition_kind(slot: Slot) -> Kind
    ensures { kind_of result ≡ def_kind (slot_of slot) }
{
    match slot {
        Slot::Operand => Kind::Value,
        Slot::Successor => Kind::Block,
    }
}

// The list of the operands or of the successors of the operation at the place `o`, among those of the slots.
#[inline(always)]
pub fn slots_of(l: Layout, slot: Slot, o: usize) -> usize
    requires caps { Caps l }
    requires o_bound { o < l.ops }
    ensures { ListIs l slots (slot_role (slot_of slot), (op, o)) result }
{
    match slot {
        Slot::Operand => 2 * o,
        Slot::Successor => 2 * o + 1,
    }
}

// The list of the uses of the value or of the block at the place `p`, among the use sets.
#[inline(always)]
pub fn use_set_of(l: Layout, slot: Slot, p: usize) -> usize
    requires caps { Caps l }
    requires p_bound { p < cap_of l (def_kind (slot_of slot)) }
    ensures { ListIs l use_sets (def_role (slot_of slot), (def_kind (slot_of slot), p)) result }
{
    match slot {
        Slot::Operand => p,
        Slot::Successor => l.values + p,
    }
}

// The list of the results of the operation or of the arguments of the block at the place `p`, among those of the values.
#[inline(always)]
pub fn values_of(l: Layout, owner: Member, p: usize) -> usize
    requires caps { Caps l }
    requires p_bound { p < cap_of l (member_kind (member_of owner)) }
    ensures { ListIs l vals (value_role (member_of owner), (member_kind (member_of owner), p)) result }
{
    match owner {
        Member::Operation => p,
        Member::Block => l.ops + p,
    }
}

// Kept (point 2): each function over a table calls another one of the arena, whose promise on cells it states of the store by places; a cut of its own would leave two lines.
// A thing of the kind `k` is born at the lowest free place.
pub fn bear(m: &mut [u32], l: Layout, k: Kind) -> usize
    requires well { Well l m.old }
    requires room_for { RoomFor (state_of l m.old) (kind_of k) (cap_of l (kind_of k)) }
    ensures { Borne l (kind_of k) m.old m.new result }
{
    let t = table_span(l, k);
    arena::birth(&mut m[t.at..t.end], t.places)
}

// The thing of the kind `k` at the place `p`, whose flags or type are 0, ends.
pub fn finish(m: &mut [u32], l: Layout, k: Kind, p: usize)
    requires well { Well l m.old }
    requires live { Live (state_of l m.old) (kind_of k, p) }
    requires p_value { (state_of l m.old).tag (kind_of k, p) ≡ 0 }
    ensures { Finished l (kind_of k) p m.old m.new }
{
    let t = table_span(l, k);
    arena::end(&mut m[t.at..t.end], t.places, p);
}

// The place of the live thing of the kind `k` with this number.
#[inline(always)]
pub fn find(m: &[u32], l: Layout, k: Kind, number: u32) -> Option<usize>
    requires { Well l m.now }
    ensures { Finds (state_of l m.now) (kind_of k) number result }
{
    let t = table_span(l, k);
    arena::find(&m[t.at..t.end], t.places, number)
}

// The refusal where no live thing of the kind `k` has the number.
#[inline(always)]
pub fn missing(k: Kind) -> Refusal
    ensures { number_of result ≡ missing_code (kind_of k) }
{
    match k {
        Kind::Operation => Refusal::NoOperation,
        Kind::Block => Refusal::NoBlock,
        Kind::Region => Refusal::NoRegion,
        Kind::Value => Refusal::NoValue,
        Kind::Use => Refusal::NoUse,
    }
}

// Kept (point 2): the same for the families of lists and `Lists`.
// The list of the family `f` that the node `n` stands in.
#[inline(always)]
pub fn home_of(m: &[u32], l: Layout, f: Family, n: usize) -> Option<usize>
    requires well { Well l m.now }
    requires n_bound { n < nn_of l (fam_of f) }
    ensures { HomeIs l (fam_of f) n m.now result }
{
    let s = family_span(l, f);
    s.lists.get_container(&m[s.at..s.end], n)
}

// How long the list `k` of the family `f` is.
#[inline(always)]
pub fn row_length(m: &[u32], l: Layout, f: Family, k: usize) -> usize
    requires well { Well l m.now }
    requires k_bound { k < nc_of l (fam_of f) }
    ensures { LengthIs l (fam_of f) k m.now result }
{
    let s = family_span(l, f);
    s.lists.count(&m[s.at..s.end], k)
}

// The place of the first of the list `k` of the family `f`.
#[inline(always)]
pub fn first_of(m: &[u32], l: Layout, f: Family, k: usize) -> Option<usize>
    requires well { Well l m.now }
    requires k_bound { k < nc_of l (fam_of f) }
    ensures { FirstIs l (fam_of f) k m.now result }
{
    let s = family_span(l, f);
    s.lists.get_head(&m[s.at..s.end], k)
}

// The place of the node after `n` in its list of the family `f`.
#[inline(always)]
pub fn next_of(m: &[u32], l: Layout, f: Family, n: usize) -> Option<usize>
    requires well { Well l m.now }
    requires n_bound { n < nn_of l (fam_of f) }
    ensures { NextIs l (fam_of f) n m.now result }
{
    let s = family_span(l, f);
    s.lists.get_next(&m[s.at..s.end], n)
}

// The place of the last of the list `k` of the family `f`.
#[inline(always)]
pub fn last_of(m: &[u32], l: Layout, f: Family, k: usize) -> Option<usize>
    requires well { Well l m.now }
    requires k_bound { k < nc_of l (fam_of f) }
    ensures { LastIs l (fam_of f) k m.now result }
{
    let s = family_span(l, f);
    s.lists.get_tail(&m[s.at..s.end], k)
}

// The place of the node at index `i` of the list `k` of the family `f`.
#[inline(always)]
pub fn nth_of(m: &[u32], l: Layout, f: Family, k: usize, i: usize) -> usize
    requires well { Well l m.now }
    requires k_bound { k < nc_of l (fam_of f) }
    requires i_in_bounds { i < length (list_of l m.now (con l (fam_of f) k)) }
    ensures { NthIs l (fam_of f) k i m.now result }
{
    let s = family_span(l, f);
    s.lists.nth(&m[s.at..s.end], k, i)
}

// Whether a place and a number are left for a birth of the kind `k`.
#[inline(always)]
pub fn room_for(m: &[u32], l: Layout, k: Kind) -> Result<(), Refusal>
    requires { Well l m.now }
    ensures { RoomIs l (kind_of k) m.now result }
{
    let t = table_span(l, k);
    let s = &m[t.at..t.end];
    if arena::taken(s, t.places) >= t.places {
        return Err(Refusal::NoPlace);
    }
    if arena::upcoming(s, t.places) == u32::MAX {
        return Err(Refusal::NoNumber);
    }
    Ok(())
}

// Whether a list of `n` things of the kind `k` can grow at index `i`.
#[inline(always)]
pub fn may_grow(m: &[u32], l: Layout, k: Kind, n: usize, i: usize) -> Result<(), Refusal>
    requires { Well l m.now }
    ensures { GrowIs l (kind_of k) n i m.now result }
{
    if n < i {
        return Err(Refusal::NoIndex);
    }
    if n >= MOST_LISTED {
        return Err(Refusal::ListFull);
    }
    room_for(m, l, k)
}

// The birth number of the live thing of the kind `k` at the place `p`.
#[inline(always)]
pub fn number_of(m: &[u32], l: Layout, k: Kind, p: usize) -> u32
    requires well { Well l m.now }
    requires live { Live (state_of l m.now) (kind_of k, p) }
    ensures { NumberIs l (kind_of k) p m.now result }
{
    let t = table_span(l, k);
    arena::number_at(&m[t.at..t.end], t.places, p)
}

// How many things of the kind `k` live.
#[inline(always)]
pub fn live_count(m: &[u32], l: Layout, k: Kind) -> usize
    requires { Well l m.now }
    ensures { LiveIs l (kind_of k) m.now result }
{
    let t = table_span(l, k);
    arena::taken(&m[t.at..t.end], t.places)
}

// The number of the next birth of the kind `k`.
#[inline(always)]
pub fn next_number(m: &[u32], l: Layout, k: Kind) -> u32
    requires { Well l m.now }
    ensures { NextNumberIs l (kind_of k) m.now result }
{
    let t = table_span(l, k);
    arena::upcoming(&m[t.at..t.end], t.places)
}

// The place of the `i`-th live thing of the kind `k`, in rising number.
#[inline(always)]
pub fn nth_live(m: &[u32], l: Layout, k: Kind, i: usize) -> usize
    requires well { Well l m.now }
    requires i_in_bounds { i < length ((state_of l m.now).tab (kind_of k)).order }
    ensures { NthLiveIs l (kind_of k) i m.now result }
{
    let t = table_span(l, k);
    arena::nth_live(&m[t.at..t.end], t.places, i)
}

// Where the flags start: past the last family.
#[inline(always)]
pub fn flags_at(l: Layout) -> usize
    requires { Caps l }
    ensures { TagsAt l op result }
{
    family_span(l, Family::Blocks).end
}

// Where the types start.
#[inline(always)]
fn types_at(l: Layout) -> usize
    requires { Caps l }
    ensures { TagsAt l val result }
{
    flags_at(l) + l.ops
}

// The words of a store.
pub fn size(l: Layout) -> usize
    requires { Caps l }
    ensures { TotalIs l result }
{
    types_at(l) + l.values
}

// An empty store, in a memory that has room for it.
fn set_up(m: &mut [u32], l: Layout)
    requires caps { Caps l }
    requires l_in_bounds { total l ≤ length m.old }
    ensures { Started l m.old m.new }
{
    let n = size(l);
    m[..n].fill(0);
    m[0] = l.ops as u32;
    m[1] = l.blocks as u32;
    m[2] = l.regions as u32;
    m[3] = l.values as u32;
    m[4] = l.uses as u32;
}

// Starts an empty store, but where a capacity is 0 or over its limit, or the memory is too short.
// A refusal keeps the memory, and the words past the store are never written.
pub fn start(m: &mut [u32], l: Layout) -> Result<(), Refusal>
    ensures { StartIs l m.old m.new result }
{
    let n = words_needed(l).ok_or(Refusal::Capacity)?;
    if m.len() < n {
        return Err(Refusal::Capacity);
    }
    set_up(m, l);
    Ok(())
}

// How many words a store with these capacities needs; none where a capacity is 0 or over its limit.
pub fn words_needed(l: Layout) -> Option<usize>
    ensures { WordsNeeded l result }
{
    if caps_ok(l) { Some(size(l)) } else { None }
}

// The capacities that stand in the header.
pub fn layout_of(m: &[u32]) -> Layout
    requires { 5 ≤ length m.now }
    ensures { Headed result m.now }
{
    Layout {
        ops: m[0] as usize,
        blocks: m[1] as usize,
        regions: m[2] as usize,
        values: m[3] as usize,
        uses: m[4] as usize,
    }
}

// Whether a capacity is some and keeps its limit.
fn within(n: usize, limit: usize) -> bool
    ensures { Says result ((0 < n) × (n ≤ limit)) }
{
    0 < n && n <= limit
}

// Whether the capacities are some and keep their limits.
pub fn caps_ok(l: Layout) -> bool
    ensures { Says result (Caps l) }
{
    within(l.ops, 4096)
        && within(l.blocks, 1024)
        && within(l.regions, 1024)
        && within(l.values, 8192)
        && within(l.uses, 16384)
}

fn table_ok(m: &[u32], l: Layout, k: Kind) -> bool
    requires caps { Caps l }
    requires fits { Fits l m.now }
    ensures { Says result (TableOk l m.now (kind_of k)) }
{
    let t = table_span(l, k);
    arena::check(&m[t.at..t.end], t.places)
}

fn family_ok(m: &[u32], l: Layout, f: Family) -> bool
    requires caps { Caps l }
    requires fits { Fits l m.now }
    ensures { Says result (FamilyOk l m.now (fam_of f)) }
{
    let s = family_span(l, f);
    s.lists.check_links(&m[s.at..s.end])
}

fn tables_ok(m: &[u32], l: Layout) -> bool
    requires caps { Caps l }
    requires fits { Fits l m.now }
    ensures { Says result (TablesOk l m.now) }
{
    table_ok(m, l, Kind::Operation)
        && table_ok(m, l, Kind::Block)
        && table_ok(m, l, Kind::Region)
        && table_ok(m, l, Kind::Value)
        && table_ok(m, l, Kind::Use)
}

fn families_ok(m: &[u32], l: Layout) -> bool
    requires caps { Caps l }
    requires fits { Fits l m.now }
    ensures { Says result (FamiliesOk l m.now) }
{
    family_ok(m, l, Family::Slots)
        && family_ok(m, l, Family::UseSets)
        && family_ok(m, l, Family::Values)
        && family_ok(m, l, Family::Regions)
        && family_ok(m, l, Family::Operations)
        && family_ok(m, l, Family::Blocks)
}

// Whether the place `p` of the table `t` lives, or has a 0 among the tags `s`.
fn place_spare(t: &[u32], s: &[u32], n: usize, p: usize) -> bool
    requires { Packed n t.now × ((length s.now ≡ n) × (p < n)) }
    ensures { Says result (SpareAt n t.now s.now p) }
{
    arena::is_live(t, n, p) || s[p] == 0
}

// Whether every free place of the table `t` has a 0 among the tags `s`.
fn places_spare(t: &[u32], s: &[u32], n: usize) -> bool
    requires { Packed n t.now × (length s.now ≡ n) }
    ensures { Says result (SpareIn n t.now s.now) }
{
    (0..n).all(|p| place_spare(t, s, n, p))
}

// Whether the free places of the kind `k` have a 0 among the tags that start at `at`.
fn spare_ok(m: &[u32], l: Layout, k: Kind, at: usize) -> bool
    requires caps { Caps l }
    requires fits { Fits l m.now }
    requires has_tag { HasTag (kind_of k) }
    requires tags_at { TagsAt l (kind_of k) at }
    requires table_ok { TableOk l m.now (kind_of k) }
    ensures { Says result (SpareOk l m.now (kind_of k)) }
{
    let t = table_span(l, k);
    places_spare(&m[t.at..t.end], &m[at..at + t.places], t.places)
}

// Whether each part is well formed: of a memory of any contents, with the capacities of its header.
pub fn check_parts(m: &[u32], l: Layout) -> bool
    requires { Headed l m.now }
    ensures { Says result (Well l m.now) }
{
    let Some(n) = words_needed(l) else {
        return false;
    };
    n <= m.len()
        && tables_ok(m, l)
        && families_ok(m, l)
        && spare_ok(m, l, Kind::Operation, flags_at(l))
        && spare_ok(m, l, Kind::Value, types_at(l))
}
