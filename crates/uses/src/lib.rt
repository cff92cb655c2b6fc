// Edits on uses: push, insert, replace, remove and pop for operands and successors; the move of one use, or of listed ones, to another definition.
// Ported from pliron 0.20.0 (src/operation.rs, src/value.rs), Apache-2.0.
#![tactic(auto)]

ghost use Rattle.std.specs.Prelude.{◌≡◌, ◌<◌, ◌≢◌, false, length, drop, replicate};
ghost use Rattle.edit.specs.Record.{push_use, insert_use, replace_use, remove_use, pop_use, move_use, operand, successor};
ghost use Rattle.edit.specs.Kinds.{slot_of};
ghost use Rattle.edit.specs.Taken.{fields_of, edit_by};
ghost use Rattle.edit.specs.declared.Kind.TheVariants.{ReplaceSome, RetargetSome};
ghost use Rattle.places.specs.Store.{usg, slots, use_sets, Live};
ghost use Rattle.context.specs.Layout.{nc_of};
ghost use Rattle.context.specs.Memory.{con, state_of, Well, SoundStore};
ghost use Rattle.context.specs.Reading.{list_of, DefNumberIs};
ghost use Rattle.context.specs.Steps.{CanMove};
ghost use Rattle.context.specs.Performed.{Performed};
ghost use Rattle.uses.specs.declared.TheConstants.{BLOCK_PLACES};
ghost use Rattle.uses.specs.Some.{Between, HeldIn, PlacedOne, PlacedAll};
ghost use Rattle.uses.specs.Retarget.{MarkedOne, Marks, Chosen, RetargetedOne, RetargetedAll};
ghost use Rattle.uses.specs.Look.{SlotFound, DefFound, Taken};

use context::view::View;
use context::{Family, Kind, Layout};
use edit::{Answer, Refusal, Slot};

// The field from which on kinds 34 and 35 list numbers.
const FIRST_LISTED: usize = 2;

// The most block places of a store.
const BLOCK_PLACES: usize = 1024;

// The list of operands or successors of the operation with this number.
#[inline(always)]
pub fn slot_of(v: &View, sl: Slot, number: u32) -> Result<usize, Refusal>
    ensures { SlotFound v.now.layout v.now.words.now (slot_of sl) number result }
{
    let o = v.look_up(Kind::Operation, number)?;
    Ok(context::slots_of(v.layout, sl, o))
}

// The set of uses of the value or the block with this number.
#[inline(always)]
pub fn def_of(v: &View, sl: Slot, number: u32) -> Result<usize, Refusal>
    ensures { DefFound v.now.layout v.now.words.now (slot_of sl) number result }
{
    let p = v.look_up(context::definition_kind(sl), number)?;
    Ok(context::use_set_of(v.layout, sl, p))
}

// The number of the definition whose set of uses is `d`.
pub fn def_number(m: &[u32], l: Layout, d: usize) -> u32
    requires well { Well l m.now }
    requires live { Live (state_of l m.now) (con l use_sets d).1 }
    ensures { DefNumberIs l d m.now result }
{
    context::value::definition_number(m, l, d)
}

// Kinds 3 and 8: a use of the definition is put last.
pub fn push_use(m: &mut [u32], l: Layout, sl: Slot, number: u32, def: u32) -> Answer
    requires { SoundStore l m.old }
    ensures { Performed l (push_use (slot_of sl) number def) m.old m.new result }
{
    let v = View {
        words: m,
        layout: l,
    };
    let s = slot_of(&v, sl, number)?;
    let d = def_of(&v, sl, def)?;
    let n = v.row_length(Family::Slots, s);
    v.may_grow(Kind::Use, n, n)?;
    context::value::birth_use(m, l, s, n, d);
    Ok((n as u32, 0))
}

// Kinds 4 and 9: a use of the definition is put at the index.
// Kept (point 2): a tail shared with push_use is the calls of may_grow and birth_use, one line less in each, with a contract of its own.
pub fn insert_use(m: &mut [u32], l: Layout, sl: Slot, number: u32, index: u32, def: u32) -> Answer
    requires { SoundStore l m.old }
    ensures { Performed l (insert_use (slot_of sl) number index def) m.old m.new result }
{
    let v = View {
        words: m,
        layout: l,
    };
    let s = slot_of(&v, sl, number)?;
    let d = def_of(&v, sl, def)?;
    let i = index as usize;
    let n = v.row_length(Family::Slots, s);
    v.may_grow(Kind::Use, n, i)?;
    context::value::birth_use(m, l, s, i, d);
    Ok((0, 0))
}

// The use at index `i` of the list `s` of the slots ends: the number of its definition.
pub fn take_use(m: &mut [u32], l: Layout, s: usize, i: usize) -> u32
    requires sound_store { SoundStore l m.old }
    requires s_bound { s < nc_of l slots }
    requires i_in_bounds { i < length (list_of l m.old (con l slots s)) }
    ensures { Taken l s i m.old m.new result }
{
    let v = View {
        words: m,
        layout: l,
    };
    let u = v.nth_of(Family::Slots, s, i);
    let n = v.definition_number(u);
    context::value::end_use(m, l, u);
    n
}

// Kinds 6 and 11: the use at the index is taken out.
pub fn remove_use(m: &mut [u32], l: Layout, sl: Slot, number: u32, index: u32) -> Answer
    requires { SoundStore l m.old }
    ensures { Performed l (remove_use (slot_of sl) number index) m.old m.new result }
{
    let v = View {
        words: m,
        layout: l,
    };
    let s = slot_of(&v, sl, number)?;
    let i = index as usize;
    if v.row_length(Family::Slots, s) <= i {
        return Err(Refusal::NoIndex);
    }
    Ok((take_use(m, l, s, i), 0))
}

// Kinds 7 and 12: the last use is taken out.
pub fn pop_use(m: &mut [u32], l: Layout, sl: Slot, number: u32) -> Answer
    requires { SoundStore l m.old }
    ensures { Performed l (pop_use (slot_of sl) number) m.old m.new result }
{
    let v = View {
        words: m,
        layout: l,
    };
    let s = slot_of(&v, sl, number)?;
    let n = v.row_length(Family::Slots, s);
    if n == 0 {
        return Err(Refusal::NoIndex);
    }
    Ok((take_use(m, l, s, n - 1), 0))
}

// The place of the use with this number, if it stands in the set `d`.
#[inline(always)]
fn held_in(v: &View, d: usize, number: u32) -> Option<usize>
    ensures { HeldIn v.now.layout d number v.now.words.now result }
{
    let u = v.find(Kind::Use, number)?;
    if v.home_of(Family::UseSets, u) == Some(d) {
        Some(u)
    } else {
        None
    }
}

// Kinds 32 and 33: the use moves from this definition to the other.
pub fn move_use_to(m: &mut [u32], l: Layout, sl: Slot, this: u32, number: u32, other: u32) -> Answer
    requires { SoundStore l m.old }
    ensures { Performed l (move_use (slot_of sl) this number other) m.old m.new result }
{
    let v = View {
        words: m,
        layout: l,
    };
    let d = def_of(&v, sl, this)?;
    let e = def_of(&v, sl, other)?;
    if this == other {
        return Ok((0, 0));
    }
    let u = held_in(&v, d, number).ok_or(Refusal::NoUse)?;
    context::value::move_use(m, l, u, e);
    Ok((0, 0))
}

// Kinds 5 and 10: a new use of the definition takes the place of the one at the index.
pub fn replace_use(m: &mut [u32], l: Layout, sl: Slot, number: u32, index: u32, def: u32) -> Answer
    requires { SoundStore l m.old }
    ensures { Performed l (replace_use (slot_of sl) number index def) m.old m.new result }
{
    let v = View {
        words: m,
        layout: l,
    };
    let s = slot_of(&v, sl, number)?;
    let d = def_of(&v, sl, def)?;
    let i = index as usize;
    if v.row_length(Family::Slots, s) <= i {
        return Err(Refusal::NoIndex);
    }
    if v.next_number(Kind::Use) == u32::MAX {
        return Err(Refusal::NoNumber);
    }
    let u = v.nth_of(Family::Slots, s, i);
    context::value::end_use(m, l, u);
    context::value::birth_use(m, l, s, i, d);
    Ok((0, 0))
}

// The use with this number moves from the set `d` to the set `e`, if it stands in `d`.
#[inline(always)]
pub fn place_one(m: &mut [u32], l: Layout, d: usize, e: usize, number: u32)
    requires sound_store { SoundStore l m.old }
    requires between { Between l m.old operand d e }
    ensures { PlacedOne l d e number m.old m.new }
{
    let v = View {
        words: m,
        layout: l,
    };
    if let Some(u) = held_in(&v, d, number) {
        context::value::move_use(m, l, u, e);
    }
}

// The listed uses move from the set `d` to the set `e`.
#[inline(always)]
pub fn place_listed(m: &mut [u32], l: Layout, d: usize, e: usize, rec: &[u8])
    requires sound_store { SoundStore l m.old }
    requires between { Between l m.old operand d e }
    ensures { PlacedAll l d e (drop 2 (fields_of rec.now)) m.old m.new }
{
    for i in FIRST_LISTED..edit::field_count(rec) {
        place_one(m, l, d, e, edit::field(rec, i));
    }
}

// Kind 34: the listed uses of this value become uses of the other. Compiled by itself, so that its loop keeps what it needs in registers.
#[inline(never)]
pub fn replace_some(m: &mut [u32], l: Layout, rec: &[u8]) -> Answer
    requires { SoundStore l m.old }
    ensures { Performed l (edit_by ReplaceSome (fields_of rec.now)) m.old m.new result }
{
    let v = View {
        words: m,
        layout: l,
    };
    let d = def_of(&v, Slot::Operand, edit::field(rec, 0))?;
    let e = def_of(&v, Slot::Operand, edit::field(rec, 1))?;
    place_listed(m, l, d, e, rec);
    Ok((0, 0))
}

// The block with this number, if one lives, is marked.
#[inline(always)]
fn mark_one(v: &View, number: u32, marks: &mut [bool; BLOCK_PLACES])
    ensures { MarkedOne v.now.layout number v.now.words.now marks.old marks.new }
{
    if let Some(b) = v.find(Kind::Block, number) {
        marks[b] = true;
    }
}

// The listed blocks are marked.
#[inline(always)]
fn mark_listed(v: &View, rec: &[u8], marks: &mut [bool; BLOCK_PLACES])
    requires { marks.old ≡ replicate BLOCK_PLACES false }
    ensures { Marks v.now.layout (drop 2 (fields_of rec.now)) v.now.words.now marks.new }
{
    for i in FIRST_LISTED..edit::field_count(rec) {
        mark_one(v, edit::field(rec, i), marks);
    }
}

// Whether the use stands at an operation of a marked block.
#[inline(always)]
fn is_chosen(v: &View, u: usize, marks: &[bool; BLOCK_PLACES]) -> bool
    requires { Live (state_of v.now.layout v.now.words.now) (usg, u) }
    ensures { Chosen v.now.layout u marks.now v.now.words.now result }
{
    v.block_of(u).is_some_and(|b| marks[b])
}

// The use moves to the set `e`, if it stands at an operation of a marked block.
#[inline(always)]
fn retarget_one(m: &mut [u32], l: Layout, e: usize, u: usize, marks: &[bool; BLOCK_PLACES])
    requires sound_store { SoundStore l m.old }
    requires e_bound { e < nc_of l use_sets }
    requires can_move { CanMove (state_of l m.old) u (con l use_sets e) }
    ensures { RetargetedOne l e u marks.now m.old m.new }
{
    let v = View {
        words: m,
        layout: l,
    };
    if is_chosen(&v, u, marks) {
        context::value::move_use(m, l, u, e);
    }
}

// The uses in the set `d` at operations of listed blocks move to the set `e`.
// Each listed number is looked up once; a mark for each block place that a store may have tells which blocks are listed.
fn retarget_listed(m: &mut [u32], l: Layout, d: usize, e: usize, rec: &[u8])
    requires sound_store { SoundStore l m.old }
    requires between { Between l m.old successor d e }
    requires d_nonzero { d ≢ e }
    ensures { RetargetedAll l d e (drop 2 (fields_of rec.now)) m.old m.new }
{
    let mut marks = [false; BLOCK_PLACES];
    let v = View {
        words: m,
        layout: l,
    };
    mark_listed(&v, rec, &mut marks);
    let mut next = v.first_of(Family::UseSets, d);
    while let Some(u) = next {
        let v = View {
            words: m,
            layout: l,
        };
        next = v.next_of(Family::UseSets, u);
        retarget_one(m, l, e, u, &marks);
    }
}

// Kind 35: the uses of this block at operations of listed blocks become uses of the other. Compiled by itself, likewise.
#[inline(never)]
pub fn retarget_some(m: &mut [u32], l: Layout, rec: &[u8]) -> Answer
    requires { SoundStore l m.old }
    ensures { Performed l (edit_by RetargetSome (fields_of rec.now)) m.old m.new result }
{
    let v = View {
        words: m,
        layout: l,
    };
    let b = v.look_up(Kind::Block, edit::field(rec, 0))?;
    let d = context::use_set_of(l, Slot::Successor, b);
    let e = def_of(&v, Slot::Successor, edit::field(rec, 1))?;
    if v.stray_user(b) {
        return Err(Refusal::StrayUser);
    }
    if d != e {
        retarget_listed(m, l, d, e, rec);
    }
    Ok((0, 0))
}
