// Values and uses, after value.rs of pliron 0.20.0 (Apache-2.0): birth, end, type; a use stands in a list of the slots and in one use set.
ghost use Rattle.std.specs.Prelude.{◌<◌};
ghost use Rattle.places.specs.Store.{Live, val, usg, vals, use_sets, slots};
ghost use Rattle.context.specs.Layout.{nc_of};
ghost use Rattle.context.specs.Memory.{con, state_of, Well, SoundStore, MayTag, Tagged};
ghost use Rattle.context.specs.Reading.{TagIs, DefNumberIs};
ghost use Rattle.context.specs.Steps.{CanMove, Moved, EndedUse, CanBear, BorneUse, Unused, EndedValue, CanBearValue, BorneValue};

use super::lists::{enter_at, enter_back, leave};
use super::{Family, Kind, Layout, bear, finish, number_of, types_at};

// The value at the place `p` gets the type `v`; at a free place it is 0.
#[inline(always)]
pub fn put_type(m: &mut [u32], l: Layout, p: usize, v: u32)
    requires well { Well l m.old }
    requires p_lt_values { p < l.values }
    requires may_tag { MayTag (state_of l m.old) (val, p) v }
    ensures { Tagged l (val, p) v m.old m.new }
{
    m[types_at(l) + p] = v;
}

// The type of the value at the place `p`.
#[inline(always)]
pub fn type_of(m: &[u32], l: Layout, p: usize) -> u32
    requires well { Well l m.now }
    requires p_lt_values { p < l.values }
    ensures { TagIs l (val, p) m.now result }
{
    m[types_at(l) + p]
}

// A value of the type `t` is born at index `i` of the list `k` of results and arguments.
pub fn birth_value(m: &mut [u32], l: Layout, k: usize, i: usize, t: u32) -> usize
    requires sound_store { SoundStore l m.old }
    requires k_bound { k < nc_of l vals }
    requires can_bear_value { CanBearValue (state_of l m.old) l.values (con l vals k) }
    ensures { BorneValue l k i t m.old m.new result }
{
    let p = bear(m, l, Kind::Value);
    put_type(m, l, p, t);
    enter_at(m, l, Family::Values, k, i, p);
    p
}

// The value at the place `p`, which nothing uses, ends.
pub fn end_value(m: &mut [u32], l: Layout, p: usize)
    requires sound_store { SoundStore l m.old }
    requires unused { Unused (state_of l m.old) p }
    ensures { EndedValue l p m.old m.new }
{
    leave(m, l, Family::Values, p);
    put_type(m, l, p, 0);
    finish(m, l, Kind::Value, p);
}

// A use is born at index `i` of the list `s` of the slots, held by the list `d` of the use sets.
pub fn birth_use(m: &mut [u32], l: Layout, s: usize, i: usize, d: usize) -> usize
    requires sound_store { SoundStore l m.old }
    requires s_bound { (s < nc_of l slots) × (d < nc_of l use_sets) }
    requires can_bear { CanBear (state_of l m.old) l.uses (con l slots s) (con l use_sets d) }
    ensures { BorneUse l s i d m.old m.new result }
{
    let u = bear(m, l, Kind::Use);
    enter_at(m, l, Family::Slots, s, i, u);
    enter_back(m, l, Family::UseSets, d, u);
    u
}

// The use at the place `u` moves to the list `k` of the use sets.
#[inline(always)]
pub fn move_use(m: &mut [u32], l: Layout, u: usize, k: usize)
    requires sound_store { SoundStore l m.old }
    requires k_bound { k < nc_of l use_sets }
    requires can_move { CanMove (state_of l m.old) u (con l use_sets k) }
    ensures { Moved l u k m.old m.new }
{
    leave(m, l, Family::UseSets, u); // out of the old definition's set
    enter_back(m, l, Family::UseSets, k, u);
}

// The use at the place `u` ends.
pub fn end_use(m: &mut [u32], l: Layout, u: usize)
    requires sound_store { SoundStore l m.old }
    requires live { Live (state_of l m.old) (usg, u) }
    ensures { EndedUse l u m.old m.new }
{
    leave(m, l, Family::Slots, u);
    leave(m, l, Family::UseSets, u);
    finish(m, l, Kind::Use, u);
}

// The number of the value or of the block whose uses the set `d` has.
#[inline(always)]
pub fn definition_number(m: &[u32], l: Layout, d: usize) -> u32
    requires well { Well l m.now }
    requires live { Live (state_of l m.now) (con l use_sets d).1 }
    ensures { DefNumberIs l d m.now result }
{
    if d < l.values {
        number_of(m, l, Kind::Value, d)
    } else {
        number_of(m, l, Kind::Block, d - l.values)
    }
}
