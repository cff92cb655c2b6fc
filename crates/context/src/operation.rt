// Operations, after operation.rs of pliron 0.20.0 (Apache-2.0): birth, end, flags, dropping of operands and successors.
ghost use Rattle.std.specs.Prelude.{◌≤◌, ◌<◌};
ghost use Rattle.places.specs.Store.{op, slots};
ghost use Rattle.context.specs.Layout.{nc_of};
ghost use Rattle.context.specs.Memory.{state_of, Well, SoundStore, RoomFor, MayTag, Tagged};
ghost use Rattle.context.specs.Reading.{TagIs};
ghost use Rattle.context.specs.Steps.{BorneOp, DroppedAll, CanEnd, Ended};

use super::lists::detach;
use super::value::end_use;
use super::{Family, Kind, Layout, bear, finish, first_of, flags_at};

// The operation at the place `p` gets the flags `v`; at a free place they are 0.
#[inline(always)]
pub fn put_flags(m: &mut [u32], l: Layout, p: usize, v: u32)
    requires well { Well l m.old }
    requires p_lt_ops { p < l.ops }
    requires may_tag { MayTag (state_of l m.old) (op, p) v }
    ensures { Tagged l (op, p) v m.old m.new }
{
    m[flags_at(l) + p] = v;
}

// The flags of the operation at the place `p`.
#[inline(always)]
pub fn flags_of(m: &[u32], l: Layout, p: usize) -> u32
    requires well { Well l m.now }
    requires p_lt_ops { p < l.ops }
    ensures { TagIs l (op, p) m.now result }
{
    m[flags_at(l) + p]
}

// An operation is born, in no block and with empty lists.
pub fn birth_op(m: &mut [u32], l: Layout, flags: u32) -> usize
    requires sound_store { SoundStore l m.old }
    requires room_for { RoomFor (state_of l m.old) op l.ops }
    requires flags_bound { flags ≤ 3 }
    ensures { BorneOp l flags m.old m.new result }
{
    let p = bear(m, l, Kind::Operation);
    put_flags(m, l, p, flags);
    p
}

// The operation at the place `o`, linked or not, with nothing in its lists, ends.
pub fn end_operation(m: &mut [u32], l: Layout, o: usize)
    requires sound_store { SoundStore l m.old }
    requires can_end { CanEnd (state_of l m.old) (op, o) }
    ensures { Ended l (op, o) m.old m.new }
{
    detach(m, l, Family::Operations, o);
    put_flags(m, l, o, 0);
    finish(m, l, Kind::Operation, o);
}

// All uses of the list `s` of the slots end: how many.
#[inline(always)]
pub fn drop_slots(m: &mut [u32], l: Layout, s: usize) -> usize
    requires sound_store { SoundStore l m.old }
    requires s_bound { s < nc_of l slots }
    ensures { DroppedAll l s m.old m.new result }
{
    let mut n = 0;
    while let Some(u) = first_of(m, l, Family::Slots, s) {
        end_use(m, l, u);
        n += 1;
    }
    n
}
