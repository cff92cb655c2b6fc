// Edits on values: push, insert, remove and pop for the results of an operation and the arguments of a block.
// Ported from pliron 0.20.0 (src/operation.rs, src/basic_block.rs, src/value.rs), Apache-2.0.
#![tactic(auto)]

ghost use Rattle.std.specs.Prelude.{◌<◌, length};
ghost use Rattle.edit.specs.Record.{push_value, insert_value, remove_value, pop_value};
ghost use Rattle.edit.specs.Kinds.{member_of};
ghost use Rattle.places.specs.Store.{vals};
ghost use Rattle.context.specs.Layout.{nc_of};
ghost use Rattle.context.specs.Memory.{con, SoundStore};
ghost use Rattle.context.specs.Reading.{list_of};
ghost use Rattle.context.specs.Performed.{Performed};
ghost use Rattle.values.specs.Look.{ValuesFound, TakenValue};

use context::view::View;
use context::{Family, Kind, Layout};
use edit::{Answer, Member, Refusal};

// The list of values of the operation or block with this number.
pub fn values_of(v: &View, w: Member, number: u32) -> Result<usize, Refusal>
    ensures { ValuesFound v.now.layout v.now.words.now (member_of w) number result }
{
    let p = v.look_up(Kind::from(w), number)?;
    Ok(context::values_of(v.layout, w, p))
}

// Kinds 13 and 17: a value of the type is put last.
pub fn push_value(m: &mut [u32], l: Layout, w: Member, owner: u32, ty: u32) -> Answer
    requires { SoundStore l m.old }
    ensures { Performed l (push_value (member_of w) owner ty) m.old m.new result }
{
    let v = View {
        words: m,
        layout: l,
    };
    let k = values_of(&v, w, owner)?;
    let n = v.row_length(Family::Values, k);
    v.may_grow(Kind::Value, n, n)?;
    context::value::birth_value(m, l, k, n, ty);
    Ok((n as u32, 0))
}

// Kinds 14 and 18: a value of the type is put at the index.
// Kept (point 2): a tail shared with push_value is the calls of may_grow and birth_value, one line less in each, with a contract of its own.
pub fn insert_value(m: &mut [u32], l: Layout, w: Member, owner: u32, index: u32, ty: u32) -> Answer
    requires { SoundStore l m.old }
    ensures { Performed l (insert_value (member_of w) owner index ty) m.old m.new result }
{
    let v = View {
        words: m,
        layout: l,
    };
    let k = values_of(&v, w, owner)?;
    let i = index as usize;
    let n = v.row_length(Family::Values, k);
    v.may_grow(Kind::Value, n, i)?;
    context::value::birth_value(m, l, k, i, ty);
    Ok((0, 0))
}

// The value at index `i` of the list `k` ends, unless it is used.
pub fn take_value(m: &mut [u32], l: Layout, k: usize, i: usize) -> Result<(), Refusal>
    requires sound_store { SoundStore l m.old }
    requires k_bound { k < nc_of l vals }
    requires i_in_bounds { i < length (list_of l m.old (con l vals k)) }
    ensures { TakenValue l k i m.old m.new result }
{
    let v = View {
        words: m,
        layout: l,
    };
    let p = v.nth_of(Family::Values, k, i);
    if v.first_of(Family::UseSets, p).is_some() {
        return Err(Refusal::Used);
    }
    context::value::end_value(m, l, p);
    Ok(())
}

// Kinds 15 and 19: the value at the index, which nothing uses, is taken out.
pub fn remove_value(m: &mut [u32], l: Layout, w: Member, owner: u32, index: u32) -> Answer
    requires { SoundStore l m.old }
    ensures { Performed l (remove_value (member_of w) owner index) m.old m.new result }
{
    let v = View {
        words: m,
        layout: l,
    };
    let k = values_of(&v, w, owner)?;
    let i = index as usize;
    if v.row_length(Family::Values, k) <= i {
        return Err(Refusal::NoIndex);
    }
    take_value(m, l, k, i)?;
    Ok((0, 0))
}

// Kinds 16 and 20: the last value, which nothing uses, is taken out.
pub fn pop_value(m: &mut [u32], l: Layout, w: Member, owner: u32) -> Answer
    requires { SoundStore l m.old }
    ensures { Performed l (pop_value (member_of w) owner) m.old m.new result }
{
    let v = View {
        words: m,
        layout: l,
    };
    let k = values_of(&v, w, owner)?;
    let n = v.row_length(Family::Values, k);
    if n == 0 {
        return Err(Refusal::NoIndex);
    }
    take_value(m, l, k, n - 1)?;
    Ok((0, 0))
}
