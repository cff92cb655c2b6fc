// The uses of a value or a block, for a reader: their numbers, rising, in the caller's own buffer.
#![tactic(auto)]

ghost use Rattle.std.specs.Prelude.{◌≡◌, ◌<◌};
ghost use Rattle.edit.specs.Kinds.{slot_of};
ghost use Rattle.edit.specs.Record.{of_value, of_block};
ghost use Rattle.places.specs.Store.{Live, usg, use_sets};
ghost use Rattle.places.specs.Hist.{def_by};
ghost use Rattle.places.specs.Roles.{def_role};
ghost use Rattle.context.specs.Layout.{nc_of};
ghost use Rattle.context.specs.Memory.{con, state_of};
ghost use Rattle.context.specs.Performed.{abs};
ghost use Rattle.listing.specs.Writer.{Written};
ghost use Rattle.listing.specs.Lines.{definition_at, uses_among};
ghost use Rattle.readers.specs.UsesOf.{definition_by, Told, ToldOf, Fronted};

use context::view::View;
use context::{Family, Kind};
use edit::{Refusal, Slot};
use listing::Pen;

// What a reader names, by its number.
#[derive(Clone, Copy, Debug, PartialEq, Eq)]
pub enum Definition {
    Value(u32),
    Block(u32),
}

impl Definition {
    // The slot that uses it, and its number.
    fn slot_and_number(self) -> (Slot, u32)
        ensures { definition_by self ≡ def_by (def_role (slot_of result.0)) result.1 }
    {
        match self {
            Definition::Value(number) => (Slot::Operand, number),
            Definition::Block(number) => (Slot::Successor, number),
        }
    }
}

// Kept (point 2): tried with the loop of listing::put_uses in one function over an `FnMut`: nothing is known of the lent pen after its calls.
// The uses in the set `k`: the live uses are gone through in rising number.
fn fill_uses(v: &View, k: usize, out: &mut [u32]) -> usize
    requires k_bound { k < nc_of v.now.layout use_sets }
    requires live { Live (state_of v.now.layout v.now.words.now) (con v.now.layout use_sets k).1 }
    ensures { Written (uses_among (state_of v.now.layout v.now.words.now) (definition_at v.now.layout v.now.words.now k) ((state_of v.now.layout v.now.words.now).tab usg).order) out.old 0 out.new result }
{
    let mut pen = Pen { out, at: 0 };
    // A copy, which nothing that is written can change: where the parts stand is worked out once.
    let view = *v;
    for i in 0..view.live_count(Kind::Use) {
        if let Some(x) = listing::nth_use(&view, k, i) {
            pen.put(x);
        }
    }
    pen.at
}

// The uses in the set `k`, where the buffer has room for them.
fn uses_in(v: &View, k: usize, out: &mut [u32]) -> Result<usize, Refusal>
    requires k_bound { k < nc_of v.now.layout use_sets }
    requires live { Live (state_of v.now.layout v.now.words.now) (con v.now.layout use_sets k).1 }
    ensures { Told (abs v.now.layout v.now.words.now) (definition_at v.now.layout v.now.words.now k) out.old out.new result }
{
    if out.len() < v.row_length(Family::UseSets, k) {
        return Err(Refusal::NoRoom);
    }
    Ok(fill_uses(v, k, out))
}

// The uses of a value or a block, of a sound store.
fn sound_uses(v: &View, definition: Definition, out: &mut [u32]) -> Result<usize, Refusal>
    ensures { Told (abs v.now.layout v.now.words.now) (definition_by definition) out.old out.new result }
{
    let (slot, number) = definition.slot_and_number();
    let p = v.look_up(context::definition_kind(slot), number)?;
    uses_in(v, context::use_set_of(v.layout, slot, p), out)
}

// The uses of a definition: their numbers, rising, in front of `out`, whose rest is kept; the result is how many.
// Unsound where the store is not sound, then NoValue or NoBlock where nothing lives under the number, then NoRoom where `out` is
// too short; a refusal keeps `out`.
pub fn uses_of(store: &[u32], definition: Definition, out: &mut [u32]) -> Result<usize, Refusal>
    ensures { ToldOf store.now (definition_by definition) out.old out.new result }
{
    if !sound::check(store) {
        return Err(Refusal::Unsound);
    }
    let v = View {
        words: store,
        layout: context::layout_of(store),
    };
    sound_uses(&v, definition, out)
}

// The same, but what is returned is the front of `out` that was filled.
pub fn front_uses<'a>(
    store: &[u32],
    definition: Definition,
    out: &'a mut [u32],
) -> Result<&'a mut [u32], Refusal>
    ensures { Fronted store.now (definition_by definition) out.old result }
{
    let k = uses_of(store, definition, out)?;
    Ok(&mut out[..k])
}

// The uses of the value with this number, handed back likewise.
pub fn value_uses<'a>(
    store: &[u32],
    number: u32,
    out: &'a mut [u32],
) -> Result<&'a mut [u32], Refusal>
    ensures { Fronted store.now (of_value number) out.old result }
{
    front_uses(store, Definition::Value(number), out)
}

// The uses of the block with this number: the predecessors' use numbers.
pub fn block_uses<'a>(
    store: &[u32],
    number: u32,
    out: &'a mut [u32],
) -> Result<&'a mut [u32], Refusal>
    ensures { Fronted store.now (of_block number) out.old result }
{
    front_uses(store, Definition::Block(number), out)
}
