// Edits that make things: a new block with its arguments, a new operation with its results, operands, successors and regions.
// Ported from pliron 0.20.0 (src/operation.rs, src/basic_block.rs), Apache-2.0.
#![tactic(auto)]

ghost use Rattle.std.specs.Prelude.{◌≡◌, ◌+◌, ◌≤◌};
ghost use Rattle.edit.specs.Kinds.{slot_of, code_of, kind_number};
ghost use Rattle.edit.specs.Taken.{fields_of, edit_by, Passed};
ghost use Rattle.edit.specs.declared.Kind.TheVariants.{NewOperation, NewBlock};
ghost use Rattle.context.specs.Kinds.{kind_of};
ghost use Rattle.context.specs.Memory.{SoundStore};
ghost use Rattle.context.specs.Performed.{Performed};
ghost use Rattle.creation.specs.Room.{five_of, over, ByKind, spare, left, RoomIs};
ghost use Rattle.creation.specs.Made.{NamesIs, Counts, UsesAt, OperationTested, CanUse, Used, grown, with_uses, uses_from, uses_many, Underway, Onward};

use context::view::View;
use context::{Kind, Layout};
use edit::{Answer, Member, Refusal, Slot};

// A number for each kind.
#[derive(Clone, Copy, Default)]
struct Five {
    operations: usize,
    blocks: usize,
    regions: usize,
    values: usize,
    uses: usize,
}

impl Five {
    // What `f` gives for each kind.
    fn by<F: Fn(Kind) -> usize>(f: F) -> Five
        requires { F.IsAlwaysCallable f }
        ensures { ByKind (F.post f) result }
    {
        Five {
            operations: f(Kind::Operation),
            blocks: f(Kind::Block),
            regions: f(Kind::Region),
            values: f(Kind::Value),
            uses: f(Kind::Use),
        }
    }

    // Whether one of the numbers is over the one in `room`.
    fn over(self, room: Five) -> bool
        ensures { result ≡ over (five_of self) (five_of room) }
    {
        room.operations < self.operations
            || room.blocks < self.blocks
            || room.regions < self.regions
            || room.values < self.values
            || room.uses < self.uses
    }
}

// How many of each a new operation has.
#[derive(Clone, Copy)]
struct Parts {
    results: usize,
    operands: usize,
    successors: usize,
    regions: usize,
}

impl Parts {
    // The counts of a new operation's record.
    fn of(rec: &[u8]) -> Parts
        ensures { Counts (fields_of rec.now) result }
    {
        Parts {
            results: edit::field(rec, 1) as usize,
            operands: edit::field(rec, 2) as usize,
            successors: edit::field(rec, 3) as usize,
            regions: edit::field(rec, 4) as usize,
        }
    }

    // The field from which the record lists the definitions of a slot's uses, and how many they are.
    fn uses_at(self, sl: Slot) -> (usize, usize)
        requires { self.results + self.operands ≤ 128 }
        ensures { UsesAt self (slot_of sl) result }
    {
        match sl {
            Slot::Operand => (5 + self.results, self.operands),
            Slot::Successor => (5 + self.results + self.operands, self.successors),
        }
    }
}

// How many places of the kind `k` are free.
fn free_places(v: &View, k: Kind) -> usize
    ensures { result ≡ spare v.now.layout v.now.words.now (kind_of k) }
{
    context::table_span(v.layout, k).places - v.live_count(k)
}

// How many numbers of the kind `k` are left.
fn free_numbers(v: &View, k: Kind) -> usize
    ensures { result ≡ left v.now.layout v.now.words.now (kind_of k) }
{
    (u32::MAX - v.next_number(k)) as usize
}

// Refused where places are wanting (20), and where numbers are (21).
fn test_room(v: &View, want: Five) -> Result<(), Refusal>
    ensures { RoomIs v.now.layout (five_of want) v.now.words.now (code_of result) }
{
    let places = Five::by(|k| free_places(v, k));
    if want.over(places) {
        return Err(Refusal::NoPlace);
    }
    let numbers = Five::by(|k| free_numbers(v, k));
    if want.over(numbers) {
        return Err(Refusal::NoNumber);
    }
    Ok(())
}

// Kind 2: a block with an argument of each type that the record lists.
pub fn new_block(m: &mut [u32], l: Layout, rec: &[u8]) -> Answer
    requires sound_store { SoundStore l m.old }
    requires passed { Passed (kind_number NewBlock) (fields_of rec.now) }
    ensures { Performed l (edit_by NewBlock (fields_of rec.now)) m.old m.new result }
{
    let n = edit::field(rec, 0) as usize;
    let want = Five {
        blocks: 1,
        values: n,
        ..Five::default()
    };
    let v = View {
        words: m,
        layout: l,
    };
    test_room(&v, want)?;
    let x = v.next_number(Kind::Block);
    let b = context::basic_block::birth_block(m, l);
    let k = context::values_of(l, Member::Block, b);
    for j in 0..n {
        let t = edit::field(rec, 1 + j);
        context::value::birth_value(m, l, k, j, t);
    }
    Ok((x, 0))
}

// Refused where one of the definitions that a new operation's record lists for a slot is not there.
fn test_names(v: &View, rec: &[u8], n: Parts, sl: Slot) -> Result<(), Refusal>
    requires passed { Passed (kind_number NewOperation) (fields_of rec.now) }
    requires counts { Counts (fields_of rec.now) n }
    ensures { NamesIs v.now.layout (slot_of sl) (fields_of rec.now) (uses_from n (slot_of sl)) (uses_many n (slot_of sl)) v.now.words.now (code_of result) }
{
    let (at, many) = n.uses_at(sl);
    for j in 0..many {
        let d = edit::field(rec, at + j);
        v.look_up(context::definition_kind(sl), d)?;
    }
    Ok(())
}

// The tests of a new operation whose record lists so many.
fn test_operation(v: &View, rec: &[u8], n: Parts) -> Result<(), Refusal>
    requires passed { Passed (kind_number NewOperation) (fields_of rec.now) }
    requires counts { Counts (fields_of rec.now) n }
    ensures { OperationTested v.now.layout (fields_of rec.now) n v.now.words.now (code_of result) }
{
    test_names(v, rec, n, Slot::Operand)?;
    test_names(v, rec, n, Slot::Successor)?;
    let want = Five {
        operations: 1,
        regions: n.regions,
        values: n.results,
        uses: n.operands + n.successors,
        ..Five::default()
    };
    test_room(v, want)
}

// The results of a new operation at `o` are born.
fn bear_results(m: &mut [u32], l: Layout, rec: &[u8], n: Parts, o: usize)
    requires { Underway l (fields_of rec.now) n o (grown (fields_of rec.now) n 0 0 0 0) m.old }
    ensures { Onward l (fields_of rec.now) n o (grown (fields_of rec.now) n 0 0 0 0) (grown (fields_of rec.now) n n.results 0 0 0) m.old m.new }
{
    let k = context::values_of(l, Member::Operation, o);
    for j in 0..n.results {
        let t = edit::field(rec, 5 + j);
        context::value::birth_value(m, l, k, j, t);
    }
}

// A use of the definition with the number `d` is born at index `i` of the slot of the operation at `o`.
fn bear_use(m: &mut [u32], l: Layout, sl: Slot, o: usize, i: usize, d: u32)
    requires sound_store { SoundStore l m.old }
    requires can_use { CanUse l (slot_of sl) o d m.old }
    ensures { Used l (slot_of sl) o i d m.old m.new }
{
    let v = View {
        words: m,
        layout: l,
    };
    let p = v.find(context::definition_kind(sl), d).unwrap();
    let s = context::slots_of(l, sl, o);
    let k = context::use_set_of(l, sl, p);
    context::value::birth_use(m, l, s, i, k);
}

// The uses in a slot of a new operation at `o` are born.
fn bear_uses(m: &mut [u32], l: Layout, rec: &[u8], n: Parts, sl: Slot, o: usize)
    requires { Underway l (fields_of rec.now) n o (with_uses (fields_of rec.now) n (slot_of sl) 0) m.old }
    ensures { Onward l (fields_of rec.now) n o (with_uses (fields_of rec.now) n (slot_of sl) 0) (with_uses (fields_of rec.now) n (slot_of sl) (uses_many n (slot_of sl))) m.old m.new }
{
    let (at, many) = n.uses_at(sl);
    for j in 0..many {
        let d = edit::field(rec, at + j);
        bear_use(m, l, sl, o, j, d);
    }
}

// Kind 1: an operation with its results, operands, successors and regions.
pub fn new_operation(m: &mut [u32], l: Layout, rec: &[u8]) -> Answer
    requires sound_store { SoundStore l m.old }
    requires passed { Passed (kind_number NewOperation) (fields_of rec.now) }
    ensures { Performed l (edit_by NewOperation (fields_of rec.now)) m.old m.new result }
{
    let n = Parts::of(rec);
    let v = View {
        words: m,
        layout: l,
    };
    test_operation(&v, rec, n)?;
    let x = v.next_number(Kind::Operation);
    let o = context::operation::birth_op(m, l, edit::field(rec, 0));
    bear_results(m, l, rec, n, o);
    bear_uses(m, l, rec, n, Slot::Operand, o);
    bear_uses(m, l, rec, n, Slot::Successor, o);
    for _ in 0..n.regions {
        context::region::birth_region(m, l, o);
    }
    Ok((x, 0))
}
