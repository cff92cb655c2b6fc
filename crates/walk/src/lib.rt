// Dropping, erasing and verdicts: walks over the nest of operations, regions and blocks.
// Ported from pliron 0.20.0 (Apache-2.0): drop_all_uses, erase and verify of src/operation.rs, src/basic_block.rs and src/region.rs.
#![tactic(auto)]

ghost use Rattle.std.specs.Prelude.{◌≡◌, ◌||◌, ◌≤◌, ◌<◌, length};
ghost use Rattle.std.specs.Int.{from_bool};
ghost use Rattle.places.specs.Store.{op, blk, reg, usg, use_sets, vals, Live, up};
ghost use Rattle.places.specs.Verdict.{terminates, lackable, place_ends_well, place_names_block, place_leads_to, place_lost_pred, place_too_early};
ghost use Rattle.rules.specs.Table.{any, some_and};
ghost use Rattle.edit.specs.Answer.{numbers_of};
ghost use Rattle.edit.specs.Kinds.{code_of, member_of, thing_of};
ghost use Rattle.edit.specs.declared.Nested.TheVariants.{Operation};
ghost use Rattle.edit.specs.Record.{drop_uses, erase_region, verdict};
ghost use Rattle.context.specs.Kinds.{fam_of};
ghost use Rattle.context.specs.Layout.{nc_of};
ghost use Rattle.context.specs.Memory.{con, state_of, SoundStore};
ghost use Rattle.context.specs.Nest.{nested_kind, thing_at};
ghost use Rattle.context.specs.Performed.{Performed};
ghost use Rattle.context.specs.Reading.{list_of};
ghost use Rattle.context.specs.Steps.{CanEnd, Ended};
ghost use Rattle.walk.specs.Drop.{walked, CanDrop, Dropped, CanOwn, OwnTallied, Tallied};
ghost use Rattle.walk.specs.Judge.{user_leads, Answers, reply_of, BlockAlone, OpJudged, BlockJudged, RegionJudged};
ghost use Rattle.walk.specs.Tests.{within, alone, DepthIs, Testable, Given, stray, stray_set, stray_value, stray_thing, marks_in, erase_code, Zeros, Tested, Scratch};
ghost use Rattle.walk.specs.Erase.{CanErase, Erased, CanEndValues, EndedValues, OwnEnded, inner_kind, own_reach, EraseAnswer, erase_by};

use context::view::View;
use context::{Family, Kind, Layout, Thing, slots_of, use_set_of, values_of};
use edit::{Answer, Member, Nested, Refusal, Slot};

// What a walk over the nest counts: operations freed and uses ended.
#[derive(Clone, Copy)]
pub struct Tally {
    pub freed: u32,
    pub ended: u32,
}

// What a verdict finds first, with the number of the block or operation that it finds it at.
#[derive(Clone, Copy, Debug, PartialEq, Eq)]
pub enum Fault {
    Unlinked(u32),
    NoTerminator(u32),
    TooEarly(u32),
    LostPredecessor(u32),
    StrayUser,
}

// The document's answer: A is the fault and B the number, but a stray user is a refusal.
impl From<Fault> for Answer {
    ghost from_gives = { Answers };

    fn from(fault: Fault) -> Answer {
        match fault {
            Fault::Unlinked(n) => Ok((1, n)),
            Fault::NoTerminator(n) => Ok((2, n)),
            Fault::TooEarly(n) => Ok((3, n)),
            Fault::LostPredecessor(n) => Ok((4, n)),
            Fault::StrayUser => Err(Refusal::StrayUser),
        }
    }
}

// The operation's own uses end, and the tally rises by it and by them.
#[inline(always)]
fn drop_own(m: &mut [u32], l: Layout, o: usize, t: &mut Tally)
    requires { CanOwn l o t.old m.old }
    ensures { OwnTallied l o t.old m.old m.new t.new }
{
    let operands = context::operation::drop_slots(m, l, slots_of(l, Slot::Operand, o));
    let successors = context::operation::drop_slots(m, l, slots_of(l, Slot::Successor, o));
    t.freed += 1;
    t.ended += (operands + successors) as u32;
}

// Kept (point 2): dropping has three functions that call each other over the nest, by a rule of the project.
// Kept (point 5): `left` stays a real count, since functions that call each other may have no ghost value.
// All uses in the operation at the place `o` end, its own included. `left` operations are not yet reached; the number left after is handed back.
#[cycle(drop_block_drop_operation_drop_region)]
pub fn drop_operation(m: &mut [u32], l: Layout, o: usize, left: usize, t: &mut Tally) -> usize
    requires { CanDrop l (op, o) (walked left t.old) m.old }
    ensures { Dropped l (op, o) (walked left t.old) m.old m.new (walked result t.new) }
{
    drop_own(m, l, o, t);
    let mut n = left - 1;
    let v = View {
        words: m,
        layout: l,
    };
    let mut next = v.first_of(Family::Regions, o);
    while let Some(r) = next {
        n = drop_region(m, l, r, n, t);
        let v = View {
            words: m,
            layout: l,
        };
        next = v.next_of(Family::Regions, r);
    }
    n
}

// All uses in the region at the place `r` end.
#[cycle(drop_block_drop_operation_drop_region)]
#[inline(always)]
pub fn drop_region(m: &mut [u32], l: Layout, r: usize, left: usize, t: &mut Tally) -> usize
    requires { CanDrop l (reg, r) (walked left t.old) m.old }
    ensures { Dropped l (reg, r) (walked left t.old) m.old m.new (walked result t.new) }
{
    let mut n = left;
    let v = View {
        words: m,
        layout: l,
    };
    let mut next = v.first_of(Family::Blocks, r);
    while let Some(b) = next {
        n = drop_block(m, l, b, n, t);
        let v = View {
            words: m,
            layout: l,
        };
        next = v.next_of(Family::Blocks, b);
    }
    n
}

// All uses in the block at the place `b` end.
#[cycle(drop_block_drop_operation_drop_region)]
#[inline(always)]
pub fn drop_block(m: &mut [u32], l: Layout, b: usize, left: usize, t: &mut Tally) -> usize
    requires { CanDrop l (blk, b) (walked left t.old) m.old }
    ensures { Dropped l (blk, b) (walked left t.old) m.old m.new (walked result t.new) }
{
    let mut n = left;
    let v = View {
        words: m,
        layout: l,
    };
    let mut next = v.first_of(Family::Operations, b);
    while let Some(o) = next {
        n = drop_operation(m, l, o, n, t);
        let v = View {
            words: m,
            layout: l,
        };
        next = v.next_of(Family::Operations, o);
    }
    n
}

// All uses in the thing end.
fn drop_inside(m: &mut [u32], l: Layout, x: Thing, left: usize, t: &mut Tally) -> usize
    requires { CanDrop l (thing_at x) (walked left t.old) m.old }
    ensures { Dropped l (thing_at x) (walked left t.old) m.old m.new (walked result t.new) }
{
    match x.kind {
        Nested::Operation => drop_operation(m, l, x.place, left, t),
        Nested::Block => drop_block(m, l, x.place, left, t),
        Nested::Region => drop_region(m, l, x.place, left, t),
    }
}

// All uses in the thing end; the tally says how many operations lie in it and how many uses ended.
fn drop_tallied(m: &mut [u32], l: Layout, x: Thing) -> Tally
    requires sound_store { SoundStore l m.old }
    requires live { Live (state_of l m.old) (thing_at x) }
    ensures { Tallied l (thing_at x) m.old m.new result }
{
    let v = View {
        words: m,
        layout: l,
    };
    let left = v.live_count(Kind::Operation);
    let mut t = Tally { freed: 0, ended: 0 };
    drop_inside(m, l, x, left, &mut t);
    t
}

// Edits 36, 37, 38: all uses in the thing of this kind with this number end. Refused: 7, 8, 9 by the kind.
pub fn drop_uses(m: &mut [u32], l: Layout, kind: Nested, number: u32) -> Answer
    requires { SoundStore l m.old }
    ensures { Performed l (drop_uses (thing_of kind number)) m.old m.new result }
{
    let v = View {
        words: m,
        layout: l,
    };
    let place = v.look_up(Kind::from(kind), number)?;
    let t = drop_tallied(m, l, Thing { kind, place });
    Ok((0, t.ended))
}

// Whether the operation at the place `o` is a terminator.
#[inline(always)]
fn is_terminator(v: &View, o: usize) -> bool
    requires { Live (state_of v.now.layout v.now.words.now) (op, o) }
    ensures { result ≡ terminates (state_of v.now.layout v.now.words.now) (op, o) }
{
    v.flags_of(o) % 2 == 1
}

// Whether its blocks may lack a terminator.
#[inline(always)]
fn may_lack(v: &View, o: usize) -> bool
    requires { Live (state_of v.now.layout v.now.words.now) (op, o) }
    ensures { result ≡ lackable (state_of v.now.layout v.now.words.now) (op, o) }
{
    2 <= v.flags_of(o)
}

// Kept (point 1): `match` in this and two functions below, since a closure for `is_some_and` that holds a View gets no `ensures` by itself.
// Whether the block ends in a terminator.
#[inline(always)]
fn ends_well(v: &View, b: usize) -> bool
    requires { Live (state_of v.now.layout v.now.words.now) (blk, b) }
    ensures { result ≡ place_ends_well (state_of v.now.layout v.now.words.now) (blk, b) }
{
    match v.last_of(Family::Operations, b) {
        Some(o) => is_terminator(v, o),
        None => false,
    }
}

// Whether a successor of the operation is the block.
#[inline(always)]
fn names_block(v: &View, b: usize, o: usize) -> bool
    requires { Live (state_of v.now.layout v.now.words.now) (blk, b) × Live (state_of v.now.layout v.now.words.now) (op, o) }
    ensures { result ≡ place_names_block (state_of v.now.layout v.now.words.now) (blk, b) (op, o) }
{
    let uses_of_block = use_set_of(v.layout, Slot::Successor, b);
    v.any_of(
        Family::Slots,
        slots_of(v.layout, Slot::Successor, o),
        |u| v.home_of(Family::UseSets, u) == Some(uses_of_block),
    )
}

// Whether the block at the place `p` ends in a terminator that names the block at `b`.
#[inline(always)]
fn leads_to(v: &View, b: usize, p: usize) -> bool
    requires { Live (state_of v.now.layout v.now.words.now) (blk, b) × Live (state_of v.now.layout v.now.words.now) (blk, p) }
    ensures { result ≡ place_leads_to (state_of v.now.layout v.now.words.now) (blk, b) (blk, p) }
{
    match v.last_of(Family::Operations, p) {
        Some(o) => is_terminator(v, o) && names_block(v, b, o),
        None => false,
    }
}

// Whether the block of the use's user leads to the block at the place `b`.
#[inline(always)]
fn user_leads(v: &View, b: usize, u: usize) -> bool
    requires { Live (state_of v.now.layout v.now.words.now) (blk, b) × Live (state_of v.now.layout v.now.words.now) (usg, u) }
    ensures { result ≡ user_leads (state_of v.now.layout v.now.words.now) (blk, b) (usg, u) }
{
    match v.block_of(u) {
        Some(p) => leads_to(v, b, p),
        None => false,
    }
}

// Whether a predecessor of the block does not lead to it.
#[inline(always)]
fn lost_pred(v: &View, b: usize) -> bool
    requires { Live (state_of v.now.layout v.now.words.now) (blk, b) }
    ensures { result ≡ place_lost_pred (state_of v.now.layout v.now.words.now) (blk, b) }
{
    for u in v.nodes(Family::UseSets, use_set_of(v.layout, Slot::Successor, b)) {
        if !user_leads(v, b, u) {
            return true;
        }
    }
    false
}

// Whether the block at the place `b` of the region at `r` ends as it has to.
#[inline(always)]
fn ended(v: &View, b: usize, r: usize) -> bool
    requires { Live (state_of v.now.layout v.now.words.now) (blk, b) × Live (state_of v.now.layout v.now.words.now) (reg, r) }
    ensures { result ≡ (some_and (up (state_of v.now.layout v.now.words.now) (reg, r)) (lackable (state_of v.now.layout v.now.words.now)) || place_ends_well (state_of v.now.layout v.now.words.now) (blk, b)) }
{
    let o = v.home_of(Family::Regions, r).unwrap();
    may_lack(v, o) || ends_well(v, b)
}

// The tests of a block by itself.
#[inline(always)]
fn judge_block(v: &View, b: usize) -> Result<(), Fault>
    requires { Live (state_of v.now.layout v.now.words.now) (blk, b) }
    ensures { BlockAlone v.now.layout b v.now.words.now result }
{
    let n = v.number_of(Kind::Block, b);
    let r = v.home_of(Family::Blocks, b).ok_or(Fault::Unlinked(n))?;
    if !ended(v, b, r) {
        return Err(Fault::NoTerminator(n));
    }
    if v.stray_user(b) {
        return Err(Fault::StrayUser);
    }
    if lost_pred(v, b) {
        return Err(Fault::LostPredecessor(n));
    }
    Ok(())
}

// Whether the operation may stand where it does: no terminator has a next operation.
#[inline(always)]
fn judge_end(v: &View, o: usize) -> Result<(), Fault>
    requires { Live (state_of v.now.layout v.now.words.now) (op, o) }
    ensures { reply_of result ≡ place_too_early (state_of v.now.layout v.now.words.now) (op, o) }
{
    if is_terminator(v, o) && v.next_of(Family::Operations, o).is_some() {
        return Err(Fault::TooEarly(v.number_of(Kind::Operation, o)));
    }
    Ok(())
}

// Kept (point 2): the three differ in the list and in what is tested beside it (a block before its list, an operation after it), so that one over Nested asks its kind twice and is no shorter.
// The verdict on the operation at the place `o`: its regions in order, then its end. The published tests of uses and definitions
// always pass on a sound store (places, proofs/DefUse) and are left out.
#[cycle(verify_block_verify_operation_verify_region)]
pub fn verify_operation(v: &View, o: usize) -> Result<(), Fault>
    requires { Live (state_of v.now.layout v.now.words.now) (op, o) }
    ensures { OpJudged v.now.layout o v.now.words.now result }
{
    for r in v.nodes(Family::Regions, o) {
        verify_region(v, r)?;
    }
    judge_end(v, o)
}

// The verdict on the region at the place `r`: its blocks in order.
#[cycle(verify_block_verify_operation_verify_region)]
#[inline(always)]
pub fn verify_region(v: &View, r: usize) -> Result<(), Fault>
    requires { Live (state_of v.now.layout v.now.words.now) (reg, r) }
    ensures { RegionJudged v.now.layout r v.now.words.now result }
{
    for b in v.nodes(Family::Blocks, r) {
        verify_block(v, b)?;
    }
    Ok(())
}

// The verdict on the block at the place `b`: the block by itself, then its operations in order.
#[cycle(verify_block_verify_operation_verify_region)]
pub fn verify_block(v: &View, b: usize) -> Result<(), Fault>
    requires { Live (state_of v.now.layout v.now.words.now) (blk, b) }
    ensures { BlockJudged v.now.layout b v.now.words.now result }
{
    judge_block(v, b)?;
    for o in v.nodes(Family::Operations, b) {
        verify_operation(v, o)?;
    }
    Ok(())
}

// The answer to what was judged.
#[inline(always)]
fn answer_of(judged: Result<(), Fault>) -> Answer
    ensures { numbers_of result ≡ reply_of judged }
{
    match judged {
        Ok(()) => Ok((0, 0)),
        Err(fault) => Answer::from(fault),
    }
}

// Edits 42, 43, 44: the verdict on the thing of this kind with this number. Refused: 7, 8, 9 by the kind.
pub fn verdict(v: &View, kind: Nested, number: u32) -> Answer
    ensures { Performed v.now.layout (verdict (thing_of kind number)) v.now.words.now v.now.words.now result }
{
    let p = v.look_up(Kind::from(kind), number)?;
    match kind {
        Nested::Operation => answer_of(verify_operation(v, p)),
        Nested::Block => answer_of(verify_block(v, p)),
        Nested::Region => answer_of(verify_region(v, p)),
    }
}

// A depth that reaches all: as many steps as things live.
#[inline(always)]
fn depth(v: &View) -> usize
    ensures { DepthIs v.now.layout v.now.words.now result }
{
    let a = v.live_count(Kind::Operation);
    let b = v.live_count(Kind::Block);
    let c = v.live_count(Kind::Region);
    let d = v.live_count(Kind::Value);
    let e = v.live_count(Kind::Use);
    a + b + c + d + e + 1
}

// The thing at this place among those that lie directly in `x`.
#[inline(always)]
fn inner(x: Thing, place: usize) -> Thing
    ensures { thing_at result ≡ (nested_kind (inner_kind x.kind), place) }
{
    let kind = match x.kind {
        Nested::Operation => Nested::Region,
        Nested::Block => Nested::Operation,
        Nested::Region => Nested::Block,
    };
    Thing { kind, place }
}

// The thing is marked or not, if it is an operation.
#[inline(always)]
fn mark_own(s: &mut [u32], x: Thing, marked: bool)
    requires { x.kind ≡ Operation → x.place < length s.old }
    ensures { Given (alone (thing_at x)) (from_bool marked) s.old s.new }
{
    if let Nested::Operation = x.kind {
        s[x.place] = u32::from(marked);
    }
}

// The operations in the thing, itself included, by fewer than `n` steps are marked or not.
fn mark_within(v: &View, s: &mut [u32], x: Thing, n: usize, marked: bool)
    requires { Testable v.now.layout x v.now.words.now s.old }
    ensures { Given (within (state_of v.now.layout v.now.words.now) n (thing_at x)) (from_bool marked) s.old s.new }
{
    if n == 0 {
        return;
    }
    mark_own(s, x, marked);
    for c in v.nodes(Family::from(x.kind), x.place) {
        mark_within(v, s, inner(x, c), n - 1, marked);
    }
}

// Kept (point 5): the view and the marks stay two parameters, since the marks are scratch, lent beside the store.
// Whether the use stands at an operation without a mark.
#[inline(always)]
fn is_stray(v: &View, s: &[u32], u: usize) -> bool
    requires long { v.now.layout.ops ≤ length s.now }
    requires live { Live (state_of v.now.layout v.now.words.now) (usg, u) }
    ensures { result ≡ stray (state_of v.now.layout v.now.words.now) (marks_in s.now) (usg, u) }
{
    let o = v.user_of(u);
    s[o] == 0
}

// Whether a use of the set `d` stands at an operation without a mark.
#[inline(always)]
fn set_strays(v: &View, s: &[u32], d: usize) -> bool
    requires long { v.now.layout.ops ≤ length s.now }
    requires d_bound { d < nc_of v.now.layout use_sets }
    ensures { result ≡ stray_set (state_of v.now.layout v.now.words.now) (marks_in s.now) (con v.now.layout use_sets d) }
{
    for u in v.nodes(Family::UseSets, d) {
        if is_stray(v, s, u) {
            return true;
        }
    }
    false
}

// Whether a use of a value of the list `c` does.
#[inline(always)]
fn values_stray(v: &View, s: &[u32], c: usize) -> bool
    requires long { v.now.layout.ops ≤ length s.now }
    requires c_bound { c < nc_of v.now.layout vals }
    ensures { result ≡ any (stray_value (state_of v.now.layout v.now.words.now) (marks_in s.now)) (list_of v.now.layout v.now.words.now (con v.now.layout vals c)) }
{
    for p in v.nodes(Family::Values, c) {
        if set_strays(v, s, p) {
            return true;
        }
    }
    false
}

// Whether a use of a definition of the thing does: of a result, of an argument, of the block itself.
#[inline(always)]
fn own_strays(v: &View, s: &[u32], x: Thing) -> bool
    requires { Testable v.now.layout x v.now.words.now s.now }
    ensures { result ≡ stray_thing (state_of v.now.layout v.now.words.now) (marks_in s.now) (thing_at x) }
{
    match x.kind {
        Nested::Operation => values_stray(v, s, values_of(v.layout, Member::Operation, x.place)),
        Nested::Block => {
            set_strays(v, s, use_set_of(v.layout, Slot::Successor, x.place))
                || values_stray(v, s, values_of(v.layout, Member::Block, x.place))
        }
        Nested::Region => false,
    }
}

// Kept (point 2): a closure for `any_of` that calls back needs clauses of its own, which are longer than the loop.
// Whether anything in the thing, itself included, by fewer than `n` steps is used at an operation without a mark.
fn strays_within(v: &View, s: &[u32], x: Thing, n: usize) -> bool
    requires { Testable v.now.layout x v.now.words.now s.now }
    ensures { result ≡ any (stray_thing (state_of v.now.layout v.now.words.now) (marks_in s.now)) (within (state_of v.now.layout v.now.words.now) n (thing_at x)) }
{
    if n == 0 {
        return false;
    }
    if own_strays(v, s, x) {
        return true;
    }
    for c in v.nodes(Family::from(x.kind), x.place) {
        if strays_within(v, s, inner(x, c), n - 1) {
            return true;
        }
    }
    false
}

// Refused by the marks: 13 for what lies in the thing by fewer than `n` steps, 14 for all in it.
fn test_marked(v: &View, s: &[u32], x: Thing, n: usize, deep: usize) -> Result<(), Refusal>
    requires testable { Testable v.now.layout x v.now.words.now s.now }
    requires depth_is { DepthIs v.now.layout v.now.words.now deep }
    ensures { code_of result ≡ erase_code (state_of v.now.layout v.now.words.now) (marks_in s.now) n (thing_at x) }
{
    if strays_within(v, s, x, n) {
        return Err(Refusal::Used);
    }
    if strays_within(v, s, x, deep) {
        return Err(Refusal::UsedInside);
    }
    Ok(())
}

// The same, of a thing that gets its marks for the time of the test.
fn test_erase(v: &View, s: &mut [u32], x: Thing, n: usize) -> Result<(), Refusal>
    requires { Testable v.now.layout x v.now.words.now s.old × Zeros s.old }
    ensures { Tested v.now.layout (thing_at x) n v.now.words.now s.old s.new result }
{
    let deep = depth(v);
    mark_within(v, s, x, deep, true);
    let r = test_marked(v, s, x, n, deep);
    mark_within(v, s, x, deep, false);
    r
}

// The values of the list `c` end, the first one first.
#[inline(always)]
fn end_values(m: &mut [u32], l: Layout, c: usize)
    requires { CanEndValues l c m.old }
    ensures { EndedValues l c m.old m.new }
{
    while let Some(v) = context::first_of(m, l, Family::Values, c) {
        context::value::end_value(m, l, v);
    }
}

// The results of an operation and the arguments of a block end; a region has none.
#[inline(always)]
fn end_own(m: &mut [u32], l: Layout, x: Thing)
    requires { CanErase l (thing_at x) m.old }
    ensures { OwnEnded l (thing_at x) m.old m.new }
{
    match x.kind {
        Nested::Operation => end_values(m, l, values_of(l, Member::Operation, x.place)),
        Nested::Block => end_values(m, l, values_of(l, Member::Block, x.place)),
        Nested::Region => {}
    }
}

// The thing itself ends.
#[inline(always)]
fn end_thing(m: &mut [u32], l: Layout, x: Thing)
    requires sound_store { SoundStore l m.old }
    requires can_end { CanEnd (state_of l m.old) (thing_at x) }
    ensures { Ended l (thing_at x) m.old m.new }
{
    match x.kind {
        Nested::Operation => context::operation::end_operation(m, l, x.place),
        Nested::Block => context::basic_block::end_block(m, l, x.place),
        Nested::Region => context::region::end_region(m, l, x.place),
    }
}

// The thing ends, with all that lies in it: its values, then what lies in it, then itself.
pub fn erase_inside(m: &mut [u32], l: Layout, x: Thing)
    requires { CanErase l (thing_at x) m.old }
    ensures { Erased l (thing_at x) m.old m.new }
{
    end_own(m, l, x);
    while let Some(c) = context::first_of(m, l, Family::from(x.kind), x.place) {
        erase_inside(m, l, inner(x, c));
    }
    end_thing(m, l, x);
}

// By fewer than how many steps a use from outside is one of the thing's own (13): of an operation, of a block or its operations.
#[inline(always)]
fn own_reach(k: Nested) -> usize
    ensures { result ≡ own_reach k }
{
    match k {
        Nested::Operation => 1,
        Nested::Block => 2,
        Nested::Region => 0,
    }
}

// The thing is erased, unless what lies in it is used from outside: 13 within its own reach, else 14.
// All tests come before the first store.
fn erase_found(m: &mut [u32], l: Layout, s: &mut [u32], x: Thing) -> Answer
    requires sound_store { SoundStore l m.old }
    requires testable { Testable l x m.old s.old × Zeros s.old }
    ensures erase_answer { EraseAnswer l (thing_at x) (own_reach x.kind) m.old m.new result }
    ensures scratch { Scratch l s.new }
{
    let v = View {
        words: m,
        layout: l,
    };
    test_erase(&v, s, x, own_reach(x.kind))?;
    let t = drop_tallied(m, l, x);
    erase_inside(m, l, x);
    Ok((t.freed, t.ended))
}

// Edits 39 and 40: the operation or block with this number is erased. Refused: 7 or 8 by the kind, 13, 14.
// The scratch is lent with zeros, and has zeros again.
pub fn erase(m: &mut [u32], l: Layout, s: &mut [u32], w: Member, number: u32) -> Answer
    requires sound_store { SoundStore l m.old }
    requires scratch { Scratch l s.old }
    ensures performed { Performed l (erase_by (member_of w) number) m.old m.new result }
    ensures scratch_2 { Scratch l s.new }
{
    let v = View {
        words: m,
        layout: l,
    };
    let place = v.look_up(Kind::from(w), number)?;
    let kind = Nested::from(w);
    erase_found(m, l, s, Thing { kind, place })
}

// Edit 41: the region of the operation with this number, at this index, is erased. Refused: 7, 12, 14.
pub fn erase_region(m: &mut [u32], l: Layout, s: &mut [u32], number: u32, index: usize) -> Answer
    requires sound_store { SoundStore l m.old }
    requires scratch { Scratch l s.old }
    ensures performed { Performed l (erase_region number index) m.old m.new result }
    ensures scratch_2 { Scratch l s.new }
{
    let v = View {
        words: m,
        layout: l,
    };
    let o = v.look_up(Kind::Operation, number)?;
    if v.row_length(Family::Regions, o) <= index {
        return Err(Refusal::NoIndex);
    }
    let kind = Nested::Region;
    let place = v.nth_of(Family::Regions, o, index);
    erase_found(m, l, s, Thing { kind, place })
}
