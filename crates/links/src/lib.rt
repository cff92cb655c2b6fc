// The edits on links, 21 to 31: operations in blocks, blocks in regions, regions of operations. Ported from pliron 0.20.0
// (linked_list.rs, operation.rs, basic_block.rs, region.rs; Apache-2.0).
// A member is what is put into a container: an operation into a block, or a block into a region.
#![tactic(auto)]

ghost use Rattle.std.specs.Prelude.{◌≡◌, suc, ◌+◌, ◌<◌};
ghost use Rattle.seqs.specs.Seqs.{Says, count};
ghost use Rattle.edit.specs.Kinds.{member_of, code_of};
ghost use Rattle.edit.specs.Record.{link_after, link_before, link_front, link_back, unlink, move_region};
ghost use Rattle.places.specs.Store.{op, blk, reg, Live, Thing-dec, up};
ghost use Rattle.places.specs.Walk.{walk};
ghost use Rattle.places.specs.Members.{member_at, container_at, enter_code, beside_code};
ghost use Rattle.places.specs.Roles.{container_kind};
ghost use Rattle.context.specs.Kinds.{kind_of};
ghost use Rattle.context.specs.Nest.{nested_kind, thing_at};
ghost use Rattle.context.specs.Memory.{state_of, SoundStore};
ghost use Rattle.context.specs.Performed.{Performed};
ghost use Rattle.links.specs.Climbing.{climbed, thrice, StepIs, container_steps};
ghost use Rattle.links.specs.Tests.{EnterTested, BesideTested};
ghost use Rattle.links.specs.Moving.{MayMove, MoveTested};

use context::view::View;
use context::{Family, Kind, Layout, Thing};
use edit::{Answer, MOST_LISTED, Member, Nested, Refusal};

// Kept (point 1): the climb has three outcomes; in an Option of a Result the two ends would lose their names.
// Where a part of the climb comes to: at its end, at what it looks for, or at the operation at a place.
#[derive(Clone, Copy)]
enum Step {
    Ended,
    Met,
    At(usize),
}

// The kind of what a member stands in.
fn container(w: Member) -> Kind
    ensures { kind_of result ≡ container_kind (member_of w) }
{
    match w {
        Member::Operation => Kind::Block,
        Member::Block => Kind::Region,
    }
}

// The member at the place `n`.
fn member(w: Member, n: usize) -> Thing
    ensures { thing_at result ≡ member_at (member_of w) n }
{
    Thing {
        kind: Nested::from(w),
        place: n,
    }
}

// Whether `x` is the thing of this kind at this place.
fn is_at(x: Thing, kind: Nested, place: usize) -> bool
    ensures { Says result (thing_at x ≡ (nested_kind kind, place)) }
{
    x == (Thing { kind, place })
}

// From the region at `r` up to its operation, unless the region is `x`.
fn region_step(v: &View, x: Thing, r: usize) -> Step
    requires { Live (state_of v.now.layout v.now.words.now) (reg, r) }
    ensures { StepIs (state_of v.now.layout v.now.words.now) (thing_at x) (reg, r) (λ n. suc n) result }
{
    if is_at(x, Nested::Region, r) {
        return Step::Met;
    }
    v.home_of(Family::Regions, r).map_or(Step::Ended, Step::At)
}

// The same from the block at `b`, over its region; a block in none is an end.
fn block_step(v: &View, x: Thing, b: usize) -> Step
    requires { Live (state_of v.now.layout v.now.words.now) (blk, b) }
    ensures { StepIs (state_of v.now.layout v.now.words.now) (thing_at x) (blk, b) (λ n. suc (suc n)) result }
{
    if is_at(x, Nested::Block, b) {
        return Step::Met;
    }
    let Some(r) = v.home_of(Family::Blocks, b) else {
        return Step::Ended;
    };
    region_step(v, x, r)
}

// The same from the container at `c`, a block or a region.
fn container_step(v: &View, w: Member, x: Thing, c: usize) -> Step
    requires { Live (state_of v.now.layout v.now.words.now) (container_at (member_of w) c) }
    ensures { StepIs (state_of v.now.layout v.now.words.now) (thing_at x) (container_at (member_of w) c) (container_steps (member_of w)) result }
{
    match w {
        Member::Operation => block_step(v, x, c),
        Member::Block => region_step(v, x, c),
    }
}

// Whether the operation at `o` is `x`, or lies in it: climbs from parent to parent.
fn operation_in(v: &View, x: Thing, o: usize, depth: usize) -> bool
    requires { Live (state_of v.now.layout v.now.words.now) (op, o) }
    ensures { Says result (0 < climbed (up (state_of v.now.layout v.now.words.now)) (thrice depth) (thing_at x) (op, o)) }
{
    if depth == 0 {
        return false;
    }
    if is_at(x, Nested::Operation, o) {
        return true;
    }
    let Some(b) = v.home_of(Family::Operations, o) else {
        return false;
    };
    match block_step(v, x, b) {
        Step::Ended => false,
        Step::Met => true,
        Step::At(p) => operation_in(v, x, p, depth - 1),
    }
}

// Whether the container at `c` lies in the member at `n`. A member that holds nothing needs no climb.
fn contained_in(v: &View, w: Member, n: usize, c: usize) -> bool
    requires live { Live (state_of v.now.layout v.now.words.now) (member_at (member_of w) n) }
    requires live_2 { Live (state_of v.now.layout v.now.words.now) (container_at (member_of w) c) }
    ensures { Says result (0 < count Thing-dec (container_at (member_of w) c) (walk (state_of v.now.layout v.now.words.now) (member_at (member_of w) n))) }
{
    let x = member(w, n);
    if v.first_of(Family::from(x.kind), x.place).is_none() {
        return false;
    }
    match container_step(v, w, x, c) {
        Step::Ended => false,
        Step::Met => true,
        Step::At(o) => operation_in(v, x, o, v.live_count(Kind::Operation)),
    }
}

// Refused where the member at `n` is linked already (15), and where the container at `c` lies in it (17).
fn may_enter(v: &View, w: Member, n: usize, c: usize) -> Result<(), Refusal>
    requires live { Live (state_of v.now.layout v.now.words.now) (member_at (member_of w) n) }
    requires live_2 { Live (state_of v.now.layout v.now.words.now) (container_at (member_of w) c) }
    ensures { code_of result ≡ enter_code (state_of v.now.layout v.now.words.now) (member_of w) n c }
{
    if v.home_of(Family::from(w), n).is_some() {
        return Err(Refusal::Linked);
    }
    if contained_in(v, w, n, c) {
        return Err(Refusal::InsideItself);
    }
    Ok(())
}

// Refused where the member at `n` is linked already (15), where the mark at `k` is not (16), and where the mark's container lies
// in the member (17).
fn may_stand_by(v: &View, w: Member, n: usize, k: usize) -> Result<(), Refusal>
    requires live { Live (state_of v.now.layout v.now.words.now) (member_at (member_of w) n) }
    requires live_2 { Live (state_of v.now.layout v.now.words.now) (member_at (member_of w) k) }
    ensures { code_of result ≡ beside_code (state_of v.now.layout v.now.words.now) (member_of w) n k }
{
    if v.home_of(Family::from(w), n).is_some() {
        return Err(Refusal::Linked);
    }
    let c = v.home_of(Family::from(w), k).ok_or(Refusal::Unlinked)?;
    if contained_in(v, w, n, c) {
        return Err(Refusal::InsideItself);
    }
    Ok(())
}

// The tests of the edits that put a member at the front or at the back of a container: the places of the two.
fn test_enter(v: &View, w: Member, x: u32, c: u32) -> Result<(usize, usize), Refusal>
    ensures { EnterTested v.now.layout (member_of w) x c v.now.words.now result }
{
    let n = v.look_up(Kind::from(w), x)?;
    let k = v.look_up(container(w), c)?;
    may_enter(v, w, n, k)?;
    Ok((n, k))
}

// The tests of the edits that put a member after or before a mark: the places of the two.
fn test_beside(v: &View, w: Member, x: u32, mark: u32) -> Result<(usize, usize), Refusal>
    ensures { BesideTested v.now.layout (member_of w) x mark v.now.words.now result }
{
    let n = v.look_up(Kind::from(w), x)?;
    let k = v.look_up(Kind::from(w), mark)?;
    may_stand_by(v, w, n, k)?;
    Ok((n, k))
}

// Edits 23 and 28: the member `x` comes to stand first in the container `c`. Refused: 7 to 9, 15, 17.
// Kept (point 2): it and the next differ in one call; a function over that call would be as long as the two bodies.
pub fn link_front(m: &mut [u32], l: Layout, w: Member, x: u32, c: u32) -> Answer
    requires { SoundStore l m.old }
    ensures { Performed l (link_front (member_of w) x c) m.old m.new result }
{
    let v = View {
        words: m,
        layout: l,
    };
    let (n, k) = test_enter(&v, w, x, c)?;
    context::lists::link_front(m, l, w, k, n);
    Ok((0, 0))
}

// Edits 24 and 29: the member `x` comes to stand last in the container `c`. Refused: 7 to 9, 15, 17.
pub fn link_back(m: &mut [u32], l: Layout, w: Member, x: u32, c: u32) -> Answer
    requires { SoundStore l m.old }
    ensures { Performed l (link_back (member_of w) x c) m.old m.new result }
{
    let v = View {
        words: m,
        layout: l,
    };
    let (n, k) = test_enter(&v, w, x, c)?;
    context::lists::link_back(m, l, w, k, n);
    Ok((0, 0))
}

// Edits 21 and 26: the member `x` comes to stand right after the member `mark`. Refused: 7, 8, 15, 16, 17.
// Kept (point 2): it and the next differ in one call; a function over that call would be as long as the two bodies.
pub fn link_after(m: &mut [u32], l: Layout, w: Member, x: u32, mark: u32) -> Answer
    requires { SoundStore l m.old }
    ensures { Performed l (link_after (member_of w) x mark) m.old m.new result }
{
    let v = View {
        words: m,
        layout: l,
    };
    let (n, k) = test_beside(&v, w, x, mark)?;
    context::lists::link_after(m, l, w, k, n);
    Ok((0, 0))
}

// Edits 22 and 27: the member `x` comes to stand right before the member `mark`. Refused: 7, 8, 15, 16, 17.
pub fn link_before(m: &mut [u32], l: Layout, w: Member, x: u32, mark: u32) -> Answer
    requires { SoundStore l m.old }
    ensures { Performed l (link_before (member_of w) x mark) m.old m.new result }
{
    let v = View {
        words: m,
        layout: l,
    };
    let (n, k) = test_beside(&v, w, x, mark)?;
    context::lists::link_before(m, l, w, k, n);
    Ok((0, 0))
}

// Edits 25 and 30: the member `x` leaves its container. Refused: 7, 8, 16.
pub fn unlink_from(m: &mut [u32], l: Layout, w: Member, x: u32) -> Answer
    requires { SoundStore l m.old }
    ensures { Performed l (unlink (member_of w) x) m.old m.new result }
{
    let v = View {
        words: m,
        layout: l,
    };
    let n = v.look_up(Kind::from(w), x)?;
    if v.home_of(Family::from(w), n).is_none() {
        return Err(Refusal::Unlinked);
    }
    context::lists::unlink(m, l, w, n);
    Ok((0, 0))
}

// Refused where the operation at `k` lies in the region at `n` (17) and where it has regions enough (19), but never for the
// region's own operation.
fn may_move(v: &View, n: usize, k: usize) -> Result<(), Refusal>
    requires live { Live (state_of v.now.layout v.now.words.now) (reg, n) }
    requires live_2 { Live (state_of v.now.layout v.now.words.now) (op, k) }
    ensures { MayMove (state_of v.now.layout v.now.words.now) n k (code_of result) }
{
    if v.home_of(Family::Regions, n) == Some(k) {
        return Ok(());
    }
    let x = Thing {
        kind: Nested::Region,
        place: n,
    };
    if operation_in(v, x, k, v.live_count(Kind::Operation)) {
        return Err(Refusal::InsideItself);
    }
    if v.row_length(Family::Regions, k) >= MOST_LISTED {
        return Err(Refusal::ListFull);
    }
    Ok(())
}

// The tests of the move of a region: its place, and the operation's.
fn test_move(v: &View, r: u32, o: u32) -> Result<(usize, usize), Refusal>
    ensures { MoveTested v.now.layout r o v.now.words.now result }
{
    let n = v.look_up(Kind::Region, r)?;
    let k = v.look_up(Kind::Operation, o)?;
    may_move(v, n, k)?;
    Ok((n, k))
}

// Edit 31: the region `r` moves to the operation `o`. Refused: 9, 7, 17, 19; to its own operation nothing changes.
pub fn move_region(m: &mut [u32], l: Layout, r: u32, o: u32) -> Answer
    requires { SoundStore l m.old }
    ensures { Performed l (move_region r o) m.old m.new result }
{
    let v = View {
        words: m,
        layout: l,
    };
    let (n, k) = test_move(&v, r, o)?;
    if v.home_of(Family::Regions, n) != Some(k) {
        context::region::move_region(m, l, n, k);
    }
    Ok((0, 0))
}
