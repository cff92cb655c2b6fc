// Regions, after region.rs of pliron 0.20.0 (Apache-2.0): birth, end, move to another operation.
ghost use Rattle.places.specs.Store.{Live, reg};
ghost use Rattle.context.specs.Memory.{state_of, SoundStore};
ghost use Rattle.context.specs.Steps.{CanHold, BorneRegion, CanEnd, Ended, SwappedOut, CanMoveRegion, MovedRegion};

use super::lists::{detach, enter_back, enter_before, leave};
use super::view::View;
use super::{Family, Kind, Layout, bear, finish};

// A region is born, last in the operation at the place `o`.
pub fn birth_region(m: &mut [u32], l: Layout, o: usize) -> usize
    requires sound_store { SoundStore l m.old }
    requires can_hold { CanHold (state_of l m.old) o l.regions }
    ensures { BorneRegion l o m.old m.new result }
{
    let p = bear(m, l, Kind::Region);
    enter_back(m, l, Family::Regions, o, p);
    p
}

// Kept (point 2): a helper shared with end_block is no plainer: it has to ask that `f` orders things of the kind `k`, which are no uses and have no tags, to make two calls.
// The region at the place `r`, with no blocks, leaves its operation, whose other regions keep their order, and ends.
pub fn end_region(m: &mut [u32], l: Layout, r: usize)
    requires sound_store { SoundStore l m.old }
    requires can_end { CanEnd (state_of l m.old) (reg, r) }
    ensures { Ended l (reg, r) m.old m.new }
{
    detach(m, l, Family::Regions, r);
    finish(m, l, Kind::Region, r);
}

// The region at the place `r` leaves its operation, whose last region takes the gap.
fn swap_out(m: &mut [u32], l: Layout, r: usize)
    requires sound_store { SoundStore l m.old }
    requires live { Live (state_of l m.old) (reg, r) }
    ensures { SwappedOut l r m.old m.new }
{
    let v = View {
        words: m,
        layout: l,
    };
    let o = v.home_of(Family::Regions, r).unwrap();
    let last = v.last_of(Family::Regions, o).unwrap();
    if last != r {
        leave(m, l, Family::Regions, last);
        enter_before(m, l, Family::Regions, r, last);
    }
    leave(m, l, Family::Regions, r);
}

// The region at the place `r` moves to the operation at `o`, last; the last region of the old one takes the gap.
pub fn move_region(m: &mut [u32], l: Layout, r: usize, o: usize)
    requires sound_store { SoundStore l m.old }
    requires can_move_region { CanMoveRegion (state_of l m.old) r o }
    ensures { MovedRegion l r o m.old m.new }
{
    swap_out(m, l, r);
    enter_back(m, l, Family::Regions, o, r);
}
