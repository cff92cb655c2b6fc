// Blocks, after basic_block.rs of pliron 0.20.0 (Apache-2.0): birth and end.
ghost use Rattle.places.specs.Store.{blk};
ghost use Rattle.context.specs.Memory.{state_of, SoundStore, RoomFor};
ghost use Rattle.context.specs.Steps.{BorneBlock, CanEnd, Ended};

use super::lists::detach;
use super::{Family, Kind, Layout, bear, finish};

// A block is born, in no region and with empty lists.
pub fn birth_block(m: &mut [u32], l: Layout) -> usize
    requires sound_store { SoundStore l m.old }
    requires room_for { RoomFor (state_of l m.old) blk l.blocks }
    ensures { BorneBlock l m.old m.new result }
{
    bear(m, l, Kind::Block)
}

// The block at the place `b`, linked or not, with nothing in its lists, ends.
pub fn end_block(m: &mut [u32], l: Layout, b: usize)
    requires sound_store { SoundStore l m.old }
    requires can_end { CanEnd (state_of l m.old) (blk, b) }
    ensures { Ended l (blk, b) m.old m.new }
{
    detach(m, l, Family::Blocks, b);
    finish(m, l, Kind::Block, b);
}
