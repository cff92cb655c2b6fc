// What the tests are handed: the things of a kind by place, and the lists of a family, each in its slice.
ghost use Rattle.std.specs.Prelude.{◌≡◌};
ghost use Rattle.table.specs.Table.{Shape};
ghost use Rattle.linked_list.specs.Links.{Linked};

use linked_list::Lists;

// The order and the stamps of the things of a kind, by place.
#[derive(Clone, Copy)]
pub struct Births<'a> {
    pub words: &'a [u32],
    pub places: usize,
    pub ghost shape: { Shape places words.now },
}

// The lists of a family, and the things that are its nodes.
#[derive(Clone, Copy)]
pub struct Rows<'a> {
    pub words: &'a [u32],
    pub lists: Lists,
    pub nodes: Births<'a>,
    pub ghost linked: { ∥ Linked lists.nc lists.nn words.now ∥₁ },
    pub ghost sized: { lists.nn ≡ nodes.places },
}

// The three families of the nest: the operations of blocks, the blocks of regions, the regions of operations.
#[derive(Clone, Copy)]
pub struct Nest<'a> {
    pub ops: Rows<'a>,
    pub blocks: Rows<'a>,
    pub regions: Rows<'a>,
    pub ghost in_blocks: { ops.lists.nc ≡ blocks.nodes.places },
    pub ghost in_regions: { blocks.lists.nc ≡ regions.nodes.places },
    pub ghost in_ops: { regions.lists.nc ≡ ops.nodes.places },
}
