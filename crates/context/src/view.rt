// A sound store lent to readers, and what they read of it.
ghost use Rattle.std.specs.Prelude.{◌≡◌, ◌<◌, length};
ghost use Rattle.places.specs.Store.{Live, op, blk, val, usg};
ghost use Rattle.places.specs.Verdict.{place_stray_user};
ghost use Rattle.context.specs.Kinds.{kind_of, fam_of};
ghost use Rattle.context.specs.Layout.{nc_of, nn_of};
ghost use Rattle.context.specs.Memory.{con, state_of, Finds, LooksUp, SoundStore, HomeIs, LengthIs, RoomIs, GrowIs, FirstIs};
ghost use Rattle.context.specs.Reading.{list_of, NextIs, HasIs, NodesAre, LastIs, NthIs, NumberIs, LiveIs, NextNumberIs, NthLiveIs, AtLive, AnyOf, TagIs, DefinitionIs, UserIs, BlockOf};

use super::{Family, Kind, Layout, family_span, missing, use_set_of};
use edit::{Refusal, Slot};
use linked_list::Nodes;

// The words of a sound store, and where their parts stand.
#[derive(Clone, Copy)]
pub struct View<'a> {
    pub words: &'a [u32],
    pub layout: Layout,
    pub ghost sound: { ∥ SoundStore layout words.now ∥₁ },
}

// Kept (point 2): those that read a part call the function of the same name, which asks less: that the parts are well formed.
impl<'a> View<'a> {
    // The place of the live thing of the kind `k` with this number.
    #[inline(always)]
    pub fn find(&self, k: Kind, number: u32) -> Option<usize>
        ensures { Finds (state_of self.now.layout self.now.words.now) (kind_of k) number result }
    {
        super::find(self.words, self.layout, k, number)
    }

    // The same place, or the refusal.
    #[inline(always)]
    pub fn look_up(&self, k: Kind, number: u32) -> Result<usize, Refusal>
        ensures { LooksUp (state_of self.now.layout self.now.words.now) (kind_of k) number result }
    {
        self.find(k, number).ok_or(missing(k))
    }

    // The list of the family `f` that the node `n` stands in.
    #[inline(always)]
    pub fn home_of(&self, f: Family, n: usize) -> Option<usize>
        requires { n < nn_of self.now.layout (fam_of f) }
        ensures { HomeIs self.now.layout (fam_of f) n self.now.words.now result }
    {
        super::home_of(self.words, self.layout, f, n)
    }

    // How long the list `k` of the family `f` is.
    #[inline(always)]
    pub fn row_length(&self, f: Family, k: usize) -> usize
        requires { k < nc_of self.now.layout (fam_of f) }
        ensures { LengthIs self.now.layout (fam_of f) k self.now.words.now result }
    {
        super::row_length(self.words, self.layout, f, k)
    }

    // The place of the first of the list `k` of the family `f`.
    #[inline(always)]
    pub fn first_of(&self, f: Family, k: usize) -> Option<usize>
        requires { k < nc_of self.now.layout (fam_of f) }
        ensures { FirstIs self.now.layout (fam_of f) k self.now.words.now result }
    {
        super::first_of(self.words, self.layout, f, k)
    }

    // The place of the node after `n` in its list of the family `f`.
    #[inline(always)]
    pub fn next_of(&self, f: Family, n: usize) -> Option<usize>
        requires { n < nn_of self.now.layout (fam_of f) }
        ensures { NextIs self.now.layout (fam_of f) n self.now.words.now result }
    {
        super::next_of(self.words, self.layout, f, n)
    }

    // The place of the last of the list `k` of the family `f`.
    #[inline(always)]
    pub fn last_of(&self, f: Family, k: usize) -> Option<usize>
        requires { k < nc_of self.now.layout (fam_of f) }
        ensures { LastIs self.now.layout (fam_of f) k self.now.words.now result }
    {
        super::last_of(self.words, self.layout, f, k)
    }

    // The place of the node at index `i` of the list `k` of the family `f`.
    #[inline(always)]
    pub fn nth_of(&self, f: Family, k: usize, i: usize) -> usize
        requires k_bound { k < nc_of self.now.layout (fam_of f) }
        requires i_in_bounds { i < length (list_of self.now.layout self.now.words.now (con self.now.layout (fam_of f) k)) }
        ensures { NthIs self.now.layout (fam_of f) k i self.now.words.now result }
    {
        super::nth_of(self.words, self.layout, f, k, i)
    }

    // Whether the list `k` of the family `f` has the node `n`.
    #[inline(always)]
    pub fn has(&self, f: Family, k: usize, n: usize) -> bool
        requires k_bound { k < nc_of self.now.layout (fam_of f) }
        requires n_bound { n < nn_of self.now.layout (fam_of f) }
        ensures { HasIs self.now.layout (fam_of f) k n self.now.words.now result }
    {
        let s = family_span(self.layout, f);
        s.lists.has(&self.words[s.at..s.end], k, n)
    }

    // The places of the nodes of the list `k` of the family `f`, from first to last.
    #[inline(always)]
    pub fn nodes(&self, f: Family, k: usize) -> Nodes<'a>
        requires { k < nc_of self.now.layout (fam_of f) }
        ensures { NodesAre self.now.layout (fam_of f) k self.now.words.now result }
    {
        let s = family_span(self.layout, f);
        s.lists.iter(&self.words[s.at..s.end], k)
    }

    // Whether a place of the list `k` of the family `f` passes the test.
    #[inline(always)]
    pub fn any_of<F: Fn(usize) -> bool>(&self, f: Family, k: usize, test: F) -> bool
        requires k_bound { k < nc_of self.now.layout (fam_of f) }
        requires callable { AtLive self.now.layout (fam_of f) self.now.words.now (F.pre test) }
        ensures { AnyOf self.now.layout (fam_of f) k self.now.words.now (F.post test) result }
    {
        for p in self.nodes(f, k) {
            if test(p) {
                return true;
            }
        }
        false
    }

    // Whether a place and a number are left for a birth of the kind `k`.
    #[inline(always)]
    pub fn room_for(&self, k: Kind) -> Result<(), Refusal>
        ensures { RoomIs self.now.layout (kind_of k) self.now.words.now result }
    {
        super::room_for(self.words, self.layout, k)
    }

    // Whether a list of `n` things of the kind `k` can grow at index `i`.
    #[inline(always)]
    pub fn may_grow(&self, k: Kind, n: usize, i: usize) -> Result<(), Refusal>
        ensures { GrowIs self.now.layout (kind_of k) n i self.now.words.now result }
    {
        super::may_grow(self.words, self.layout, k, n, i)
    }

    // The birth number of the live thing of the kind `k` at the place `p`.
    #[inline(always)]
    pub fn number_of(&self, k: Kind, p: usize) -> u32
        requires { Live (state_of self.now.layout self.now.words.now) (kind_of k, p) }
        ensures { NumberIs self.now.layout (kind_of k) p self.now.words.now result }
    {
        super::number_of(self.words, self.layout, k, p)
    }

    // How many things of the kind `k` live.
    #[inline(always)]
    pub fn live_count(&self, k: Kind) -> usize
        ensures { LiveIs self.now.layout (kind_of k) self.now.words.now result }
    {
        super::live_count(self.words, self.layout, k)
    }

    // The number of the next birth of the kind `k`.
    #[inline(always)]
    pub fn next_number(&self, k: Kind) -> u32
        ensures { NextNumberIs self.now.layout (kind_of k) self.now.words.now result }
    {
        super::next_number(self.words, self.layout, k)
    }

    // The place of the `i`-th live thing of the kind `k`, in rising number.
    #[inline(always)]
    pub fn nth_live(&self, k: Kind, i: usize) -> usize
        requires { i < length ((state_of self.now.layout self.now.words.now).tab (kind_of k)).order }
        ensures { NthLiveIs self.now.layout (kind_of k) i self.now.words.now result }
    {
        super::nth_live(self.words, self.layout, k, i)
    }

    // The flags of the operation at the place `p`.
    #[inline(always)]
    pub fn flags_of(&self, p: usize) -> u32
        requires { p < self.now.layout.ops }
        ensures { TagIs self.now.layout (op, p) self.now.words.now result }
    {
        super::operation::flags_of(self.words, self.layout, p)
    }

    // The type of the value at the place `p`.
    #[inline(always)]
    pub fn type_of(&self, p: usize) -> u32
        requires { p < self.now.layout.values }
        ensures { TagIs self.now.layout (val, p) self.now.words.now result }
    {
        super::value::type_of(self.words, self.layout, p)
    }

    // The number of the value or of the block that the use at the place `u` is a use of.
    #[inline(always)]
    pub fn definition_number(&self, u: usize) -> u32
        requires { Live (state_of self.now.layout self.now.words.now) (usg, u) }
        ensures { DefinitionIs self.now.layout u self.now.words.now result }
    {
        let d = self.home_of(Family::UseSets, u).unwrap();
        super::value::definition_number(self.words, self.layout, d)
    }

    // The operation at which the use at the place `u` stands.
    #[inline(always)]
    pub fn user_of(&self, u: usize) -> usize
        requires { Live (state_of self.now.layout self.now.words.now) (usg, u) }
        ensures { UserIs self.now.layout u self.now.words.now result }
    {
        self.home_of(Family::Slots, u).unwrap() / 2
    }

    // The block of the operation at which the use at the place `u` stands.
    #[inline(always)]
    pub fn block_of(&self, u: usize) -> Option<usize>
        requires { Live (state_of self.now.layout self.now.words.now) (usg, u) }
        ensures { BlockOf self.now.layout u self.now.words.now result }
    {
        self.home_of(Family::Operations, self.user_of(u))
    }

    // Whether a user of the block at the place `b` is in no block.
    #[inline(always)]
    pub fn stray_user(&self, b: usize) -> bool
        requires { Live (state_of self.now.layout self.now.words.now) (blk, b) }
        ensures { result ≡ place_stray_user (state_of self.now.layout self.now.words.now) (blk, b) }
    {
        for u in self.nodes(Family::UseSets, use_set_of(self.layout, Slot::Successor, b)) {
            if self.block_of(u).is_none() {
                return true;
            }
        }
        false
    }
}
