// The steps of linked_list.rs on a family of lists of the store; putting operations and blocks into a list and taking them out.
ghost use Rattle.std.specs.Prelude.{◌≡◌, ◌<◌};
ghost use Rattle.std.proofs.Math.Option.{none};
ghost use Rattle.places.specs.Parts.{node_in};
ghost use Rattle.context.specs.Kinds.{fam_of, member_fam};
ghost use Rattle.context.specs.Layout.{nc_of, nn_of};
ghost use Rattle.context.specs.Memory.{con, state_of, Well, SoundStore, Left, Entered, Freed, Stands};
ghost use Rattle.context.specs.Reading.{EnteredBy};
ghost use Rattle.context.specs.Steps.{CanLinkTo, LinkedTo, CanLinkBy, LinkedBy, Unlinked};

use super::{Family, Layout, family_span, home_of};
use edit::Member;

// The node `n` leaves the list of the family `f` that it stands in.
#[inline(always)]
pub fn leave(m: &mut [u32], l: Layout, f: Family, n: usize)
    requires well { Well l m.old }
    requires stands { Stands (state_of l m.old) (node_in (fam_of f), n) (fam_of f) }
    ensures { Left l (fam_of f) n m.old m.new }
{
    let s = family_span(l, f);
    s.lists.unlink(&mut m[s.at..s.end], n);
}

// Kept (point 2): the five that enter call each another function of `Lists`, which asks something else.
// The node `n` comes to stand first in the list `k` of the family `f`.
#[inline(always)]
pub fn enter_front(m: &mut [u32], l: Layout, f: Family, k: usize, n: usize)
    requires well { Well l m.old }
    requires k_bound { (k < nc_of l (fam_of f)) × (n < nn_of l (fam_of f)) }
    requires f_value { (state_of l m.old).own (node_in (fam_of f), n) (fam_of f) ≡ none }
    ensures { Entered l (fam_of f) k 0 n m.old m.new }
{
    let s = family_span(l, f);
    s.lists.insert_at_front(&mut m[s.at..s.end], k, n);
}

// The node `n` comes to stand at the back of the list `k` of the family `f`.
#[inline(always)]
pub fn enter_back(m: &mut [u32], l: Layout, f: Family, k: usize, n: usize)
    requires well { Well l m.old }
    requires k_bound { (k < nc_of l (fam_of f)) × (n < nn_of l (fam_of f)) }
    requires f_value { (state_of l m.old).own (node_in (fam_of f), n) (fam_of f) ≡ none }
    ensures { Entered l (fam_of f) k (nn_of l (fam_of f)) n m.old m.new }
{
    let s = family_span(l, f);
    s.lists.insert_at_back(&mut m[s.at..s.end], k, n);
}

// The node `n` comes to stand at index `i` of the list `k` of the family `f`, or last.
pub fn enter_at(m: &mut [u32], l: Layout, f: Family, k: usize, i: usize, n: usize)
    requires well { Well l m.old }
    requires k_bound { (k < nc_of l (fam_of f)) × (n < nn_of l (fam_of f)) }
    requires f_value { (state_of l m.old).own (node_in (fam_of f), n) (fam_of f) ≡ none }
    ensures { Entered l (fam_of f) k i n m.old m.new }
{
    let s = family_span(l, f);
    s.lists.insert_at(&mut m[s.at..s.end], k, i, n);
}

// The node `n` comes to stand right after the node `mark`, in the mark's list of the family `f`.
#[inline(always)]
pub fn enter_after(m: &mut [u32], l: Layout, f: Family, mark: usize, n: usize)
    requires well { Well l m.old }
    requires stands { Stands (state_of l m.old) (node_in (fam_of f), mark) (fam_of f) }
    requires n_bound { n < nn_of l (fam_of f) }
    requires f_value { (state_of l m.old).own (node_in (fam_of f), n) (fam_of f) ≡ none }
    ensures { EnteredBy l (fam_of f) mark n 1 m.old m.new }
{
    let s = family_span(l, f);
    s.lists.insert_after(&mut m[s.at..s.end], mark, n);
}

// The node `n` comes to stand right before the node `mark`, in the mark's list of the family `f`.
#[inline(always)]
pub fn enter_before(m: &mut [u32], l: Layout, f: Family, mark: usize, n: usize)
    requires well { Well l m.old }
    requires stands { Stands (state_of l m.old) (node_in (fam_of f), mark) (fam_of f) }
    requires n_bound { n < nn_of l (fam_of f) }
    requires f_value { (state_of l m.old).own (node_in (fam_of f), n) (fam_of f) ≡ none }
    ensures { EnteredBy l (fam_of f) mark n 0 m.old m.new }
{
    let s = family_span(l, f);
    s.lists.insert_before(&mut m[s.at..s.end], mark, n);
}

// The node `n` leaves its list of the family `f`, if it is in one.
#[inline(always)]
pub fn detach(m: &mut [u32], l: Layout, f: Family, n: usize)
    requires well { Well l m.old }
    requires n_bound { n < nn_of l (fam_of f) }
    ensures { Freed l (fam_of f) n m.old m.new }
{
    if home_of(m, l, f, n).is_some() {
        leave(m, l, f, n);
    }
}

// The operation or block `n` is put first into the list `k`.
#[inline(always)]
pub fn link_front(m: &mut [u32], l: Layout, w: Member, k: usize, n: usize)
    requires sound_store { SoundStore l m.old }
    requires k_bound { (k < nc_of l (member_fam w)) × (n < nn_of l (member_fam w)) }
    requires can_link_to { CanLinkTo (state_of l m.old) (member_fam w) n (con l (member_fam w) k) }
    ensures { LinkedTo l (member_fam w) k 0 n m.old m.new }
{
    enter_front(m, l, Family::from(w), k, n);
}

// The operation or block `n` is put last into the list `k`.
#[inline(always)]
pub fn link_back(m: &mut [u32], l: Layout, w: Member, k: usize, n: usize)
    requires sound_store { SoundStore l m.old }
    requires k_bound { (k < nc_of l (member_fam w)) × (n < nn_of l (member_fam w)) }
    requires can_link_to { CanLinkTo (state_of l m.old) (member_fam w) n (con l (member_fam w) k) }
    ensures { LinkedTo l (member_fam w) k (nn_of l (member_fam w)) n m.old m.new }
{
    enter_back(m, l, Family::from(w), k, n);
}

// The operation or block `n` is put right after the node `mark`.
#[inline(always)]
pub fn link_after(m: &mut [u32], l: Layout, w: Member, mark: usize, n: usize)
    requires sound_store { SoundStore l m.old }
    requires n_bound { n < nn_of l (member_fam w) }
    requires can_link_by { CanLinkBy (state_of l m.old) (member_fam w) mark n }
    ensures { LinkedBy l (member_fam w) mark n 1 m.old m.new }
{
    enter_after(m, l, Family::from(w), mark, n);
}

// The operation or block `n` is put right before the node `mark`.
#[inline(always)]
pub fn link_before(m: &mut [u32], l: Layout, w: Member, mark: usize, n: usize)
    requires sound_store { SoundStore l m.old }
    requires n_bound { n < nn_of l (member_fam w) }
    requires can_link_by { CanLinkBy (state_of l m.old) (member_fam w) mark n }
    ensures { LinkedBy l (member_fam w) mark n 0 m.old m.new }
{
    enter_before(m, l, Family::from(w), mark, n);
}

// The operation or block `n` is taken out of its list.
#[inline(always)]
pub fn unlink(m: &mut [u32], l: Layout, w: Member, n: usize)
    requires sound_store { SoundStore l m.old }
    requires stands { Stands (state_of l m.old) (node_in (member_fam w), n) (member_fam w) }
    ensures { Unlinked l (member_fam w) n m.old m.new }
{
    leave(m, l, Family::from(w), n);
}
