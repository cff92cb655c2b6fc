// The listing of a store and of answers, as text in a lent buffer. What does not fit is left out, and the pen stops at the
// buffer's end.
#![tactic(auto)]

ghost use Rattle.std.specs.Prelude.{◌≡◌, [], ◌∷◌, ◌++◌, ◌/◌, ◌≤◌, ◌<◌, length, get_or};
ghost use Rattle.places.specs.Store.{Live, op, blk, reg, val, usg, use_sets};
ghost use Rattle.places.specs.View.{num};
ghost use Rattle.places.specs.Parts.{node_in};
ghost use Rattle.rules.specs.Listing as rules;
ghost use Rattle.context.specs.Kinds.{kind_of, fam_of};
ghost use Rattle.context.specs.Nest.{inner_fam};
ghost use Rattle.context.specs.Layout.{nc_of};
ghost use Rattle.context.specs.Memory.{con, state_of};
ghost use Rattle.context.specs.Performed.{abs};
ghost use Rattle.listing.specs.Writer.{Wrote};
ghost use Rattle.listing.specs.Lines.{node_text, row_text, numbers_among, home_number, definition_at, uses_among, listed, lines, replies_from};

use context::view::View;
use context::{Family, Kind};
use edit::{Member, Nested, Slot};

// A lent buffer, and where what is written next is put.
#[derive(Drop)]
pub struct Pen<'a, T> {
    pub out: &'a mut [T],
    pub at: usize,
}

impl<'a, T: Copy> Pen<'a, T> {
    // One element.
    #[inline(always)]
    pub fn put(&mut self, x: T)
        ensures { Wrote (x ∷ []) self.old self.new }
    {
        if self.at < self.out.len() {
            self.out[self.at] = x;
            self.at += 1;
        }
    }
}

impl<'a> Pen<'a, u8> {
    // A text.
    #[inline(always)]
    pub fn text(&mut self, t: &[u8])
        ensures { Wrote t.now self.old self.new }
    {
        // A pen of its own, which no byte that is written can change: its place is read and written once.
        let mut pen = Pen {
            out: &mut *self.out,
            at: self.at,
        };
        for b in t {
            pen.put(*b);
        }
        self.at = pen.at;
    }

    // The last `k` decimal digits of `n`, or all where there are fewer.
    // Kept (point 4): `write!` asks for a writer that may fail and gives a result to throw away; this cannot fail.
    fn digits(&mut self, n: u32, k: usize)
        ensures { Wrote (rules.digits k n []) self.old self.new }
    {
        if k == 0 {
            return;
        }
        if n < 10 {
            self.put(b'0' + n as u8);
            return;
        }
        self.digits(n / 10, k - 1);
        self.put(b'0' + (n % 10) as u8);
    }

    // A space and a number.
    fn number(&mut self, n: u32)
        ensures { Wrote (rules.num n) self.old self.new }
    {
        self.put(b' ');
        self.digits(n, 10);
    }

    // A word, a space and a number.
    fn field(&mut self, word: &[u8], n: u32)
        ensures { Wrote (word.now ++ rules.num n) self.old self.new }
    {
        self.text(word);
        self.number(n);
    }
}

// The thing at the place `p`, as it stands in a list of the family `f`: a use in an operation's list has its definition behind it.
fn put_node(v: &View, f: Family, p: usize, pen: &mut Pen<u8>)
    requires { Live (state_of v.now.layout v.now.words.now) (node_in (fam_of f), p) }
    ensures { Wrote (node_text (abs v.now.layout v.now.words.now) (fam_of f) (num (state_of v.now.layout v.now.words.now) (node_in (fam_of f), p))) pen.old pen.new }
{
    pen.number(v.number_of(Kind::from(f), p));
    if let Family::Slots = f {
        pen.put(b':');
        pen.digits(v.definition_number(p), 10);
    }
}

// A word, and the numbers in the list `k` of the family `f`.
fn put_row(v: &View, word: &[u8], f: Family, k: usize, pen: &mut Pen<u8>)
    requires { k < nc_of v.now.layout (fam_of f) }
    ensures { Wrote (word.now ++ row_text (abs v.now.layout v.now.words.now) (fam_of f) (numbers_among v.now.layout v.now.words.now (fam_of f) k)) pen.old pen.new }
{
    pen.text(word);
    for p in v.nodes(f, k) {
        put_node(v, f, p, pen);
    }
}

// A word, and the number of the thing that the thing at the place `p` stands in, of the kind `holder`; - for none.
fn put_home(v: &View, word: &[u8], holder: Nested, p: usize, pen: &mut Pen<u8>)
    requires { Live (state_of v.now.layout v.now.words.now) (node_in (inner_fam holder), p) }
    ensures { Wrote (word.now ++ rules.or_none (home_number (state_of v.now.layout v.now.words.now) (node_in (inner_fam holder), p) (inner_fam holder))) pen.old pen.new }
{
    pen.text(word);
    match v.home_of(Family::from(holder), p) {
        Some(h) => pen.number(v.number_of(Kind::from(holder), h)),
        None => pen.text(b" -"),
    }
}

// The number of the `i`-th live use, where the set `k` of uses has it.
#[inline(always)]
pub fn nth_use(v: &View, k: usize, i: usize) -> Option<u32>
    requires k_bound { k < nc_of v.now.layout use_sets }
    requires live { Live (state_of v.now.layout v.now.words.now) (con v.now.layout use_sets k).1 }
    requires i_in_bounds { i < length ((state_of v.now.layout v.now.words.now).tab usg).order }
    ensures { listed result ≡ uses_among (state_of v.now.layout v.now.words.now) (definition_at v.now.layout v.now.words.now k) (get_or ((state_of v.now.layout v.now.words.now).tab usg).order i 0 ∷ []) }
{
    let u = v.nth_live(Kind::Use, i);
    if v.has(Family::UseSets, k, u) {
        Some(v.number_of(Kind::Use, u))
    } else {
        None
    }
}

// Kept (point 2): tried with the loop of readers::fill_uses in one function over an `FnMut`: nothing is known of the lent pen after its calls.
// A word, and the uses in the set `k`, in rising number.
fn put_uses(v: &View, word: &[u8], k: usize, pen: &mut Pen<u8>)
    requires k_bound { k < nc_of v.now.layout use_sets }
    requires live { Live (state_of v.now.layout v.now.words.now) (con v.now.layout use_sets k).1 }
    ensures { Wrote (word.now ++ rules.nums (uses_among (state_of v.now.layout v.now.words.now) (definition_at v.now.layout v.now.words.now k) ((state_of v.now.layout v.now.words.now).tab usg).order)) pen.old pen.new }
{
    pen.text(word);
    // A copy, which nothing that is written can change: where the parts stand is worked out once.
    let view = *v;
    for i in 0..view.live_count(Kind::Use) {
        if let Some(x) = nth_use(&view, k, i) {
            pen.number(x);
        }
    }
}

// The line of the operation at the place `p`.
fn put_op(v: &View, p: usize, pen: &mut Pen<u8>)
    requires { Live (state_of v.now.layout v.now.words.now) (op, p) }
    ensures { Wrote (lines (abs v.now.layout v.now.words.now) (state_of v.now.layout v.now.words.now) op (p ∷ [])) pen.old pen.new }
{
    pen.field(b"op", v.number_of(Kind::Operation, p));
    put_home(v, b" block", Nested::Block, p, pen);
    pen.field(b" flags", v.flags_of(p));
    put_row(
        v,
        b" res",
        Family::Values,
        context::values_of(v.layout, Member::Operation, p),
        pen,
    );
    put_row(
        v,
        b" opd",
        Family::Slots,
        context::slots_of(v.layout, Slot::Operand, p),
        pen,
    );
    put_row(
        v,
        b" suc",
        Family::Slots,
        context::slots_of(v.layout, Slot::Successor, p),
        pen,
    );
    put_row(v, b" reg", Family::Regions, p, pen);
    pen.put(b'\n');
}

// The line of the block at the place `p`.
fn put_block(v: &View, p: usize, pen: &mut Pen<u8>)
    requires { Live (state_of v.now.layout v.now.words.now) (blk, p) }
    ensures { Wrote (lines (abs v.now.layout v.now.words.now) (state_of v.now.layout v.now.words.now) blk (p ∷ [])) pen.old pen.new }
{
    pen.field(b"block", v.number_of(Kind::Block, p));
    put_home(v, b" region", Nested::Region, p, pen);
    put_row(
        v,
        b" arg",
        Family::Values,
        context::values_of(v.layout, Member::Block, p),
        pen,
    );
    put_row(v, b" ops", Family::Operations, p, pen);
    put_uses(
        v,
        b" pred",
        context::use_set_of(v.layout, Slot::Successor, p),
        pen,
    );
    pen.put(b'\n');
}

// The line of the region at the place `p`.
fn put_region(v: &View, p: usize, pen: &mut Pen<u8>)
    requires { Live (state_of v.now.layout v.now.words.now) (reg, p) }
    ensures { Wrote (lines (abs v.now.layout v.now.words.now) (state_of v.now.layout v.now.words.now) reg (p ∷ [])) pen.old pen.new }
{
    pen.field(b"region", v.number_of(Kind::Region, p));
    put_home(v, b" op", Nested::Operation, p, pen);
    put_row(v, b" blocks", Family::Blocks, p, pen);
    pen.put(b'\n');
}

// The line of the value at the place `p`.
fn put_value(v: &View, p: usize, pen: &mut Pen<u8>)
    requires { Live (state_of v.now.layout v.now.words.now) (val, p) }
    ensures { Wrote (lines (abs v.now.layout v.now.words.now) (state_of v.now.layout v.now.words.now) val (p ∷ [])) pen.old pen.new }
{
    pen.field(b"value", v.number_of(Kind::Value, p));
    pen.field(b" type", v.type_of(p));
    put_uses(
        v,
        b" uses",
        context::use_set_of(v.layout, Slot::Operand, p),
        pen,
    );
    pen.put(b'\n');
}

// The line of the thing at the place `p`; a use has none.
fn put_thing(v: &View, k: Kind, p: usize, pen: &mut Pen<u8>)
    requires { Live (state_of v.now.layout v.now.words.now) (kind_of k, p) }
    ensures { Wrote (lines (abs v.now.layout v.now.words.now) (state_of v.now.layout v.now.words.now) (kind_of k) (p ∷ [])) pen.old pen.new }
{
    match k {
        Kind::Operation => put_op(v, p, pen),
        Kind::Block => put_block(v, p, pen),
        Kind::Region => put_region(v, p, pen),
        Kind::Value => put_value(v, p, pen),
        Kind::Use => {}
    }
}

// The lines of all things of a kind, in rising number.
fn put_things(v: &View, k: Kind, pen: &mut Pen<u8>)
    ensures { Wrote (lines (abs v.now.layout v.now.words.now) (state_of v.now.layout v.now.words.now) (kind_of k) ((state_of v.now.layout v.now.words.now).tab (kind_of k)).order) pen.old pen.new }
{
    for i in 0..v.live_count(k) {
        put_thing(v, k, v.nth_live(k, i), pen);
    }
}

// How many things of a kind live, behind a space.
fn put_count(v: &View, k: Kind, pen: &mut Pen<u8>)
    ensures { Wrote (rules.num (length ((state_of v.now.layout v.now.words.now).tab (kind_of k)).order)) pen.old pen.new }
{
    pen.number(v.live_count(k) as u32);
}

// The line that counts what lives.
fn put_store(v: &View, pen: &mut Pen<u8>)
    ensures { Wrote (rules.store_line (abs v.now.layout v.now.words.now)) pen.old pen.new }
{
    pen.text(b"store");
    put_count(v, Kind::Operation, pen);
    put_count(v, Kind::Block, pen);
    put_count(v, Kind::Region, pen);
    put_count(v, Kind::Value, pen);
    put_count(v, Kind::Use, pen);
    pen.put(b'\n');
}

// The listing of a sound store.
pub fn write_listing(v: &View, pen: &mut Pen<u8>)
    ensures { Wrote (rules.listing (abs v.now.layout v.now.words.now)) pen.old pen.new }
{
    put_store(v, pen);
    put_things(v, Kind::Operation, pen);
    put_things(v, Kind::Block, pen);
    put_things(v, Kind::Region, pen);
    put_things(v, Kind::Value, pen);
}

// The line of the record `n`, whose answer has these three numbers.
// Kept (point 1): an answer is three words, of which the first is 0 or the refusal, as the C interface has them.
fn put_answer(n: u32, refusal: u32, x: u32, y: u32, pen: &mut Pen<u8>)
    ensures { Wrote (rules.edit_line n (record { refusal = refusal; a = x; b = y })) pen.old pen.new }
{
    pen.field(b"edit", n);
    if refusal == 0 {
        pen.field(b" ok", x);
        pen.number(y);
    } else {
        pen.field(b" no", refusal);
    }
    pen.put(b'\n');
}

// The lines of answers, three words each.
pub fn write_answers(answers: &[u32], pen: &mut Pen<u8>)
    requires { length answers.now / 3 ≤ 4294967295 }
    ensures { Wrote (rules.edit_lines 0 (replies_from answers.now 0 (length answers.now / 3))) pen.old pen.new }
{
    for (i, &[refusal, x, y]) in answers.as_chunks::<3>().0.iter().enumerate() {
        put_answer(i as u32, refusal, x, y, pen);
    }
}
