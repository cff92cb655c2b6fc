// A store of small capacities, built by the primitives of `context`: a block with one argument and an operation with one result that reads
// the argument twice; the operation comes into the block, one operand ends, and the operation's own result becomes an operand.
// Prints the words of the store, part by part, its listing, and the parts that the readers hand back.
#![tactic(auto)]

ghost use Rattle.std.specs.Prelude.{◌<◌};
ghost use Rattle.places.specs.Store.{vals, Live};
ghost use Rattle.context.specs.Layout.{nc_of};
ghost use Rattle.context.specs.Memory.{con, state_of, SoundStore};

use context::view::View;
use context::{Family, Kind, Layout};
use edit::{Member, Refusal, Slot};
use listing::Pen;
use readers::Definition;
use std::io;
use unbuffered::Unbuffered;

// What a step was, and whether it was done.
fn told(rt: &impl Print, what: &str, done: Result<(), Refusal>) -> io::Result<()> {
    let outcome = if done.is_ok() {
        ": done\n"
    } else {
        ": not done\n"
    };
    print!(rt; "{what}{outcome}")
}

// A block is born.
fn new_block(m: &mut [u32], l: Layout) -> Result<(), Refusal>
    requires { SoundStore l m.old }
    ensures { SoundStore l m.new }
{
    let view = View {
        words: m,
        layout: l,
    };
    view.room_for(Kind::Block)?;
    context::basic_block::birth_block(m, l);
    Ok(())
}

// An operation is born.
fn new_operation(m: &mut [u32], l: Layout) -> Result<(), Refusal>
    requires { SoundStore l m.old }
    ensures { SoundStore l m.new }
{
    let view = View {
        words: m,
        layout: l,
    };
    view.room_for(Kind::Operation)?;
    context::operation::birth_op(m, l, 0);
    Ok(())
}

// A value of the type `t` is born, last in the list `k` of results and arguments.
fn push_value(m: &mut [u32], l: Layout, k: usize, t: u32) -> Result<(), Refusal>
    requires sound_store { SoundStore l m.old }
    requires k_bound { k < nc_of l vals }
    requires live { Live (state_of l m.old) (con l vals k).1 }
    ensures { SoundStore l m.new }
{
    let view = View {
        words: m,
        layout: l,
    };
    let n = view.row_length(Family::Values, k);
    view.may_grow(Kind::Value, n, n)?;
    context::value::birth_value(m, l, k, n, t);
    Ok(())
}

// The operation with the number `x` gets a result of the type `t`.
fn push_result(m: &mut [u32], l: Layout, x: u32, t: u32) -> Result<(), Refusal>
    requires { SoundStore l m.old }
    ensures { SoundStore l m.new }
{
    let view = View {
        words: m,
        layout: l,
    };
    let o = view.look_up(Kind::Operation, x)?;
    push_value(m, l, context::values_of(l, Member::Operation, o), t)
}

// The block with the number `x` gets an argument of the type `t`.
fn push_argument(m: &mut [u32], l: Layout, x: u32, t: u32) -> Result<(), Refusal>
    requires { SoundStore l m.old }
    ensures { SoundStore l m.new }
{
    let view = View {
        words: m,
        layout: l,
    };
    let b = view.look_up(Kind::Block, x)?;
    push_value(m, l, context::values_of(l, Member::Block, b), t)
}

// The operation with the number `x` gets an operand: a use of the value with the number `y`.
fn push_operand(m: &mut [u32], l: Layout, x: u32, y: u32) -> Result<(), Refusal>
    requires { SoundStore l m.old }
    ensures { SoundStore l m.new }
{
    let view = View {
        words: m,
        layout: l,
    };
    let o = view.look_up(Kind::Operation, x)?;
    let v = view.look_up(Kind::Value, y)?;
    let s = context::slots_of(l, Slot::Operand, o);
    let d = context::use_set_of(l, Slot::Operand, v);
    let n = view.row_length(Family::Slots, s);
    view.may_grow(Kind::Use, n, n)?;
    context::value::birth_use(m, l, s, n, d);
    Ok(())
}

// The operand at index `i` of the operation with the number `x` ends.
fn end_operand(m: &mut [u32], l: Layout, x: u32, i: usize) -> Result<(), Refusal>
    requires { SoundStore l m.old }
    ensures { SoundStore l m.new }
{
    let view = View {
        words: m,
        layout: l,
    };
    let o = view.look_up(Kind::Operation, x)?;
    let s = context::slots_of(l, Slot::Operand, o);
    if i >= view.row_length(Family::Slots, s) {
        return Err(Refusal::NoIndex);
    }
    let u = view.nth_of(Family::Slots, s, i);
    context::value::end_use(m, l, u);
    Ok(())
}

// The operation with the number `x`, which is in no block, comes last in the block with the number `y`, which is in no region: so
// the block does not lie inside the operation.
fn put_into(m: &mut [u32], l: Layout, x: u32, y: u32) -> Result<(), Refusal>
    requires { SoundStore l m.old }
    ensures { SoundStore l m.new }
{
    let view = View {
        words: m,
        layout: l,
    };
    let o = view.look_up(Kind::Operation, x)?;
    let b = view.look_up(Kind::Block, y)?;
    if view.home_of(Family::Operations, o).is_some() {
        return Err(Refusal::Linked);
    }
    if view.home_of(Family::Blocks, b).is_some() {
        return Err(Refusal::Linked);
    }
    context::lists::link_back(m, l, Member::Operation, b, o);
    Ok(())
}

// Words, to the end of the line.
fn words(rt: &impl Print, part: &[u32]) -> io::Result<()> {
    for w in part {
        print!(rt; " {w}")?;
    }
    println!(rt)
}

fn print_tables(rt: &impl Print, m: &[u32], l: Layout) -> io::Result<()>
    requires { SoundStore l m.now }
{
    let tables = [
        ("operations", Kind::Operation),
        ("blocks", Kind::Block),
        ("regions", Kind::Region),
        ("values", Kind::Value),
        ("uses", Kind::Use),
    ];
    for (name, k) in tables {
        let t = context::table_span(l, k);
        print!(rt; "{name}")?;
        words(rt, &m[t.at..t.end])?;
    }
    Ok(())
}

fn print_families(rt: &impl Print, m: &[u32], l: Layout) -> io::Result<()>
    requires { SoundStore l m.now }
{
    let families = [
        ("slots", Family::Slots),
        ("use sets", Family::UseSets),
        ("results and arguments", Family::Values),
        ("regions of operations", Family::Regions),
        ("operations of blocks", Family::Operations),
        ("blocks of regions", Family::Blocks),
    ];
    for (name, f) in families {
        let s = context::family_span(l, f);
        print!(rt; "{name}")?;
        words(rt, &m[s.at..s.end])?;
    }
    Ok(())
}

// All words, a line for each part; flags and types are on one.
fn print_words(rt: &impl Print, m: &[u32], l: Layout) -> io::Result<()>
    requires { SoundStore l m.now }
{
    print!(rt; "capacities")?;
    words(rt, &m[..5])?;
    print_tables(rt, m, l)?;
    print_families(rt, m, l)?;
    print!(rt; "flags and types")?;
    words(rt, &m[context::flags_at(l)..context::size(l)])
}

// The listing.
fn print_listing(rt: &impl Print, m: &[u32], l: Layout) -> io::Result<()>
    requires { SoundStore l m.now }
{
    let mut out = [0u8; 1024];
    let mut pen = Pen {
        out: &mut out,
        at: 0,
    };
    let v = View {
        words: m,
        layout: l,
    };
    listing::write_listing(&v, &mut pen);
    let end = pen.at.min(1024);
    rt.write_all(&out[..end])
}

// The numbers of the uses of a definition that have room, or the refusal.
fn print_uses_of(
    rt: &impl Print,
    m: &[u32],
    what: &str,
    definition: Definition,
    out: &mut [u32],
) -> io::Result<()> {
    let (Definition::Value(number) | Definition::Block(number)) = definition;
    print!(rt; "{what}{number}")?;
    match readers::front_uses(m, definition, out) {
        Ok(part) => words(rt, part),
        Err(refusal) => println!(rt; " no {}", u32::from(refusal)),
    }
}

// Those of both values and of the block, and each refusal.
fn print_uses(rt: &impl Print, m: &[u32]) -> io::Result<()> {
    let mut out = [0u32; 2];
    print_uses_of(rt, m, "uses of value ", Definition::Value(0), &mut out)?;
    print_uses_of(rt, m, "uses of value ", Definition::Value(1), &mut out)?;
    print_uses_of(rt, m, "uses of value ", Definition::Value(2), &mut out)?;
    print_uses_of(
        rt,
        m,
        "no room for uses of value ",
        Definition::Value(0),
        &mut [],
    )?;
    print_uses_of(rt, m, "uses of block ", Definition::Block(0), &mut out)?;
    print_uses_of(rt, m, "uses of block ", Definition::Block(1), &mut out)
}

// A block with one argument.
fn make_block(rt: &impl Print, m: &mut [u32], l: Layout) -> io::Result<()>
    requires { SoundStore l m.old }
    ensures { SoundStore l m.new }
{
    let a = new_block(m, l);
    told(rt, "new block", a)?;
    let b = push_argument(m, l, 0, 7);
    told(rt, "argument", b)
}

// An operation with one result, which reads the argument twice.
fn make_operation(rt: &impl Print, m: &mut [u32], l: Layout) -> io::Result<()>
    requires { SoundStore l m.old }
    ensures { SoundStore l m.new }
{
    let a = new_operation(m, l);
    told(rt, "new operation", a)?;
    let b = push_result(m, l, 0, 7);
    told(rt, "result", b)?;
    let c = push_operand(m, l, 0, 0);
    told(rt, "operand", c)?;
    let d = push_operand(m, l, 0, 0);
    told(rt, "operand", d)
}

// It comes into the block; a third operand has no place; the first one ends, and its place is taken by a use of the own result.
fn change(rt: &impl Print, m: &mut [u32], l: Layout) -> io::Result<()>
    requires { SoundStore l m.old }
    ensures { SoundStore l m.new }
{
    let a = put_into(m, l, 0, 0);
    told(rt, "into the block", a)?;
    let b = push_operand(m, l, 0, 0);
    told(rt, "third operand", b)?;
    let c = end_operand(m, l, 0, 0);
    told(rt, "end of the first operand", c)?;
    let d = push_operand(m, l, 0, 1);
    told(rt, "own result as operand", d)
}

fn run(rt: &impl Print) -> io::Result<()> {
    let mut store = [0u32; 89];
    let l = Layout {
        ops: 1,
        blocks: 1,
        regions: 1,
        values: 2,
        uses: 2,
    };
    if context::start(&mut store, l).is_err() {
        return print!(rt; "no store\n");
    }
    make_block(rt, &mut store, l)?;
    make_operation(rt, &mut store, l)?;
    change(rt, &mut store, l)?;
    print_words(rt, &store, l)?;
    print_listing(rt, &store, l)?;
    print_uses(rt, &store)
}

// Output that cannot be written is no failure: the program goes on, and ends silently, with status 0.
fn main(rt: HostRuntime) {
    let _ = run(&Unbuffered(&rt));
}
