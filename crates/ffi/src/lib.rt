// The store for C and Rust: each exported function is a thin one over the crates below. A slice is a pointer and a count of elements.
#![tactic(auto)]

ghost use Rattle.std.specs.Prelude.{◌≡◌, ◌≤◌, length};
ghost use Rattle.seqs.specs.Seqs.{Says};
ghost use Rattle.edit.specs.Kinds.{code_of};
ghost use Rattle.edit.specs.Record.{of_value, of_block};
ghost use Rattle.context.specs.Start.{StartBy};
ghost use Rattle.script.specs.Calls.{SoundWords};
ghost use Rattle.readers.specs.UsesOf.{count_in};
ghost use Rattle.ffi.specs.Called.{layout_by, WordsCalled, ToldAnswer, EditCalled, ScriptCalled, Listed, UsesCalled};

use context::Layout;
use context::view::View;
use edit::{Answer, Refusal};
use listing::Pen;
use readers::Definition;

// Kept (point 5): five capacities are five parameters of the C interface.
// Kept (point 4): neither u32 to usize nor usize to u64 has a From; here and below.
// The capacities as the store takes them.
fn layout(ops: u32, blocks: u32, regions: u32, values: u32, uses: u32) -> Layout
    ensures { result ≡ layout_by ops blocks regions values uses }
{
    Layout {
        ops: ops as usize,
        blocks: blocks as usize,
        regions: regions as usize,
        values: values as usize,
        uses: uses as usize,
    }
}

// Kept (point 1): the C interface hands back a refusal as its number, and 0 for none.
// The number of a refusal, or 0.
fn code<T: Copy>(r: Result<T, Refusal>) -> u32
    ensures { result ≡ code_of r }
{
    match r {
        Ok(_) => 0,
        Err(refusal) => u32::from(refusal),
    }
}

// How many words a store with these capacities needs; 0 where a capacity is 0 or over its limit.
#[unsafe(no_mangle)]
pub extern "C" fn recipe_words(ops: u32, blocks: u32, regions: u32, values: u32, uses: u32) -> usize
    ensures { WordsCalled (layout_by ops blocks regions values uses) result }
{
    context::words_needed(layout(ops, blocks, regions, values, uses)).unwrap_or(0)
}

// Starts an empty store: 0 or 5.
#[unsafe(no_mangle)]
pub extern "C" fn recipe_start(
    store: &mut [u32],
    ops: u32,
    blocks: u32,
    regions: u32,
    values: u32,
    uses: u32,
) -> u32
    ensures { StartBy (layout_by ops blocks regions values uses) store.old store.new result }
{
    code(context::start(store, layout(ops, blocks, regions, values, uses)))
}

// The refusal of an answer, and its three numbers in `out`; for 6 nothing is written.
fn tell_answer(a: Answer, out: &mut [u32]) -> u32
    requires { 3 ≤ length out.old }
    ensures { ToldAnswer a out.old out.new result }
{
    if !matches!(a, Err(Refusal::Unsound)) {
        edit::put_answer(out, 0, a);
    }
    code(a)
}

// One edit: its refusal or 0, and its three numbers in `answer`. 22 where `answer` has no room for them, before anything is
// looked at; 6 where the store is not sound, and then no answer is written. The scratch is all zeros after it.
#[unsafe(no_mangle)]
pub extern "C" fn recipe_edit(
    store: &mut [u32],
    scratch: &mut [u32],
    bytes: &[u8],
    answer: &mut [u32],
) -> u32
    ensures { EditCalled bytes.now store.old store.new scratch.old scratch.new answer.old answer.new result }
{
    if answer.len() < 3 {
        scratch.fill(0);
        return u32::from(Refusal::NoRoom);
    }
    tell_answer(script::edit(store, scratch, bytes), answer)
}

// A script: its code, and in `count` how many answers it wrote.
#[unsafe(no_mangle)]
pub extern "C" fn recipe_script(
    store: &mut [u32],
    scratch: &mut [u32],
    script: &[u8],
    answers: &mut [u32],
    count: &mut u64,
) -> u32
    ensures { ScriptCalled script.now store.old store.new scratch.old scratch.new answers.old answers.new count.new result }
{
    let ran = script::script(store, scratch, script, answers);
    *count = ran.count as u64;
    code(ran.end)
}

// Whether a buffer is a sound store.
#[unsafe(no_mangle)]
pub extern "C" fn recipe_check(store: &[u32]) -> bool
    ensures { Says result (SoundWords store.now) }
{
    sound::check(store)
}

// The listing of the answers and of a sound store, as far as `out` has room; `length` gets how many bytes it wrote. 6 where
// the store is not sound, 22 where a listing cannot number the answers; then `out` is kept and `length` is 0.
#[unsafe(no_mangle)]
pub extern "C" fn recipe_listing(
    store: &[u32],
    answers: &[u32],
    out: &mut [u8],
    length: &mut u64,
) -> u32
    ensures { Listed store.now answers.now out.old out.new length.new result }
{
    *length = 0;
    if !sound::check(store) {
        return u32::from(Refusal::Unsound);
    }
    let v = View {
        words: store,
        layout: context::layout_of(store),
    };
    if answers.len() / 3 > u32::MAX as usize {
        return u32::from(Refusal::NoRoom);
    }
    let mut pen = Pen { out, at: 0 };
    listing::write_answers(answers, &mut pen);
    listing::write_listing(&v, &mut pen);
    *length = pen.at as u64;
    0
}

// The uses of a value or a block into the caller's buffer: 0 and their count, or the refusal.
fn tell_uses(r: Result<usize, Refusal>, count: &mut u64) -> u32
    ensures { (result ≡ code_of r) × (count.new ≡ count_in r) }
{
    *count = r.unwrap_or(0) as u64;
    code(r)
}

// The numbers of a value's uses, rising, in front of `uses`; `count` gets how many. 6, 10 or 22 where refused, and then `uses` is kept.
#[unsafe(no_mangle)]
pub extern "C" fn recipe_value_uses(
    store: &[u32],
    value: u32,
    uses: &mut [u32],
    count: &mut u64,
) -> u32
    ensures { UsesCalled store.now (of_value value) uses.old uses.new count.new result }
{
    tell_uses(
        readers::uses_of(store, Definition::Value(value), uses),
        count,
    )
}

// Kept (point 2): this one and the one above are two functions of the C interface.
// The numbers of a block's uses, likewise. 6, 8 or 22 where refused.
#[unsafe(no_mangle)]
pub extern "C" fn recipe_block_uses(
    store: &[u32],
    block: u32,
    uses: &mut [u32],
    count: &mut u64,
) -> u32
    ensures { UsesCalled store.now (of_block block) uses.old uses.new count.new result }
{
    tell_uses(
        readers::uses_of(store, Definition::Block(block), uses),
        count,
    )
}
