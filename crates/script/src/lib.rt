// The public entry points of a store in one lent buffer: a single edit, and a script of edits.
#![tactic(auto)]

ghost use Rattle.std.specs.Prelude.{◌≡◌, ◌/◌, ◌≤◌, ◌<◌, length, replicate};
ghost use Rattle.edit.specs.Record.{read};
ghost use Rattle.edit.specs.Taken.{record_kind, fields_of};
ghost use Rattle.context.specs.Memory.{SoundStore};
ghost use Rattle.edits.specs.Scratch.{Scratch};
ghost use Rattle.script.specs.Calls.{AnsweredWith, Edited, Scripted, Readied};
ghost use Rattle.script.specs.Records.{Obeyed, Stepped, RanWith};

use context::Layout;
use edit::{Answer, Refusal};

// How a script ended: at its end, or stopped by a refusal; `count` answers were written.
#[derive(Clone, Copy)]
pub struct Ran {
    pub end: Result<(), Refusal>,
    pub count: usize,
}

// A whole record of a script: refusals 2 to 4, or its edit.
fn obey(store: &mut [u32], scratch: &mut [u32], l: Layout, rec: &[u8]) -> Answer
    requires sound_store { SoundStore l store.old }
    requires scratch { Scratch l scratch.old }
    ensures { Obeyed l (read (record_kind rec.now) (fields_of rec.now)) store.old store.new scratch.old scratch.new result }
{
    let kind = edit::read_record(rec)?;
    edits::perform(store, scratch, l, rec, kind)
}

// One record of a script: refused, before it is looked at, where its answer has no room; else it is answered. Where the next
// one starts; none where this one is broken, and so the last.
fn record_step(
    store: &mut [u32],
    scratch: &mut [u32],
    l: Layout,
    script: &[u8],
    at: usize,
    answers: &mut [u32],
    count: usize,
) -> Result<Option<usize>, Refusal>
    requires sound_store { SoundStore l store.old }
    requires scratch { Scratch l scratch.old }
    requires at_in_bounds { at < length script.now }
    requires count_in_bounds { count ≤ length answers.old / 3 }
    ensures { Stepped l script.now at count store.old store.new scratch.old scratch.new answers.old answers.new result }
{
    if answers.len() / 3 <= count {
        return Err(Refusal::NoRoom);
    }
    let Some(end) = edit::next_record(script, at).unwrap_or(None) else {
        edit::put_answer(answers, count, Err(Refusal::Malformed));
        return Ok(None);
    };
    let a = obey(store, scratch, l, &script[at..end]);
    edit::put_answer(answers, count, a);
    Ok(Some(end))
}

// The records of a script, one after another, on a sound store.
fn run_records(
    store: &mut [u32],
    scratch: &mut [u32],
    l: Layout,
    script: &[u8],
    answers: &mut [u32],
) -> Ran
    requires sound_store { SoundStore l store.old }
    requires scratch { Scratch l scratch.old }
    ensures { RanWith l script.now store.old store.new scratch.old scratch.new answers.old answers.new result }
{
    let mut at = 0;
    let mut count = 0;
    while at < script.len() {
        match record_step(store, scratch, l, script, at, answers, count) {
            Ok(Some(end)) => {
                at = end;
                count += 1;
            }
            Ok(None) => {
                let count = count + 1;
                return Ran { end: Ok(()), count };
            }
            Err(refusal) => {
                let end = Err(refusal);
                return Ran { end, count };
            }
        }
    }
    Ran { end: Ok(()), count }
}

// The layout of a sound store, for an edit with a scratch of so many words: refused where the store is not sound, and then
// where the scratch is short.
fn ready(store: &[u32], room: usize) -> Result<Layout, Refusal>
    ensures { Readied store.now room result }
{
    if !sound::check(store) {
        return Err(Refusal::Unsound);
    }
    let l = context::layout_of(store);
    if room < l.ops {
        return Err(Refusal::NoRoom);
    }
    Ok(l)
}

// A whole record: refusals 2 to 4, then 6 and 22, or its edit.
fn answer(store: &mut [u32], scratch: &mut [u32], rec: &[u8]) -> Answer
    requires { scratch.old ≡ replicate (length scratch.old) 0 }
    ensures { AnsweredWith (read (record_kind rec.now) (fields_of rec.now)) store.old store.new scratch.old scratch.new result }
{
    let kind = edit::read_record(rec)?;
    let l = ready(store, scratch.len())?;
    edits::perform(store, scratch, l, rec, kind)
}

// One edit, put to whatever the buffer holds: 1 where the bytes are not one record, 2 to 4, 6, 22 where the scratch has
// fewer words than the store has operation places, and then as the rules have it. A refusal keeps the store. The scratch is
// all zeros after it.
pub fn edit(store: &mut [u32], scratch: &mut [u32], bytes: &[u8]) -> Answer
    ensures { Edited bytes.now store.old store.new scratch.old scratch.new result }
{
    scratch.fill(0);
    if edit::next_record(bytes, 0)? != Some(bytes.len()) {
        return Err(Refusal::Malformed);
    }
    answer(store, scratch, bytes)
}

// A script, put to whatever the buffer holds: 6, then 22 for the scratch, once; then its records, each answered in three
// words while there is room. How it ended is returned. The scratch is all zeros after it.
pub fn script(store: &mut [u32], scratch: &mut [u32], script: &[u8], answers: &mut [u32]) -> Ran
    ensures { Scripted script.now store.old store.new scratch.old scratch.new answers.old answers.new result }
{
    scratch.fill(0);
    match ready(store, scratch.len()) {
        Ok(l) => run_records(store, scratch, l, script, answers),
        Err(refusal) => Ran {
            end: Err(refusal),
            count: 0,
        },
    }
}
