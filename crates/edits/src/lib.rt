// One edit record, put to a sound store: by its kind, to the function that carries it out.
#![tactic(auto)]

ghost use Rattle.edit.specs.Kinds.{kind_number};
ghost use Rattle.edit.specs.Taken.{Passed, fields_of, edit_by};
ghost use Rattle.context.specs.Memory.{SoundStore};
ghost use Rattle.edits.specs.Scratch.{Scratch, PerformedWith};

use context::Layout;
use context::view::View;
use edit::{Answer, Kind};

// Puts the edit of a record that was read to the store.
pub fn perform(m: &mut [u32], scratch: &mut [u32], l: Layout, rec: &[u8], kind: Kind) -> Answer
    requires sound_store { SoundStore l m.old }
    requires scratch { Scratch l scratch.old }
    requires passed { Passed (kind_number kind) (fields_of rec.now) }
    ensures { PerformedWith l (edit_by kind (fields_of rec.now)) m.old m.new scratch.old scratch.new result }
{
    let a = edit::field(rec, 0);
    let b = edit::field(rec, 1);
    let c = edit::field(rec, 2);
    match kind {
        Kind::NewOperation => creation::new_operation(m, l, rec),
        Kind::NewBlock => creation::new_block(m, l, rec),
        Kind::PushUse(slot) => uses::push_use(m, l, slot, a, b),
        Kind::InsertUse(slot) => uses::insert_use(m, l, slot, a, b, c),
        Kind::ReplaceUse(slot) => uses::replace_use(m, l, slot, a, b, c),
        Kind::RemoveUse(slot) => uses::remove_use(m, l, slot, a, b),
        Kind::PopUse(slot) => uses::pop_use(m, l, slot, a),
        Kind::PushValue(owner) => values::push_value(m, l, owner, a, b),
        Kind::InsertValue(owner) => values::insert_value(m, l, owner, a, b, c),
        Kind::RemoveValue(owner) => values::remove_value(m, l, owner, a, b),
        Kind::PopValue(owner) => values::pop_value(m, l, owner, a),
        Kind::LinkAfter(member) => links::link_after(m, l, member, a, b),
        Kind::LinkBefore(member) => links::link_before(m, l, member, a, b),
        Kind::LinkFront(member) => links::link_front(m, l, member, a, b),
        Kind::LinkBack(member) => links::link_back(m, l, member, a, b),
        Kind::Unlink(member) => links::unlink_from(m, l, member, a),
        Kind::MoveRegion => links::move_region(m, l, a, b),
        Kind::MoveUse(slot) => uses::move_use_to(m, l, slot, a, b, c),
        Kind::ReplaceSome => uses::replace_some(m, l, rec),
        Kind::RetargetSome => uses::retarget_some(m, l, rec),
        Kind::DropUses(thing) => walk::drop_uses(m, l, thing, a),
        Kind::Erase(member) => walk::erase(m, l, scratch, member, a),
        // Kept (point 4): u32 to usize has no From; a narrower parameter there would ask more.
        Kind::EraseRegion => walk::erase_region(m, l, scratch, a, b as usize),
        Kind::Verdict(thing) => {
            let v = View {
                words: m,
                layout: l,
            };
            walk::verdict(&v, thing, a)
        }
    }
}
