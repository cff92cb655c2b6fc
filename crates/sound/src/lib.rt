// The check of one lent buffer: each part by itself, then what the parts say of each other.
#![tactic(auto)]

ghost use Rattle.std.specs.Prelude.{◌≡◌};
ghost use Rattle.seqs.specs.Seqs.{Says};
ghost use Rattle.places.specs.Store.{Sound};
ghost use Rattle.context.specs.Kinds.{kind_of, fam_of};
ghost use Rattle.context.specs.Layout.{nn_of};
ghost use Rattle.context.specs.Memory.{layout_of, state_of, Well, SoundStore};
ghost use Rattle.sound.specs.Crossing.{BirthsOf, RowsOf, UsesCross, ValsCross, NestCross};

use context::{Family, Kind, Layout};
use sound_parts::{Births, Nest, Rows};

// The order and the stamps of a kind: the first words of its table.
fn births<'a>(m: &'a [u32], l: Layout, k: Kind) -> Births<'a>
    requires { Well l m.now }
    ensures { BirthsOf l (kind_of k) m.now result }
{
    let t = context::table_span(l, k);
    let end = t.at + arena::front_len(t.places);
    Births {
        words: &m[t.at..end],
        places: t.places,
    }
}

// The lists of a family, whose nodes are given.
fn rows<'a>(m: &'a [u32], l: Layout, f: Family, nodes: Births<'a>) -> Rows<'a>
    requires well { Well l m.now }
    requires sized { nodes.places ≡ nn_of l (fam_of f) }
    ensures lists { RowsOf l (fam_of f) m.now result }
    ensures nodes { (result.nodes.places ≡ nodes.entry.places) × (result.nodes.words.now ≡ nodes.entry.words.now) }
{
    let s = context::family_span(l, f);
    Rows {
        words: &m[s.at..s.end],
        lists: s.lists,
        nodes,
    }
}

// Whether uses, their slots and their definitions fit together.
fn cross_uses(m: &[u32], l: Layout) -> bool
    requires { Well l m.now }
    ensures { Says result (UsesCross l m.now) }
{
    let ops = births(m, l, Kind::Operation);
    let blocks = births(m, l, Kind::Block);
    let values = births(m, l, Kind::Value);
    let uses = births(m, l, Kind::Use);
    let slots = rows(m, l, Family::Slots, uses);
    let sets = rows(m, l, Family::UseSets, uses);
    sound_parts::check_uses(&ops, &blocks, &values, &slots, &sets)
}

// Whether values and their owners do.
fn cross_values(m: &[u32], l: Layout) -> bool
    requires { Well l m.now }
    ensures { Says result (ValsCross l m.now) }
{
    let ops = births(m, l, Kind::Operation);
    let blocks = births(m, l, Kind::Block);
    let values = rows(m, l, Family::Values, births(m, l, Kind::Value));
    sound_parts::check_values(&ops, &blocks, &values)
}

// Whether operations, regions and blocks do, the flags are at most 3 and nothing lies inside itself.
fn cross_nest(m: &[u32], l: Layout) -> bool
    requires { Well l m.now }
    ensures { Says result (NestCross l m.now) }
{
    let ops = births(m, l, Kind::Operation);
    let blocks = births(m, l, Kind::Block);
    let regions = births(m, l, Kind::Region);
    let nest = Nest {
        ops: rows(m, l, Family::Operations, ops),
        blocks: rows(m, l, Family::Blocks, blocks),
        regions: rows(m, l, Family::Regions, regions),
    };
    let at = context::flags_at(l);
    let end = at + ops.places;
    let alive = context::live_count(m, l, Kind::Operation);
    sound_parts::check_nest(&nest, &m[at..end], alive)
}

// Whether the parts of a buffer, each well formed, are a sound store.
fn check_crossing(m: &[u32], l: Layout) -> bool
    requires { Well l m.now }
    ensures { Says result (Sound (state_of l m.now)) }
{
    cross_uses(m, l) && cross_values(m, l) && cross_nest(m, l)
}

// Whether a lent buffer is a sound store, with the capacities of its header. For a buffer of any length and contents.
pub fn check(m: &[u32]) -> bool
    ensures { Says result (SoundStore (layout_of m.now) m.now) }
{
    if m.len() < 5 {
        return false;
    }
    let l = context::layout_of(m);
    context::check_parts(m, l) && check_crossing(m, l)
}
