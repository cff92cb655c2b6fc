// A sound store with every part of its layout in use, each word of which is damaged in turn: what the check says, by part.
#![tactic(auto)]

use context::Layout;
use std::{fmt, io};
use unbuffered::Unbuffered;

// The capacities, and where each part starts. Up to 64 places have two words of occupancy.
const O: usize = 6;

const B: usize = 4;

const R: usize = 4;

const V: usize = 7;

const U: usize = 10;

const TABLE_O: usize = 5;

const TABLE_B: usize = TABLE_O + 4 + 2 * O;

const TABLE_R: usize = TABLE_B + 4 + 2 * B;

const TABLE_V: usize = TABLE_R + 4 + 2 * R;

const TABLE_U: usize = TABLE_V + 4 + 2 * V;

const SLOTS: usize = TABLE_U + 4 + 2 * U;

const USE_SETS: usize = SLOTS + 4 * O + 3 * U;

const VALUES: usize = USE_SETS + 2 * (V + B) + 3 * U;

const REGIONS: usize = VALUES + 2 * (O + B) + 3 * V;

const OPERATIONS: usize = REGIONS + 2 * O + 3 * R;

const BLOCKS: usize = OPERATIONS + 2 * B + 3 * O;

const FLAGS: usize = BLOCKS + 2 * R + 3 * B;

const TYPES: usize = FLAGS + O;

const PAST: usize = TYPES + V;

const WORDS: usize = PAST + 4;

// The highest bit of a word.
const TOP_BIT: u32 = 1 << 31;

// One record as a single edit, put to the store.
fn put(rt: &impl Print, store: &mut [u32], rec: &[u8]) -> io::Result<()> {
    let mut scratch = [0u32; 8];
    match script::edit(store, &mut scratch, rec) {
        Ok((x, y)) => println!(rt; "ok {x} {y}"),
        Err(refusal) => println!(rt; "no {}", u32::from(refusal)),
    }
}

// The record of an edit whose fields are all below 256, put to the store.
fn ask(rt: &impl Print, store: &mut [u32], kind: u8, fields: &[u8]) -> io::Result<()> {
    if 15 < fields.len() {
        return Ok(());
    }
    let end = 4 + 4 * fields.len();
    let mut rec = [0u8; 64];
    rec[0] = end as u8;
    rec[2] = kind;
    for (i, x) in fields.iter().enumerate() {
        rec[4 + 4 * i] = *x;
    }
    put(rt, store, &rec[..end])
}

// Block 0 has values 0 and 1 and operation 0, which has value 2, a use of value 0 and regions 0 and 1.
fn outer(rt: &impl Print, store: &mut [u32]) -> io::Result<()> {
    ask(rt, store, 2, b"\x02\x07\x08")?;
    ask(rt, store, 1, b"\x02\x01\x01\x00\x02\x07\x00")?;
    ask(rt, store, 24, b"\x00\x00")
}

// Region 0 has block 1, with value 3, and block 2.
fn blocks(rt: &impl Print, store: &mut [u32]) -> io::Result<()> {
    ask(rt, store, 2, b"\x01\x07")?;
    ask(rt, store, 2, b"\x00")?;
    ask(rt, store, 29, b"\x01\x00")?;
    ask(rt, store, 29, b"\x02\x00")
}

// Operation 1 has two results and four operands, three of them of value 0. Operation 2 reads value 4 and names block 2 twice
// and block 1 once. It and operation 3 are terminators.
fn inner(rt: &impl Print, store: &mut [u32]) -> io::Result<()> {
    ask(
        rt,
        store,
        1,
        b"\x00\x02\x04\x00\x00\x08\x09\x00\x00\x03\x00",
    )?;
    ask(rt, store, 1, b"\x01\x00\x01\x03\x00\x04\x02\x02\x01")?;
    ask(rt, store, 1, b"\x03\x00\x00\x00\x00")?;
    ask(rt, store, 24, b"\x01\x01")?;
    ask(rt, store, 24, b"\x02\x01")?;
    ask(rt, store, 24, b"\x03\x02")
}

// A use ends, a value ends, and operation 4 ends with its region and its use.
fn ended(rt: &impl Print, store: &mut [u32]) -> io::Result<()> {
    ask(rt, store, 6, b"\x01\x01")?;
    ask(rt, store, 15, b"\x01\x01")?;
    ask(rt, store, 1, b"\x00\x00\x01\x00\x01\x00")?;
    ask(rt, store, 39, b"\x04")
}

fn fill(rt: &impl Print, store: &mut [u32]) -> io::Result<()> {
    outer(rt, store)?;
    blocks(rt, store)?;
    inner(rt, store)?;
    ended(rt, store)
}

// A way to damage a word: the first five put another in its place, the last changes it over with the one after it.
#[derive(Clone, Copy)]
enum Damage {
    Zero,
    Up,
    Down,
    TopBit,
    Ones,
    Swap,
}

const WAYS: [Damage; 6] = [
    Damage::Zero,
    Damage::Up,
    Damage::Down,
    Damage::TopBit,
    Damage::Ones,
    Damage::Swap,
];

// Word `i` with `d` in its place, judged and put back: whether the store is sound. A change that leaves the word as it was is
// no damage.
fn replace(m: &mut [u32], i: usize, d: u32) -> Option<bool> {
    if m.len() <= i || m[i] == d {
        return None;
    }
    let w = m[i];
    m[i] = d;
    let sound = sound::check(m);
    m[i] = w;
    Some(sound)
}

// Words `i` and `i + 1` changed over, judged and put back.
fn swap(m: &mut [u32], i: usize) -> Option<bool> {
    if m.len().saturating_sub(1) <= i || m[i] == m[i + 1] {
        return None;
    }
    m.swap(i, i + 1);
    let sound = sound::check(m);
    m.swap(i, i + 1);
    Some(sound)
}

fn damaged(m: &mut [u32], i: usize, way: Damage) -> Option<bool> {
    let w = *m.get(i)?;
    match way {
        Damage::Zero => replace(m, i, 0),
        Damage::Up => replace(m, i, w.wrapping_add(1)),
        Damage::Down => replace(m, i, w.wrapping_sub(1)),
        Damage::TopBit => replace(m, i, w ^ TOP_BIT),
        Damage::Ones => replace(m, i, u32::MAX),
        Damage::Swap => swap(m, i),
    }
}

// How many damaged stores are refused, and how many are sound.
#[derive(Clone, Copy, Default)]
struct Counts {
    refused: usize,
    sound: usize,
}

impl Counts {
    fn count(&mut self, sound: bool) {
        if sound {
            self.sound = self.sound.wrapping_add(1);
        } else {
            self.refused = self.refused.wrapping_add(1);
        }
    }

    fn add(&mut self, other: Counts) {
        self.refused = self.refused.wrapping_add(other.refused);
        self.sound = self.sound.wrapping_add(other.sound);
    }
}

impl fmt::Display for Counts {
    fn fmt<W: fmt::Write>(&self, f: &mut fmt::Formatter<W>) -> fmt::Result {
        let Counts { refused, sound } = *self;
        write!(f, "{refused} {sound}")
    }
}

// One way of damage at each word of a part.
fn try_part(m: &mut [u32], from: usize, to: usize, way: Damage) -> Counts {
    let mut counts = Counts::default();
    for i in from..to {
        if let Some(sound) = damaged(m, i, way) {
            counts.count(sound);
        }
    }
    counts
}

// All ways at a part: what each gives, and the sum.
fn part(rt: &impl Print, m: &mut [u32], name: &str, from: usize, to: usize) -> io::Result<()> {
    print!(rt; "{name}:")?;
    let mut sum = Counts::default();
    for way in WAYS {
        let counts = try_part(m, from, to, way);
        print!(rt; " {counts},")?;
        sum.add(counts);
    }
    print!(rt; " in all")?;
    println!(rt; " {sum}")
}

fn tables(rt: &impl Print, m: &mut [u32]) -> io::Result<()> {
    part(rt, m, "header", 0, TABLE_O)?;
    part(rt, m, "table of operations", TABLE_O, TABLE_B)?;
    part(rt, m, "table of blocks", TABLE_B, TABLE_R)?;
    part(rt, m, "table of regions", TABLE_R, TABLE_V)?;
    part(rt, m, "table of values", TABLE_V, TABLE_U)?;
    part(rt, m, "table of uses", TABLE_U, SLOTS)
}

fn families(rt: &impl Print, m: &mut [u32]) -> io::Result<()> {
    part(rt, m, "slots", SLOTS, USE_SETS)?;
    part(rt, m, "use sets", USE_SETS, VALUES)?;
    part(rt, m, "results and arguments", VALUES, REGIONS)?;
    part(rt, m, "regions of operations", REGIONS, OPERATIONS)?;
    part(rt, m, "operations of blocks", OPERATIONS, BLOCKS)?;
    part(rt, m, "blocks of regions", BLOCKS, FLAGS)
}

fn tags(rt: &impl Print, m: &mut [u32]) -> io::Result<()> {
    part(rt, m, "flags", FLAGS, TYPES)?;
    part(rt, m, "types", TYPES, PAST)?;
    part(rt, m, "past the sum", PAST, WORDS)
}

// What the check says of the store as it is.
fn judge(rt: &impl Print, m: &[u32]) -> io::Result<()> {
    let verdict = if sound::check(m) {
        "the store is sound\n"
    } else {
        "the store is refused\n"
    };
    print!(rt; "{verdict}")
}

fn run(rt: &impl Print) -> io::Result<()> {
    let l = Layout {
        ops: O,
        blocks: B,
        regions: R,
        values: V,
        uses: U,
    };
    let mut store = [9u32; WORDS];
    let _ = context::start(&mut store, l);
    fill(rt, &mut store)?;
    judge(rt, &store)?;
    let words = context::words_needed(l).unwrap_or(0);
    print!(rt; "words {words}; refused and sound, by 0, +1, -1, top bit, all ones, swap\n")?;
    tables(rt, &mut store)?;
    families(rt, &mut store)?;
    tags(rt, &mut store)?;
    judge(rt, &store)
}

// Output that cannot be written is no failure: the program goes on, and ends silently, with status 0.
fn main(rt: HostRuntime) {
    let _ = run(&Unbuffered(&rt));
}
