// Plays steps on the lists of `linked_list` and prints what stands in them after each, at the crate's limits: one container, the
// empty list, both ends, the middle, an index past the end, a list that is torn. A step is a letter and three digits:
//
//   F c 0 n  n at the front of c        B c 0 n  n at the back of c        I c i n  n at index i of c
//   A m 0 n  n after m                  P m 0 n  n before m                U 0 0 n  n unlinked
//   M c d 0  d appended to c            T i j v  v stored at cell 10 * i + j, whatever that tears
//   N 0 0 0  nothing, but each node's next, prev and container are printed
//
// A step whose requirements do not hold is refused: `act` tests each of them.
#![tactic(auto)]

ghost use Rattle.std.specs.Prelude.{◌≡◌, ◌+◌, ◌*◌, ◌<◌, ◌≤◌, length};
ghost use Rattle.linked_list.specs.Links.{Linked};

use linked_list::Lists;
use std::io;
use unbuffered::Unbuffered;

// Where in a container's list a node is put: at its front, at its back, or at an index.
#[derive(Clone, Copy)]
enum Place {
    Front,
    Back,
    At(usize),
}

// On which side of a node another is put.
#[derive(Clone, Copy)]
enum Side {
    After,
    Before,
}

#[derive(Clone, Copy)]
enum Step {
    Insert { at: Place, c: usize, n: usize },
    Beside { side: Side, m: usize, n: usize },
    Unlink { n: usize },
    Append { donee: usize, donor: usize },
    Tear { at: usize, v: u32 },
    Neighbours,
}

fn digit(b: u8) -> usize
    ensures { result ≤ 255 }
{
    b.saturating_sub(b'0') as usize
}

// The step that a letter and three digits say; none for another letter.
fn step_of(text: [u8; 4]) -> Option<Step> {
    let [letter, a, b, c] = text;
    let x = digit(a);
    let y = digit(b);
    let n = digit(c);
    let step = match letter {
        b'F' => Step::Insert {
            at: Place::Front,
            c: x,
            n,
        },
        b'B' => Step::Insert {
            at: Place::Back,
            c: x,
            n,
        },
        b'I' => Step::Insert {
            at: Place::At(y),
            c: x,
            n,
        },
        b'A' => Step::Beside {
            side: Side::After,
            m: x,
            n,
        },
        b'P' => Step::Beside {
            side: Side::Before,
            m: x,
            n,
        },
        b'U' => Step::Unlink { n },
        b'M' => Step::Append { donee: x, donor: y },
        b'T' => Step::Tear {
            at: 10 * x + y,
            v: n as u32,
        },
        b'N' => Step::Neighbours,
        _ => return None,
    };
    Some(step)
}

// A node or a container as it is stored: 0 for none.
fn stored(k: Option<usize>) -> usize {
    k.map_or(0, |k| k.saturating_add(1))
}

// Inserts n into c's list.
fn insert(lists: Lists, s: &mut [u32], at: Place, c: usize, n: usize) -> bool
    requires linked { Linked lists.nc lists.nn s.old }
{
    if c >= lists.nc || n >= lists.nn || lists.is_linked(s, n) {
        return false;
    }
    match at {
        Place::Front => lists.insert_at_front(s, c, n),
        Place::Back => lists.insert_at_back(s, c, n),
        Place::At(i) => lists.insert_at(s, c, i, n),
    }
    true
}

// Inserts n beside the mark m.
fn insert_beside(lists: Lists, s: &mut [u32], side: Side, m: usize, n: usize) -> bool
    requires linked { Linked lists.nc lists.nn s.old }
{
    if m >= lists.nn || n >= lists.nn || !lists.is_linked(s, m) || lists.is_linked(s, n) {
        return false;
    }
    match side {
        Side::After => lists.insert_after(s, m, n),
        Side::Before => lists.insert_before(s, m, n),
    }
    true
}

fn unlink(lists: Lists, s: &mut [u32], n: usize) -> bool
    requires linked { Linked lists.nc lists.nn s.old }
{
    if n >= lists.nn || !lists.is_linked(s, n) {
        return false;
    }
    lists.unlink(s, n);
    true
}

fn append(lists: Lists, s: &mut [u32], donee: usize, donor: usize) -> bool
    requires linked { Linked lists.nc lists.nn s.old }
{
    if donee >= lists.nc || donor >= lists.nc || donee == donor {
        return false;
    }
    lists.append_linked_list(s, donee, donor);
    true
}

fn tear(s: &mut [u32], at: usize, v: u32) -> bool {
    match s.get_mut(at) {
        Some(cell) => {
            *cell = v;
            true
        }
        None => false,
    }
}

// One step, on a slice of any contents: whether it is done, or refused.
fn act(rt: &impl Print, lists: Lists, s: &mut [u32], step: Step) -> io::Result<bool>
    requires s_len { length s.old ≡ 2 * lists.nc + 3 * lists.nn }
{
    Ok(match step {
        Step::Tear { at, v } => tear(s, at, v),
        _ if !lists.check_links(s) => false,
        Step::Insert { at, c, n } => insert(lists, s, at, c, n),
        Step::Beside { side, m, n } => insert_beside(lists, s, side, m, n),
        Step::Unlink { n } => unlink(lists, s, n),
        Step::Append { donee, donor } => append(lists, s, donee, donor),
        Step::Neighbours => {
            neighbours(rt, lists, s)?;
            true
        }
    })
}

// c's list, with its head and tail as they are stored.
fn show_row(rt: &impl Print, lists: Lists, s: &[u32], c: usize) -> io::Result<()>
    requires linked { Linked lists.nc lists.nn s.now }
    requires c_lt_nc { c < lists.nc }
{
    let head = stored(lists.get_head(s, c));
    print!(rt; " {head}[")?;
    for i in 0..lists.count(s, c) {
        let n = lists.nth(s, c, i);
        print!(rt; " {n}")?;
    }
    let tail = stored(lists.get_tail(s, c));
    print!(rt; " ]{tail}")
}

// Each node's next, prev and container as they are stored: a star before a node that is in a list.
fn neighbours(rt: &impl Print, lists: Lists, s: &[u32]) -> io::Result<()>
    requires linked { Linked lists.nc lists.nn s.now }
{
    for n in 0..lists.nn {
        let mark = if lists.is_linked(s, n) { " *" } else { " " };
        let next = stored(lists.get_next(s, n));
        let prev = stored(lists.get_prev(s, n));
        let container = stored(lists.get_container(s, n));
        print!(rt; "{mark}{n}:{next},{prev},{container}")?;
    }
    Ok(())
}

fn show(rt: &impl Print, lists: Lists, s: &[u32]) -> io::Result<()>
    requires s_len { length s.now ≡ 2 * lists.nc + 3 * lists.nn }
{
    if !lists.check_links(s) {
        return println!(rt; " torn");
    }
    for c in 0..lists.nc {
        show_row(rt, lists, s, c)?;
    }
    println!(rt)
}

fn take_step(rt: &impl Print, lists: Lists, s: &mut [u32], text: [u8; 4]) -> io::Result<()>
    requires s_len { length s.old ≡ 2 * lists.nc + 3 * lists.nn }
{
    rt.write_all(&text)?;
    let done = match step_of(text) {
        Some(step) => act(rt, lists, s, step)?,
        None => false,
    };
    let outcome = if done { " done" } else { " refused" };
    print!(rt; "{outcome}")?;
    show(rt, lists, s)
}

fn play(rt: &impl Print, lists: Lists, s: &mut [u32], steps: &[u8]) -> io::Result<()>
    requires s_len { length s.old ≡ 2 * lists.nc + 3 * lists.nn }
{
    print!(rt; "start")?;
    show(rt, lists, s)?;
    lists.init(s);
    print!(rt; "init")?;
    show(rt, lists, s)?;
    for &text in steps.as_chunks().0 {
        take_step(rt, lists, s, text)?;
    }
    Ok(())
}

fn run(rt: &impl Print) -> io::Result<()> {
    let mut one = [7u32; 8];
    play(
        rt,
        Lists { nc: 1, nn: 2 },
        &mut one,
        b"N000U000F001F001B000N000U001U000A000P000M000M010F100F002",
    )?;
    let mut two = [1u32; 22];
    play(
        rt,
        Lists { nc: 2, nn: 6 },
        &mut two,
        b"B000B001F002I013I094A005N000U002U005U004N000B104P005M010M010M100P102U005T005F003T000T096T156T212N000T090T150T210T041U000T043U003",
    )
}

// Output that cannot be written is no failure: the program goes on, and ends silently, with status 0.
fn main(rt: HostRuntime) {
    let _ = run(&Unbuffered(&rt));
}
