// An arena at its limits: one place, all 16,384, a freed place taken again, the last birth number, numbers that are not found, and
// damaged slices. Each step checks the slice that it is handed, and asks for nothing that the arena does not have.
#![tactic(auto)]

ghost use Rattle.std.specs.Prelude.{◌≡◌, length};
ghost use Rattle.arena.specs.Packed.{Packed};

use std::io;
use unbuffered::Unbuffered;

// What a birth lacks.
#[derive(Clone, Copy)]
enum Lack {
    Place,
    Number,
}

fn try_birth(m: &mut [u32], n: usize) -> Result<usize, Lack>
    requires { Packed n m.old }
    ensures { Packed n m.new }
{
    if n <= arena::taken(m, n) {
        return Err(Lack::Place);
    }
    if arena::upcoming(m, n) == u32::MAX {
        return Err(Lack::Number);
    }
    Ok(arena::birth(m, n))
}

// One birth, and what it answers.
fn birth(rt: &impl Print, m: &mut [u32], n: usize) -> io::Result<()> {
    if !arena::check(m, n) {
        return print!(rt; "birth: refused\n");
    }
    let number = arena::upcoming(m, n);
    match try_birth(m, n) {
        Ok(place) => println!(rt; "birth: number {number} at place {place}"),
        Err(Lack::Place) => print!(rt; "birth: no place left\n"),
        Err(Lack::Number) => print!(rt; "birth: no number left\n"),
    }
}

// As many births as there are places, and then how many things live.
fn fill(rt: &impl Print, m: &mut [u32], n: usize) -> io::Result<()> {
    if !arena::check(m, n) {
        return print!(rt; "fill: refused\n");
    }
    for _ in 0..n {
        if try_birth(m, n).is_err() {
            break;
        }
    }
    let taken = arena::taken(m, n);
    print!(rt; "fill: {taken} of {n} places taken\n")
}

// The thing at place `p` ends.
fn end(rt: &impl Print, m: &mut [u32], n: usize, p: usize) -> io::Result<()> {
    if !arena::check(m, n) {
        return print!(rt; "end: refused\n");
    }
    if !arena::is_live(m, n, p) {
        return print!(rt; "end: place {p} is free\n");
    }
    arena::end(m, n, p);
    print!(rt; "end: place {p} freed\n")
}

// Where the thing with the number `x` lives.
fn find(rt: &impl Print, m: &[u32], n: usize, x: u32) -> io::Result<()> {
    if !arena::check(m, n) {
        return print!(rt; "find: refused\n");
    }
    match arena::find(m, n, x) {
        Some(p) => println!(rt; "find: number {x} at place {p}"),
        None => print!(rt; "find: number {x} is not alive\n"),
    }
}

// The things alive, number@place, by rising number.
fn list(rt: &impl Print, m: &[u32], n: usize) -> io::Result<()> {
    if !arena::check(m, n) {
        return print!(rt; "live: refused\n");
    }
    print!(rt; "live:")?;
    for k in 0..arena::taken(m, n) {
        let p = arena::nth_live(m, n, k);
        let number = arena::number_at(m, n, p);
        print!(rt; " {number}@{p}")?;
    }
    println!(rt)
}

// What the check says of a slice.
fn verdict(rt: &impl Print, m: &[u32], n: usize, what: &str) -> io::Result<()> {
    let verdict = if arena::check(m, n) {
        ": an arena\n"
    } else {
        ": refused\n"
    };
    print!(rt; "check: {what}{verdict}")
}

// One place: born, full, ended, born again with another number.
fn one_place(rt: &impl Print) -> io::Result<()> {
    print!(rt; "one place\n")?;
    let mut m = [0u32; 6];
    arena::start(&mut m, 1);
    birth(rt, &mut m, 1)?;
    birth(rt, &mut m, 1)?;
    end(rt, &mut m, 1, 0)?;
    end(rt, &mut m, 1, 0)?;
    birth(rt, &mut m, 1)?;
    find(rt, &m, 1, 0)?;
    find(rt, &m, 1, 1)?;
    find(rt, &m, 1, 2)?;
    list(rt, &m, 1)
}

// All places of the largest arena: freed ones are taken again, the lowest first, and in the last word too.
fn all_places(rt: &impl Print) -> io::Result<()> {
    print!(rt; "16,384 places\n")?;
    let mut m = [0u32; 33282];
    arena::start(&mut m, 16384);
    fill(rt, &mut m, 16384)?;
    birth(rt, &mut m, 16384)?;
    for p in [16383, 64, 7, 16384] {
        end(rt, &mut m, 16384, p)?;
    }
    find(rt, &m, 16384, 64)?;
    find(rt, &m, 16384, 16382)?;
    for _ in 0..4 {
        birth(rt, &mut m, 16384)?;
    }
    find(rt, &m, 16384, 16384)?;
    find(rt, &m, 16384, 16386)?;
    find(rt, &m, 16384, u32::MAX)
}

// The largest birth number, and none after it.
fn last_number(rt: &impl Print) -> io::Result<()> {
    print!(rt; "the last number\n")?;
    let mut m = [0u32; 10];
    arena::start(&mut m, 3);
    birth(rt, &mut m, 3)?;
    m[0] = 4294967294;
    birth(rt, &mut m, 3)?;
    birth(rt, &mut m, 3)?;
    find(rt, &m, 3, 4294967294)?;
    end(rt, &mut m, 3, 0)?;
    birth(rt, &mut m, 3)?;
    list(rt, &m, 3)
}

// Slices that hold no arena.
fn damaged(rt: &impl Print) -> io::Result<()> {
    print!(rt; "damaged slices\n")?;
    let mut m = [0u32; 10];
    arena::start(&mut m, 3);
    fill(rt, &mut m, 3)?;
    end(rt, &mut m, 3, 1)?;
    list(rt, &m, 3)?;
    verdict(rt, &m, 3, "as it is")?;
    verdict(rt, &m, 2, "another capacity")?;
    m[2] = 2;
    m[3] = 0;
    verdict(rt, &m, 3, "order torn")?;
    m[2] = 0;
    m[3] = 2;
    m[4] = 1;
    verdict(rt, &m, 3, "order past its end")?;
    m[4] = 0;
    m[8] = 7;
    verdict(rt, &m, 3, "bit of a free place")?;
    m[8] = 13;
    verdict(rt, &m, 3, "bit past the places")?;
    m[8] = 5;
    m[0] = 2;
    verdict(rt, &m, 3, "number above the next")?;
    m[0] = 3;
    m[1] = 3;
    verdict(rt, &m, 3, "live count")?;
    birth(rt, &mut m, 3)?;
    m[1] = 2;
    birth(rt, &mut m, 3)
}

fn run(rt: &impl Print) -> io::Result<()> {
    one_place(rt)?;
    all_places(rt)?;
    last_number(rt)?;
    damaged(rt)
}

// Output that cannot be written is no failure: the program goes on, and ends silently, with status 0.
fn main(rt: HostRuntime) {
    let _ = run(&Unbuffered(&rt));
}
