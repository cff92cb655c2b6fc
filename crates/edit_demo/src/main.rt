// Edit records at their limits, one line each: what is found at the start of the bytes, and what the record is read as.
#![tactic(auto)]

ghost use Rattle.std.specs.Prelude.{◌≤◌};

use edit::Refusal;
use std::io;
use unbuffered::Unbuffered;

// The kind of the record at the start of the bytes: none if there are no bytes.
fn first_kind(bytes: &[u8]) -> Result<Option<u32>, Refusal> {
    let Some(end) = edit::next_record(bytes, 0)? else {
        return Ok(None);
    };
    let rec = &bytes[..end];
    edit::read_record(rec)?;
    Ok(Some(edit::kind_of(rec)))
}

// What is found at the start of the bytes. That they are no record is one piece.
fn show(rt: &impl Print, bytes: &[u8]) -> io::Result<()> {
    match first_kind(bytes) {
        Ok(None) => println!(rt; "nothing"),
        Ok(Some(kind)) => println!(rt; "kind {kind}"),
        Err(Refusal::Malformed) => println!(rt; "refused 1"),
        Err(refusal) => println!(rt; "refused {}", u32::from(refusal)),
    }
}

// The first `left` bytes of a record with this length and the kind of this number; its fields are zeros but for the first
// and the fifth.
fn case(
    rt: &impl Print,
    name: &str,
    left: usize,
    length: u16,
    number: u16,
    first: u8,
    fifth: u8,
) -> io::Result<()>
    requires { left ≤ 2060 }
{
    let mut b = [0u8; 2060];
    b[..2].copy_from_slice(&length.to_le_bytes());
    b[2..4].copy_from_slice(&number.to_le_bytes());
    b[4] = first;
    b[20] = fifth;
    print!(rt; "{name}: ")?;
    show(rt, &b[0..left])
}

fn lengths(rt: &impl Print) -> io::Result<()> {
    case(rt, "no bytes", 0, 8, 36, 0, 0)?;
    case(rt, "1 byte", 1, 8, 36, 0, 0)?;
    case(rt, "2 bytes", 2, 8, 36, 0, 0)?;
    case(rt, "3 bytes", 3, 8, 36, 0, 0)?;
    case(rt, "4 bytes of 8", 4, 8, 36, 0, 0)?;
    case(rt, "length 3", 8, 3, 36, 0, 0)?;
    case(rt, "length 4", 8, 4, 36, 0, 0)?;
    case(rt, "length 8", 8, 8, 36, 0, 0)?;
    case(rt, "length 10", 12, 10, 36, 0, 0)?;
    case(rt, "length 12 of 11 bytes", 11, 12, 3, 0, 0)?;
    case(rt, "length 2044", 2060, 2044, 36, 0, 0)?;
    case(rt, "length 2048", 2060, 2048, 36, 0, 0)?;
    case(rt, "length 2052", 2060, 2052, 36, 0, 0)?;
    case(rt, "length 2052, kind 0", 2060, 2052, 0, 0, 0)
}

fn kinds(rt: &impl Print) -> io::Result<()> {
    case(rt, "kind 0", 8, 8, 0, 0, 0)?;
    case(rt, "kind 1", 24, 24, 1, 0, 0)?;
    case(rt, "kind 44", 8, 8, 44, 0, 0)?;
    case(rt, "kind 45", 8, 8, 45, 0, 0)?;
    case(rt, "kind 45, no fields", 4, 4, 45, 0, 0)?;
    case(rt, "kind 3, one field", 8, 8, 3, 0, 0)?;
    case(rt, "kind 3, two fields", 12, 12, 3, 0, 0)?;
    case(rt, "kind 3, three fields", 16, 16, 3, 0, 0)
}

fn limits(rt: &impl Print) -> io::Result<()> {
    case(rt, "flags 3", 24, 24, 1, 3, 0)?;
    case(rt, "flags 4", 24, 24, 1, 4, 0)?;
    case(rt, "flags 4, four fields", 20, 20, 1, 4, 0)?;
    case(rt, "flags 4, six fields", 28, 28, 1, 4, 0)?;
    case(rt, "64 regions", 24, 24, 1, 0, 64)?;
    case(rt, "65 regions", 24, 24, 1, 0, 65)?;
    case(rt, "64 arguments", 264, 264, 2, 64, 0)?;
    case(rt, "64 arguments, a field more", 268, 268, 2, 64, 0)?;
    case(rt, "64 arguments, a field less", 260, 260, 2, 64, 0)?;
    case(rt, "65 arguments", 268, 268, 2, 65, 0)?;
    case(rt, "256 uses listed", 1036, 1036, 34, 0, 0)?;
    case(rt, "257 uses listed", 1040, 1040, 34, 0, 0)?;
    case(rt, "256 blocks listed", 1036, 1036, 35, 0, 0)?;
    case(rt, "257 blocks listed", 1040, 1040, 35, 0, 0)?;
    case(rt, "none listed", 12, 12, 35, 0, 0)
}

fn fields(rt: &impl Print) -> io::Result<()> {
    let rec = b"\x0c\x00\x03\x00\x01\x02\x03\x04\xff\xff\xff\xff";
    let a = edit::field(rec, 0);
    let b = edit::field(rec, 1);
    let c = edit::field(rec, 2);
    println!(rt; "fields: {a} {b} {c}")
}

fn answers(rt: &impl Print) -> io::Result<()> {
    let mut out = [9u32; 9];
    edit::put_answer(&mut out, 0, Err(Refusal::Used));
    edit::put_answer(&mut out, 1, Ok((7, 2)));
    print!(rt; "answers:")?;
    for word in &out {
        print!(rt; " {word}")?;
    }
    println!(rt)
}

fn run(rt: &impl Print) -> io::Result<()> {
    lengths(rt)?;
    kinds(rt)?;
    limits(rt)?;
    fields(rt)?;
    answers(rt)
}

// Output that cannot be written is no failure: the program goes on, and ends silently, with status 0.
fn main(rt: HostRuntime) {
    let _ = run(&Unbuffered(&rt));
}
