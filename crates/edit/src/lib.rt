// The edit record taken apart, and the answer to an edit.
//
// A record is a length and a kind of 16 bits each and then fields of 32 bits, little-endian. No function that reads
// bytes requires anything of them: what is wrong with a record is an answer.
#![tactic(auto)]

ghost use Rattle.std.specs.Prelude.{◌≡◌, true, false, ◌+◌, ◌-◌, ◌*◌, ◌^◌, ◌≤◌, ◌<◌, length, get_or};
ghost use Rattle.edit.specs.Answer.{Put, numbers, numbers_of};
ghost use Rattle.edit.specs.Kinds.{number_of, nested_of, kind_number, Names};
ghost use Rattle.edit.specs.Record.{least, over, filled};
ghost use Rattle.edit.specs.Taken.{NextCut, Taken, record_kind, fields_of, number_at};

// Why something is refused; the numbers are the document's, from 1 in this order.
#[derive(Clone, Copy, Debug, PartialEq, Eq)]
pub enum Refusal {
    Malformed = 1,
    UnknownKind,
    FieldCount,
    OverLimit,
    Capacity,
    Unsound,
    NoOperation,
    NoBlock,
    NoRegion,
    NoValue,
    NoUse,
    NoIndex,
    Used,
    UsedInside,
    Linked,
    Unlinked,
    InsideItself,
    StrayUser,
    ListFull,
    NoPlace,
    NoNumber,
    NoRoom,
}

// The document's number.
impl From<Refusal> for u32 {
    ghost from_gives = { λ r n. n ≡ number_of r };

    fn from(refusal: Refusal) -> u32 {
        refusal as u32
    }
}

// A and B of an accepted edit, or the refusal.
pub type Answer = Result<(u32, u32), Refusal>;

// Which of an operation's two lists of uses.
#[derive(Clone, Copy, Debug, PartialEq, Eq)]
pub enum Slot {
    Operand,
    Successor,
}

// What stands in lists and owns values: results or arguments.
#[derive(Clone, Copy, Debug, PartialEq, Eq)]
pub enum Member {
    Operation,
    Block,
}

// What has an inside.
#[derive(Clone, Copy, Debug, PartialEq, Eq)]
pub enum Nested {
    Operation,
    Block,
    Region,
}

impl From<Member> for Nested {
    ghost from_gives = { λ w n. n ≡ nested_of w };

    fn from(w: Member) -> Nested {
        match w {
            Member::Operation => Nested::Operation,
            Member::Block => Nested::Block,
        }
    }
}

// The kinds of edits.
#[derive(Clone, Copy, Debug, PartialEq, Eq)]
pub enum Kind {
    NewOperation,
    NewBlock,
    PushUse(Slot),
    InsertUse(Slot),
    ReplaceUse(Slot),
    RemoveUse(Slot),
    PopUse(Slot),
    PushValue(Member),
    InsertValue(Member),
    RemoveValue(Member),
    PopValue(Member),
    LinkAfter(Member),
    LinkBefore(Member),
    LinkFront(Member),
    LinkBack(Member),
    Unlink(Member),
    MoveRegion,
    MoveUse(Slot),
    ReplaceSome,
    RetargetSome,
    DropUses(Nested),
    Erase(Member),
    EraseRegion,
    Verdict(Nested),
}

// The kinds by their numbers, from kind 1 on.
const KINDS: [Kind; 44] = [
    Kind::NewOperation,
    Kind::NewBlock,
    Kind::PushUse(Slot::Operand),
    Kind::InsertUse(Slot::Operand),
    Kind::ReplaceUse(Slot::Operand),
    Kind::RemoveUse(Slot::Operand),
    Kind::PopUse(Slot::Operand),
    Kind::PushUse(Slot::Successor),
    Kind::InsertUse(Slot::Successor),
    Kind::ReplaceUse(Slot::Successor),
    Kind::RemoveUse(Slot::Successor),
    Kind::PopUse(Slot::Successor),
    Kind::PushValue(Member::Operation),
    Kind::InsertValue(Member::Operation),
    Kind::RemoveValue(Member::Operation),
    Kind::PopValue(Member::Operation),
    Kind::PushValue(Member::Block),
    Kind::InsertValue(Member::Block),
    Kind::RemoveValue(Member::Block),
    Kind::PopValue(Member::Block),
    Kind::LinkAfter(Member::Operation),
    Kind::LinkBefore(Member::Operation),
    Kind::LinkFront(Member::Operation),
    Kind::LinkBack(Member::Operation),
    Kind::Unlink(Member::Operation),
    Kind::LinkAfter(Member::Block),
    Kind::LinkBefore(Member::Block),
    Kind::LinkFront(Member::Block),
    Kind::LinkBack(Member::Block),
    Kind::Unlink(Member::Block),
    Kind::MoveRegion,
    Kind::MoveUse(Slot::Operand),
    Kind::MoveUse(Slot::Successor),
    Kind::ReplaceSome,
    Kind::RetargetSome,
    Kind::DropUses(Nested::Operation),
    Kind::DropUses(Nested::Block),
    Kind::DropUses(Nested::Region),
    Kind::Erase(Member::Operation),
    Kind::Erase(Member::Block),
    Kind::EraseRegion,
    Kind::Verdict(Nested::Operation),
    Kind::Verdict(Nested::Block),
    Kind::Verdict(Nested::Region),
];

impl TryFrom<u32> for Kind {
    type Error = Refusal;

    ghost try_from_gives = { Names };

    fn try_from(number: u32) -> Result<Kind, Refusal> {
        let index = number.checked_sub(1).ok_or(Refusal::UnknownKind)?;
        KINDS
            .get(index as usize)
            .copied()
            .ok_or(Refusal::UnknownKind)
    }
}

// The longest record, in bytes.
const LONGEST: usize = 2048;

// The most entries of an ordered list.
pub const MOST_LISTED: usize = 64;

// The most fields of a record that lists numbers: two, and 256 listed.
const MOST_FIELDS: usize = 258;

// Kept (point 6): a table indexed by the number of the kind, as the project asks.
// The least field count of each kind, from kind 1 on.
const LEAST: [u8; 44] = [
    // new operation, new block
    5, 1,
    // operands: push, insert, replace, remove, pop
    2, 3, 3, 2, 1,
    // successors likewise
    2, 3, 3, 2, 1,
    // results: push, insert, remove, pop
    2, 3, 2, 1,
    // arguments likewise
    2, 3, 2, 1,
    // an operation: after, before, front, back, unlink
    2, 2, 2, 2, 1,
    // a block likewise
    2, 2, 2, 2, 1,
    // move region
    2,
    // move a use of a value, of a block
    3, 3,
    // replace some, retarget some
    2, 2,
    // drop the uses of an operation, a block, a region
    1, 1, 1,
    // erase an operation, a block, a region
    1, 1, 2,
    // verdict on an operation, a block, a region
    1, 1, 1,
];

// Byte `i`, or 0 past the end.
fn byte(b: &[u8], i: usize) -> u8
    ensures { result ≡ get_or b.now i 0 }
{
    b.get(i).copied().unwrap_or(0)
}

// The 16-bit number whose lower byte is byte `p`; bytes past the end are 0.
fn short(b: &[u8], p: usize) -> u16
    requires { p + 1 < 2 ^ 64 }
    ensures { result ≡ get_or b.now p 0 + 256 * get_or b.now (p + 1) 0 }
{
    u16::from_le_bytes([byte(b, p), byte(b, p + 1)])
}

// The 32-bit number whose lowest byte is byte `p`.
pub fn number(b: &[u8], p: usize) -> u32
    requires { p + 4 ≤ length b.now }
    ensures { result ≡ number_at b.now p }
{
    u32::from_le_bytes([b[p], b[p + 1], b[p + 2], b[p + 3]])
}

// Where the record at `at` ends, or `None` where no byte is left, or refusal 1. A script and a single edit both find
// their records by it.
pub fn next_record(bytes: &[u8], at: usize) -> Result<Option<usize>, Refusal>
    ensures { NextCut bytes.now at result }
{
    let left = bytes.len().saturating_sub(at);
    if left == 0 {
        return Ok(None);
    }
    if left < 4 {
        return Err(Refusal::Malformed);
    }
    let n = usize::from(short(bytes, at));
    if n < 4 || LONGEST < n || n % 4 != 0 || left < n {
        return Err(Refusal::Malformed);
    }
    Ok(Some(at + n))
}

// The kind of a record, as its bytes have it.
pub fn kind_of(rec: &[u8]) -> u32
    ensures { result ≡ record_kind rec.now }
{
    u32::from(short(rec, 2))
}

// How many fields a record has.
pub fn field_count(rec: &[u8]) -> usize
    ensures { result ≡ length (fields_of rec.now) }
{
    rec.len().saturating_sub(4) / 4
}

// Field `i` of a record, or 0 where it has no such field.
pub fn field(rec: &[u8], i: usize) -> u32
    ensures { result ≡ get_or (fields_of rec.now) i 0 }
{
    if field_count(rec) <= i {
        return 0;
    }
    number(rec, 4 + 4 * i)
}

fn least_fields(number: u32) -> usize
    requires le_kind { 1 ≤ number }
    requires kind_bound { number ≤ 44 }
    ensures { result ≡ get_or least (number - 1) 0 }
{
    usize::from(LEAST[number as usize - 1])
}

// Whether the flags or a count of a new operation are over their limits.
fn counts_over(rec: &[u8]) -> bool
    ensures { result ≡ over (fields_of rec.now) 1 }
{
    3 < field(rec, 0) || (1..5).any(|i| MOST_LISTED < field(rec, i) as usize)
}

// Whether a record's flags, counts or listed numbers are over their limits.
fn is_over(rec: &[u8], kind: Kind) -> bool
    ensures { result ≡ over (fields_of rec.now) (kind_number kind) }
{
    match kind {
        Kind::NewOperation => counts_over(rec),
        Kind::NewBlock => MOST_LISTED < field(rec, 0) as usize,
        Kind::ReplaceSome | Kind::RetargetSome => MOST_FIELDS < field_count(rec),
        _ => false,
    }
}

// How many fields fill a record of this kind, whose least field count is `fixed`.
fn filled_by(rec: &[u8], kind: Kind, fixed: usize) -> usize
    requires { fixed ≡ get_or least (kind_number kind - 1) 0 }
    ensures { result ≡ filled (fields_of rec.now) (kind_number kind) }
{
    match kind {
        Kind::NewOperation => fixed
            + field(rec, 1) as usize
            + field(rec, 2) as usize
            + field(rec, 3) as usize,
        Kind::NewBlock => fixed + field(rec, 0) as usize,
        Kind::ReplaceSome | Kind::RetargetSome => field_count(rec),
        _ => fixed,
    }
}

// Reads a whole record: refusals 2 to 4 in their order, or the kind of its edit.
pub fn read_record(rec: &[u8]) -> Result<Kind, Refusal>
    ensures { Taken rec.now result }
{
    let number = kind_of(rec);
    let kind = Kind::try_from(number)?;
    let fixed = least_fields(number);
    let count = field_count(rec);
    if count < fixed {
        return Err(Refusal::FieldCount);
    }
    if is_over(rec, kind) {
        return Err(Refusal::OverLimit);
    }
    if count != filled_by(rec, kind, fixed) {
        return Err(Refusal::FieldCount);
    }
    Ok(kind)
}

// Writes answer `k` into its three words; the other words keep what they hold.
pub fn put_answer(out: &mut [u32], k: usize, answer: Answer)
    requires { 3 * k + 3 ≤ length out.old }
    ensures { Put out.old out.new k (numbers_of answer) }
{
    let (refusal, a, b) = match answer {
        Ok((a, b)) => (0, a, b),
        Err(refusal) => (u32::from(refusal), 0, 0),
    };
    let at = 3 * k;
    out[at] = refusal;
    out[at + 1] = a;
    out[at + 2] = b;
}
