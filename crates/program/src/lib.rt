// What a program over the store does: it reads a script, runs it over an empty store, and prints the answers and the listing.
#![tactic(auto)]

ghost use Rattle.std.specs.Prelude.{◌≡◌, length};
ghost use Rattle.rules.specs.Listing.{printed, output};
ghost use Rattle.listing.specs.Writer.{Written, Wrote};
ghost use Rattle.program.specs.Program.{Begun};

use context::Layout;
use context::view::View;
use listing::Pen;

// How many bytes a script may have.
pub const MOST_SCRIPT: usize = 16384;

// How many bytes of input are read: one more shows that a script is too long.
pub const MOST_READ: usize = MOST_SCRIPT + 1;

// Room for the output of every script.
pub const MOST_OUTPUT: usize = 262144;

// How many words the store has.
const WORDS: usize = 9135;

// How many operations it has room for: as many words has the scratch.
const OPERATIONS: usize = 128;

// Room for the answers of every script, three words each.
const ANSWERS: usize = 12288;

// An empty store with the program's capacities.
fn begin(store: &mut [u32]) -> Layout
    requires { length store.old ≡ 9135 }
    ensures { Begun result store.new }
{
    let l = Layout {
        ops: OPERATIONS,
        blocks: 64,
        regions: 64,
        values: 256,
        uses: 512,
    };
    context::start(store, l).unwrap();
    l
}

// What the program prints for a script that is not too long.
fn run(script: &[u8], pen: &mut Pen<u8>)
    ensures { Wrote (printed script.now) pen.old pen.new }
{
    let mut store = [0u32; WORDS];
    let l = begin(&mut store);
    let mut scratch = [0u32; OPERATIONS];
    let mut answers = [0u32; ANSWERS];
    let ran = script::script(&mut store, &mut scratch, script, &mut answers);
    listing::write_answers(&answers[..3 * ran.count], pen);
    let v = View {
        words: &store,
        layout: l,
    };
    listing::write_listing(&v, pen);
}

// What it prints for any script, into a lent buffer: over 16,384 bytes nothing is run.
pub fn print(script: &[u8], out: &mut [u8]) -> usize
    ensures { Written (output script.now) out.old 0 out.new result }
{
    let mut pen = Pen { out, at: 0 };
    if MOST_SCRIPT < script.len() {
        pen.text(b"script too long\n");
    } else {
        run(script, &mut pen);
    }
    pen.at
}

// Reads a script from standard input and prints what `print` says: the buffer has room for the output of every script.
pub fn run_input() {
    let mut script = [0u8; MOST_READ];
    let n = io::read_full(0, &mut script);
    let mut out = [0u8; MOST_OUTPUT];
    let r = print(&script[..n], &mut out);
    io::write_all(1, &out[..r]);
}
