// The program on the corners of operands, successors and moved uses: standard input is examples/corners/uses.txt as bytes.
#![tactic(auto)]

fn main() {
    program::run_input();
}
