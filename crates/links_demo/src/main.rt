// The program on the corners of operations in blocks, blocks in regions, regions of operations: standard input is examples/corners/links.txt as bytes.
#![tactic(auto)]

fn main() {
    program::run_input();
}
