// The program on the corners of new operations and blocks: standard input is examples/corners/creation.txt as bytes.
#![tactic(auto)]

fn main() {
    program::run_input();
}
