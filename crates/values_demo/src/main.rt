// The program on the corners of results and arguments: standard input is examples/corners/values.txt as bytes.
#![tactic(auto)]

fn main() {
    program::run_input();
}
