// The program on the corners of dropping, erasing and verdicts: standard input is examples/corners/walk.txt as bytes.
#![tactic(auto)]

fn main() {
    program::run_input();
}
