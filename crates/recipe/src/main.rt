// Reads a script from standard input, runs it over an empty store, and prints the answers and the listing.
#![tactic(auto)]

fn main() {
    program::run_input();
}
