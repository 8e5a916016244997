// Replays the runs of calls that place no mapping. tests/tablevectors.py makes them.
#![tactic(auto)]

fn main() {
    test_replay::run_input();
}
