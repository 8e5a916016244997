// Replays the runs with MAP, COPY and UNMAP. tests/mapvectors.py makes them.
#![tactic(auto)]

fn main() {
    test_replay::run_input();
}
