// Replays the runs in which it is asked why a MAP or a COPY is refused. tests/reasonvectors.py makes them.
#![tactic(auto)]

fn main() {
    test_replay::run_input();
}
