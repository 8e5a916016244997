// What the walks of other crates share. No code: see specs/.
#![tactic(auto)]
