// A refusal writes nothing, and a bad table is 117: for each call, and for all at once. No code: see specs/.
#![tactic(auto)]
