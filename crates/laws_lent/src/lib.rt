// Demand 3, refusals and 117 for a table in the caller's memory. No code: see specs/.
#![tactic(auto)]
