// A plan as a sequence of calls, and demand 3 of the table that its run leaves. No code: see specs/, and proofs/ for the laws.
#![tactic(auto)]
