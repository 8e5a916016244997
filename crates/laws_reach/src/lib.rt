// What reach's answers say of the table, in plain terms. No code: see specs/, and proofs/ for the laws.
#![tactic(auto)]
