// Document 01's bench set as one table of cases. No code: see specs/, and proofs/ for the equations.
#![tactic(auto)]
