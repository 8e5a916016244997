// Demand 3: the table and a ledger fed by calls and answers alone agree; and what a release takes off the charge. No code: see specs/.
#![tactic(auto)]
