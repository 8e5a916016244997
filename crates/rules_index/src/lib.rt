// What stands beside the table: definitions. No code: see specs/.
#![tactic(auto)]
