// What a call decides on a table with its index: no answer changes, any other index is 117, and a change that the index can follow. No code: see specs/.
#![tactic(auto)]
