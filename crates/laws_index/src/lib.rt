// A table with its index: after every call the index lists the mappings of each space. No code: see specs/.
#![tactic(auto)]
