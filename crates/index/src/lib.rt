// The index of the mapping records: laws. No code: see specs/.
#![tactic(auto)]
