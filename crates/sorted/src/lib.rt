// Lists in order: laws. No code: see specs/.
#![tactic(auto)]
