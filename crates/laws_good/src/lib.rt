// That no call makes a bad table out of a good one, and that a call on one space leaves the others as they were. No code: see specs/.
#![tactic(auto)]
