// Laws on lists, sums and tests. No code: see specs/.
#![tactic(auto)]
