// Two tables that agree on a space answer alike (document 01, "answer alike"), by command and at the door. No code: see specs/.
#![tactic(auto)]
