// What the tool tells of a MAP or a COPY: the call's own number, and what is so. No code: see specs/ and proofs/.
#![tactic(auto)]
