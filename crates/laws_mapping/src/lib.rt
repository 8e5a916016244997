// What the checks of an accepted MAP, COPY or UNMAP have shown, where mappings land, and what UNMAP removes. No code: see specs/.
#![tactic(auto)]
