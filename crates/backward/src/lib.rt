// The definitions of settling and of the backward walk, and the theorems on both (specs/). The code is in the crates settling and walker.
#![tactic(auto)]
