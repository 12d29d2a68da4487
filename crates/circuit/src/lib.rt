// The definitions of annotation, locations and the correlation check (specs/). The code is in the crates annotation and correlations.
#![tactic(auto)]
