// The definitions of made jobs, a reproducible load (specs/), by the choice rule of docs/MAKING.md.
#![tactic(auto)]
