// The definitions of what lines do to a frame, and the theorems on conjugation (specs/). The code is in the crates propagator and unitaries.
#![tactic(auto)]
