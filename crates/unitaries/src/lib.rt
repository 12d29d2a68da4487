// Unitary lines that name their operands, on the frames of many shots: gates, Cliffords by their tables, and permutations. The frames are the
// propagator's, and so is what it means for words to follow a rule in every shot (`Acts`).
// The lengths of x and z are spelt in each contract, as in propagator.
#![tactic(auto)]

pub mod cliffords;
pub mod gates;
