// Tests of the values that a line holds (floats by their bits, lists, the table of a Clifford), and what the lines before it say.
#![tactic(auto)]

pub mod clifford;
pub mod context;
pub mod floats;
pub mod lists;
