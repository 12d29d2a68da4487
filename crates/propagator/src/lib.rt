// Pauli frames and outcome deltas of many shots at once: what lines do to them, as Rust's FramePropagator has it. Lines that add Paulis, measure and
// reset stand here, those that name operands (gates, Cliffords, permutations) in the crate unitaries.
//
// The X and Z parts of the frames lie in words, a row for each of n qubits, w words a row, and the deltas likewise, a row for each of m outcomes.
// A shot is a bit of each row, so that a line is a few additions of rows for all shots at once. A contract says what happens in every single
// shot: the state after is what the line's rule makes of the state before (`Acts`).
// A Pauli is given by two lists: the qubits with an X part, and the qubits with a Z part.
// Each contract spells the lengths of x and z: a name for the pair would hide the two numbers that each proof begins with.
#![tactic(auto)]

pub mod paulis;
