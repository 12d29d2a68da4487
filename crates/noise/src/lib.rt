// A noise line by value, the words that it draws from, and its condition as a mask; and where a pass over a job stands. The next word that brings a
// fault is found in the crate fault_scan, elements are chosen in the crate choice, and the line's shots gone through in the crate shots.
#![tactic(auto)]

pub mod condition;
pub mod words;

use job::limits::MAX_MEMBERS;

// The four kinds of distribution: one element; every Pauli on so many qubits but the identity; so many elements that are alike; elements with
// weights, whose total it carries. Elements, and the running sums of weights, lie in arrays beside it.
#[derive(Clone, Copy)]
pub enum PauliDistribution {
    Single,
    Depolarizing { qubit_count: u64 },
    Uniform { element_count: u64 },
    Weighted { total: f64 },
}

// The noiseless bits of the first `count` of `outcomes` sum to `parity`, 0 or 1. A count of 0 is no condition.
// A list in a fixed array and its count, since nothing is allocated; the parity is a number, as a line says it.
#[derive(Clone, Copy)]
pub struct OutcomeCondition {
    pub outcomes: [u64; MAX_MEMBERS as usize],
    pub count: usize,
    pub parity: u64,
}

// What a noise line says: its probability, distribution, correlation and condition travel together. What falls in a shot is one element of it.
// Words come from the main list, or with a correlation c from the second, from position base + c on.
#[derive(Clone, Copy)]
pub struct PauliFault {
    pub probability: f64,
    pub distribution: PauliDistribution,
    pub correlation: Option<u64>,
    pub condition: OutcomeCondition,
}

// The header is line 1.
pub const FIRST_INSTRUCTION_LINE: u64 = 2;

// Where a pass over a job's instructions stands: the next byte of the job, the number of its line, from 1,
// and the position of the next word of the main list.
#[derive(Clone, Copy)]
pub struct Place {
    pub byte: usize,
    pub line: u64,
    pub position: usize,
}
