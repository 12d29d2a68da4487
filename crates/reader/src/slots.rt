// The slots of a line's values (crate template): of a number among the numbers of its form, of a list among the lists, from 0 in the order of the
// template. A value that stands elsewhere in another form has a name for each. The angle of an allocation and the parity of a conditional Pauli,
// which nothing asks for, have no name.
// Numbers and no enum: a slot is a place in the words of a line's values.

// ---- Numbers

// The header, without its edition.
pub const QUBITS: usize = 0;

pub const OUTCOMES: usize = 1;

pub const SHOTS: usize = 2;

// The header with its edition, which stands first.
pub const EDITION: usize = 0;

pub const EDITION_QUBITS: usize = 1;

pub const EDITION_OUTCOMES: usize = 2;

pub const EDITION_SHOTS: usize = 3;

// A gate's code.
pub const GATE: usize = 0;

// The outcome that a measurement or an allocation records.
pub const ID: usize = 0;

// The shot of an injection or a flip, and the outcome that is flipped.
pub const SHOT: usize = 0;

pub const FLIPPED: usize = 1;

// Every noise line: p, and the parity of its condition.
pub const PROBABILITY: usize = 0;

pub const PARITY: usize = 1;

// d=1 and d=2: the size.
pub const SIZE: usize = 2;

// d=3 and d=4: n, and the size behind it.
pub const ELEMENT_COUNT: usize = 2;

pub const LISTED_SIZE: usize = 3;

// An element's weight.
pub const WEIGHT: usize = 0;

// ---- Lists. An END is the slot behind the last of those before it.

// The qubits of a gate, a Clifford, a reset or a barrier, and the words of a Clifford's table.
pub const OPERANDS: usize = 0;

pub const OPERANDS_END: usize = OPERANDS + 1;

pub const TABLE: usize = 1;

// A permutation: the places to which contents go, and the qubits.
pub const PLACES: usize = 0;

pub const PLACES_END: usize = PLACES + 1;

pub const PERMUTED: usize = 1;

pub const PERMUTED_END: usize = PERMUTED + 1;

// The Pauli of a line that has one, or of an element; of a controlled Pauli the control.
pub const X: usize = 0;

pub const Z: usize = 1;

pub const PAULI_END: usize = Z + 1;

// The target of a controlled Pauli.
pub const TARGET_X: usize = 2;

pub const TARGET_Z: usize = 3;

pub const TARGET_END: usize = TARGET_Z + 1;

// The outcomes by which a conditional Pauli is applied.
pub const IDS: usize = 2;

pub const IDS_END: usize = IDS + 1;

// Every noise line: corr, a list of one or none, and cond.
pub const CORRELATION: usize = 0;

pub const CONDITION: usize = 1;

pub const CONDITION_END: usize = CONDITION + 1;

// Where the lists of d=1 and d=2 begin.
pub const OWN_LISTS: usize = CONDITION_END;

// d=1: the Pauli.
pub const SINGLE_X: usize = OWN_LISTS;

pub const SINGLE_Z: usize = SINGLE_X + 1;

pub const SINGLE_END: usize = SINGLE_Z + 1;

// d=2: the qubits.
pub const DEPOLARIZED: usize = OWN_LISTS;

pub const DEPOLARIZED_END: usize = DEPOLARIZED + 1;
