// The limits of a job.
use crate::SECOND_EDITION;

// Bytes of its text.
pub const MAX_BYTES: usize = 1048576;

// The header's numbers.
pub const MAX_EDITION: u64 = SECOND_EDITION;

pub const MAX_QUBITS: u64 = 256;

pub const MAX_OUTCOMES: u64 = 1024;

pub const MAX_SHOTS: u64 = 4096;

// Words of a row, 64 shots a word.
pub const MAX_WIDTH: usize = 64;

// Members of a list.
pub const MAX_MEMBERS: u64 = 31;

// Elements of a noise line that lists them.
pub const MAX_ELEMENTS: u64 = 64;
