// The definitions of a job, of its lines, its instructions and the tests of a job (specs/), the types that answers have, and the limits. The code of
// the tests is in the crates job_numbers, reader, instructions, check_values, check_lines and checker.
#![tactic(auto)]

ghost use Rattle.std.specs.Prelude.{◌≡◌, ℕ};
ghost use Rattle.job.specs.Refusals.{number_of};

pub mod limits;
pub mod refusals;

use crate::refusals::Refusal;

// A header that names no edition is of the first.
// Editions are numbers and no enum: a header may say any number, and 23 refuses one that there is not.
pub const FIRST_EDITION: u64 = 1;

pub const SECOND_EDITION: u64 = 2;

// The header's numbers.
#[derive(Clone, Copy)]
pub struct Header {
    pub edition: u64,
    pub qubits: u64,
    pub outcomes: u64,
    pub shots: u64,
}

// What a call says: a refusal number, 0 for success, and a line, from 1, 0 where none fits. Calls hand it to C as it is.
#[repr(C)]
#[derive(Clone, Copy)]
pub struct Answer {
    pub number: u64,
    pub line: u64,
}

impl Answer {
    // Nothing refuses.
    pub fn accepted() -> Answer
        ensures { result ≡ record { number = 0; line = 0 } }
    {
        Answer { number: 0, line: 0 }
    }

    pub fn refused(refusal: Refusal, line: u64) -> Answer
        ensures { result ≡ record { number = number_of refusal; line = line } }
    {
        let number = refusal.number();
        Answer { number, line }
    }
}

// What a call that counts says: its answer, and the count, 0 where it refuses. Calls hand it to C as it is.
#[repr(C)]
#[derive(Clone, Copy)]
pub struct CountReply {
    pub answered: Answer,
    pub count: u64,
}
