// What the tests of a line have to know of the lines before it.
ghost use Rattle.std.specs.Prelude.{◌≡◌};
ghost use Rattle.job.specs.Checks.{no_context_of};
ghost use Rattle.check_values.specs.Contexts.{context_of};

use job::{FIRST_EDITION, Header};

// What the lines before say: whether there was a header, and its numbers; how many outcomes are recorded; how many element lines are due, whether
// they have weights, and the sum of the weights so far.
#[derive(Clone, Copy)]
pub struct Context {
    pub begun: bool,
    pub header: Header,
    pub recorded: u64,
    pub due: u64,
    pub weighted: bool,
    pub total: f64,
}

pub fn no_context() -> Context
    ensures { context_of result ≡ no_context_of }
{
    Context {
        begun: false,
        header: Header {
            edition: FIRST_EDITION,
            qubits: 0,
            outcomes: 0,
            shots: 0,
        },
        recorded: 0,
        due: 0,
        weighted: false,
        total: 0.0,
    }
}
