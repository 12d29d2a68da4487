// The numbers of a job: what a caller has to know of it before it lends memory.
#![tactic(auto)]

ghost use Rattle.std.specs.Prelude.{◌≡◌};
ghost use Rattle.examination.specs.Reply.{examine_reply};

use job::Answer;

// The answer of the tests of a job; of an accepted job also its header's numbers, how many outcomes it records, and how many lines it has. Calls hand
// it to C as it is.
#[repr(C)]
#[derive(Clone, Copy)]
pub struct Examination {
    pub answered: Answer,
    pub qubits: u64,
    pub outcomes: u64,
    pub shots: u64,
    pub recorded: u64,
    pub lines: u64,
}

// The tests of a job, and the numbers of an accepted job.
pub fn examine(job: &[u8]) -> Examination
    ensures { result ≡ examine_reply job.now }
{
    let found = checker::examine(job);
    let answered = found.answer;
    if answered.number != 0 {
        return Examination {
            answered,
            qubits: 0,
            outcomes: 0,
            shots: 0,
            recorded: 0,
            lines: 0,
        };
    }
    let header = found.header;
    Examination {
        answered: Answer { number: 0, line: 0 },
        qubits: header.qubits,
        outcomes: header.outcomes,
        shots: header.shots,
        recorded: found.recorded,
        lines: found.lines,
    }
}
