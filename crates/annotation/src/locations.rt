// The count of a job's fault locations.
ghost use Rattle.std.specs.Prelude.{◌≡◌};
ghost use Rattle.text.specs.Bytes.{lines as Bytes·lines};
ghost use Rattle.job.specs.Job.{check_job};
ghost use Rattle.circuit.specs.Annotate.{locations as Annotate·locations};
ghost use Rattle.circuit.specs.Replies.{locations_reply};

use crate::line_qubits::located;
use checker::check;
use job::{Answer, CountReply};
use known_lines::next_known;
use template::values::{KEPT, MAX_SLOTS, Values, blank};

// The locations of an accepted job.
fn count(job: &[u8]) -> u64
    requires { (check_job job.now).number ≡ 0 }
    ensures { result ≡ Annotate·locations (Bytes·lines job.now) }
{
    let mut words = blank();
    let mut qubits = [0u64; MAX_SLOTS * KEPT];
    let mut at = 0;
    let mut total: u64 = 0;
    // A while: a line is skipped in one turn, so no range hands out the places.
    while at < job.len() {
        let line = next_known(job, at, &mut words);
        let form = line.form;
        let n = located(form, Values { words: &words }, &mut qubits);
        total += 2 * n as u64;
        at = line.end + 1;
    }
    total
}

// How many fault locations a job has: twice the qubits of its lines, one of both control and target counted with each.
pub fn locations(job: &[u8]) -> CountReply
    ensures { result ≡ locations_reply job.now }
{
    let answer = check(job);
    if answer.number != 0 {
        return CountReply {
            answered: answer,
            count: 0,
        };
    }
    CountReply {
        answered: Answer { number: 0, line: 0 },
        count: count(job),
    }
}
