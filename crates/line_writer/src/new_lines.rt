// The lines that are written anew: injections, by settling, and depolarizing noise, by annotation. Each with its LF.
ghost use Rattle.std.specs.Prelude.{◌≡◌, [], ◌∷◌, ◌++◌, ℕ, ◌+◌, ◌*◌, ◌^◌, ◌<◌, ◌≤◌, length, get_or, take, drop};
ghost use Rattle.text.specs.Bytes.{LF};
ghost use Rattle.text.specs.Template.{Value, line_text};
ghost use Rattle.job.specs.Grammar.{inject_template};
ghost use Rattle.writer.specs.Placed.{Puts};
ghost use Rattle.line_writer.specs.Line.{PauliLent, depolarizing_start, depolarizing_text};

use crate::{put_line, put_numbers};
use job_numbers::depolarizing_size;
use pauli::Shot;
use template::values::KEPT;
use writer::lengths::{digits, list_length};
use writer::{put_byte, put_bytes};

// The bytes of `op=i shot=`, ` x=`, ` z=` and the LF.
const INJECT_BYTES: usize = 17;

// How many bytes an injection has: those, and those of its shot and its lists. The counts are of x and of z.
fn inject_length(shot: Shot, counts: &[u64], members: &[u64]) -> usize
    requires { PauliLent counts.now members.now }
    ensures { result ≡ length (line_text inject_template (Value.number shot.0 ∷ Value.list (take (get_or counts.now 0 0) members.now) ∷ Value.list (take (get_or counts.now 1 0) (drop 31 members.now)) ∷ []) ++ LF ∷ []) }
{
    let x = list_length(&members[..counts[0] as usize]);
    let z = list_length(&members[KEPT..KEPT + counts[1] as usize]);
    INJECT_BYTES + digits(shot.0 as u64) + x + z
}

// `op=i shot=N x=L z=L`: the counts of x and z, and 31 words for the members of each. Past the end of the lent bytes the line is counted and not
// made, since settling measures its text first.
pub fn put_inject(out: &mut [u8], at: usize, shot: Shot, counts: &[u64], members: &[u64]) -> usize
    requires { PauliLent counts.now members.now × (at + 1341 < 2 ^ 64) }
    ensures { Puts at (line_text inject_template (Value.number shot.0 ∷ Value.list (take (get_or counts.now 0 0) members.now) ∷ Value.list (take (get_or counts.now 1 0) (drop 31 members.now)) ∷ []) ++ LF ∷ []) out.old out.new result }
{
    if out.len() <= at {
        return at + inject_length(shot, counts, members);
    }
    let numbers = [shot.0 as u64];
    let next = put_line(
        &mut *out,
        at,
        b"op=i shot=N x=L z=L",
        &numbers,
        counts,
        members,
    );
    put_byte(out, next, b'\n')
}

// How each line of annotation's noise begins, the same for all lines of a call: `op=n p=H corr=- cond=- parity=0 d=2`
pub fn put_start(out: &mut [u8], p: u64) -> usize
    ensures { Puts 0 (depolarizing_start p) out.old out.new result }
{
    let numbers = [p];
    put_numbers(out, 0, b"op=n p=H corr=- cond=- parity=0 d=2", &numbers)
}

// `op=n p=H corr=- cond=- parity=0 d=2 q=Q size=N`, from its start.
pub fn put_depolarizing(out: &mut [u8], at: usize, start: &[u8], qubits: &[u64]) -> usize
    requires { (length qubits.now ≤ 31) × (at + (length start.now + (21 * length qubits.now + 31)) < 2 ^ 64) }
    ensures { (p : ℕ) → start.now ≡ depolarizing_start p → Puts at (depolarizing_text p qubits.now ++ LF ∷ []) out.old out.new result }
{
    let next = put_bytes(&mut *out, at, start);
    let k = qubits.len() as u64;
    let numbers = [depolarizing_size(k)];
    let counts = [k];
    let end = put_line(&mut *out, next, b" q=Q size=N", &numbers, &counts, qubits);
    put_byte(out, end, b'\n')
}
