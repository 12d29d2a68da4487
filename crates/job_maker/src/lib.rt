// Whole jobs from a seed (document 02, note 7; docs/MAKING.md).
#![tactic(auto)]

ghost use Rattle.std.specs.Prelude.{◌≡◌, [], ◌∷◌, ◌++◌};
ghost use Rattle.text.specs.Bytes.{LF};
ghost use Rattle.job.specs.Grammar.{header_with};
ghost use Rattle.job.specs.Checks.{in_range};
ghost use Rattle.job.specs.Sound.{HeaderSound};
ghost use Rattle.writer.specs.Placed.{Puts};
ghost use Rattle.writer.specs.Reply.{text_reply};
ghost use Rattle.made.specs.Made.{header_text, make_reply};
ghost use Rattle.job_maker.specs.Whole.{JobPut};

use job::limits::MAX_BYTES;
use job::{Answer, FIRST_EDITION, Header, SECOND_EDITION, refusals};
use job_numbers::in_range;
use line_writer::put_numbers;
use made_fields::Making;
use made_lines::put_instruction;
use seed_words::step;
use writer::{TextAnswer, put_byte, refused, text_fits};

// The header's line; the first edition has no field for it.
fn put_header(out: &mut [u8], h: Header) -> usize
    ensures { Puts 0 (header_text h ++ LF ∷ []) out.old out.new result }
{
    let numbers = [h.edition, h.qubits, h.outcomes, h.shots];
    if h.edition == SECOND_EDITION {
        let at = put_numbers(
            &mut *out,
            0,
            b"op=job edition=N qubits=N outcomes=N shots=N",
            &numbers,
        );
        return put_byte(out, at, b'\n');
    }
    let at = put_numbers(
        &mut *out,
        0,
        b"op=job qubits=N outcomes=N shots=N",
        &numbers[1..],
    );
    put_byte(out, at, b'\n')
}

// The text of a job; where it passes the bytes that a job may have, a beginning of it that passes them. Answers the place behind it.
fn put_job(out: &mut [u8], h: Header, lines: u64, state: u64) -> usize
    requires { HeaderSound h }
    ensures { JobPut h lines state out.old out.new result }
{
    let mut m = Making {
        at: put_header(&mut *out, h),
        recorded: 0,
        state,
    };
    for i in 0..lines {
        if MAX_BYTES < m.at {
            return m.at;
        }
        m = put_instruction(&mut *out, m, h);
    }
    m.at
}

// Whether a header may hold these numbers, whatever its edition.
fn may_hold(qubits: u64, outcomes: u64, shots: u64) -> bool
    ensures { result ≡ in_range (header_with 1 qubits outcomes shots) }
{
    in_range(Header {
        edition: FIRST_EDITION,
        qubits,
        outcomes,
        shots,
    })
}

// A refusal of the call.
fn no(number: u64) -> TextAnswer
    ensures { result ≡ record { answer = record { number = number; line = 0 }; figure = 0 } }
{
    refused(Answer { number, line: 0 })
}

// A job with these numbers and so many lines: 3, 22, then 15. The text is measured first, over no bytes, since nothing is written with a refusal.
pub fn make(
    qubits: u64,
    outcomes: u64,
    shots: u64,
    lines: u64,
    seed: u64,
    out: &mut [u8],
) -> TextAnswer
    ensures { text_reply result out.new ≡ make_reply qubits outcomes shots lines seed out.old }
{
    if !may_hold(qubits, outcomes, shots) {
        return no(refusals::HEADER);
    }
    if seed == 0 {
        return no(refusals::SEED);
    }
    let state = step(seed);
    let h = Header {
        edition: FIRST_EDITION + state % 2,
        qubits,
        outcomes,
        shots,
    };
    let length = put_job(&mut out[..0], h, lines, state);
    if !text_fits(length, out.len()) {
        return no(refusals::ROOM);
    }
    put_job(&mut *out, h, lines, state);
    TextAnswer {
        answer: Answer { number: 0, line: 0 },
        figure: length as u64,
    }
}
