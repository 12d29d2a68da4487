// The injections that stand for a noise line, put into lent bytes as lines.
#![tactic(auto)]

ghost use Rattle.std.specs.Prelude.{List, [], ◌∷◌, ◌++◌, ℕ, ◌+◌, ◌*◌, ◌^◌, ◌<◌, ◌≤◌, length, drop};
ghost use Rattle.text.specs.Bytes.{LF};
ghost use Rattle.job.specs.Line.{Instruction};
ghost use Rattle.writer.specs.Placed.{Puts};
ghost use Rattle.draws.specs.Draws.{depolarizing_element_of, draw_shots};
ghost use Rattle.draws.specs.Left.{left_spent};
ghost use Rattle.draws.specs.Settle.{inject_text, step_of};
ghost use Rattle.noise_text.specs.Elements.{kept_element, element_in, Kept, ElementIn};
ghost use Rattle.noise_text.specs.Injections.{StepPut, injected, Ready, ReadyOf};

pub mod lists;

use crate::lists::select;
use faults::elements::{element_counts, element_members, element_x};
use line_writer::new_lines::put_inject;
use noise::words::{count, more_part, part, position_after};
use noise::{PauliDistribution, PauliFault};
use pauli::Shot;
use shots::{NextFault, next_fault, rule_of};
use template::values::KEPT;

// ---- An element

// The injection of an element of a depolarizing distribution.
fn put_depolarizing(out: &mut [u8], text: usize, shot: Shot, qubits: &[u64], e: u64) -> usize
    requires { (text + 1342 < 2 ^ 64) × (length qubits.now ≤ 31) × (e + 1 < 2 ^ 64) }
    ensures { Puts text (inject_text shot.0 (depolarizing_element_of qubits.now e) ++ LF ∷ []) out.old out.new result }
{
    let bits = e + 1;
    let mut members = [0u64; 2 * KEPT];
    let x = select(&mut members[..KEPT], qubits, bits);
    let z = select(&mut members[KEPT..], qubits, bits / 2);
    let counts = [x as u64, z as u64];
    put_inject(out, text, shot, &counts, &members)
}

// The injection of an element that is kept whole.
fn put_kept(out: &mut [u8], text: usize, shot: Shot, elements: &[u64], e: usize) -> usize
    requires { (text + 1342 < 2 ^ 64) × Kept elements.now e }
    ensures { Puts text (inject_text shot.0 (kept_element elements.now e) ++ LF ∷ []) out.old out.new result }
{
    put_inject(
        out,
        text,
        shot,
        element_counts(elements, e),
        element_members(elements, e),
    )
}

fn put_element(
    out: &mut [u8],
    text: usize,
    shot: Shot,
    distribution: PauliDistribution,
    elements: &[u64],
    e: u64,
) -> usize
    requires { (text + 1342 < 2 ^ 64) × ElementIn distribution elements.now e }
    ensures { Puts text (inject_text shot.0 (element_in distribution elements.now e) ++ LF ∷ []) out.old out.new result }
{
    match distribution {
        PauliDistribution::Depolarizing { qubit_count: _ } => {
            put_depolarizing(out, text, shot, element_x(elements, 0), e)
        }
        _ => put_kept(out, text, shot, elements, e as usize),
    }
}

// ---- A noise line

// The draws of a job: the main list, which lies in two parts, `main`, and behind it `more`; the second list, and its base.
#[derive(Clone, Copy)]
pub struct Draws<'a> {
    pub main: &'a [u64],
    pub more: &'a [u64],
    pub second: &'a [u64],
    pub base: u64,
}

// All shots have drawn, or a word was needed past the end. Each with the position behind the words that were read: in the line's part of a list for
// `put_faults`, in the main list for `put_noise`. `text` is the place of the text's next byte.
#[derive(Clone, Copy)]
pub struct Drawn {
    pub position: usize,
    pub text: usize,
}

#[derive(Clone, Copy)]
pub struct Spent {
    pub position: usize,
}

// The injections of the faults that the words bring.
fn put_faults(
    out: &mut [u8],
    text: usize,
    words: &[u64],
    more: &[u64],
    mask: &[u64],
    shots: usize,
    fault: PauliFault,
    sums: &[f64],
    elements: &[u64],
) -> Result<Drawn, Spent>
    requires { (text + 1342 * shots < 2 ^ 64) × Ready fault.probability fault.distribution sums.now mask.now elements.now shots }
    ensures { (q : Ready fault.probability fault.distribution sums.now mask.now elements.now shots) → StepPut (words.now ++ more.now) text shots out.old [] (injected q.noise.distribution (draw_shots q.lent q.noise shots 0 (words.now ++ more.now))) out.new result }
{
    let p = fault.probability;
    let distribution = fault.distribution;
    let rule = rule_of(p, distribution);
    let mut next = text;
    let mut at = 0;
    let mut shot = 0;
    // A loop: the shot of a fault says where the next turn begins.
    loop {
        match next_fault(words, more, at, mask, Shot(shot), shots, rule, sums) {
            NextFault::Spent => {
                return Err(Spent {
                    position: count(words, more),
                });
            }
            NextFault::Done { position } => {
                return Ok(Drawn {
                    position,
                    text: next,
                });
            }
            NextFault::At {
                shot: s,
                element: e,
                position,
            } => {
                next = put_element(&mut *out, next, s, distribution, elements, e);
                at = position;
                shot = s.0 + 1;
            }
        }
    }
}

// The injections that stand for a noise line. A line without correlation reads the main list from a position on; a correlated one reads the
// second, and the position stays.
pub fn put_noise<'a>(
    out: &mut [u8],
    text: usize,
    fault: PauliFault,
    sums: &[f64],
    mask: &[u64],
    elements: &[u64],
    shots: usize,
    draws: Draws<'a>,
    position: usize,
) -> Result<Drawn, Spent>
    requires { (text + 1342 * shots < 2 ^ 64) × (position ≤ length (draws.main.now ++ draws.more.now)) × ReadyOf fault.probability fault.distribution sums.now mask.now elements.now shots fault.correlation draws.second.now draws.base }
    ensures { (q : ReadyOf fault.probability fault.distribution sums.now mask.now elements.now shots fault.correlation draws.entry.second.now draws.entry.base) (source : List ℕ) → StepPut (draws.entry.main.now ++ draws.entry.more.now) text shots out.old (left_spent (Instruction.noise q.ready.noise) (drop position (draws.entry.main.now ++ draws.entry.more.now))) (step_of q.ready.lent (drop position (draws.entry.main.now ++ draws.entry.more.now)) source (Instruction.noise q.ready.noise)) out.new result }
{
    if fault.probability <= 0.0 {
        return Ok(Drawn { position, text });
    }
    let correlation = fault.correlation;
    let words = part(draws.main, draws.second, correlation, draws.base, position);
    let more_words = more_part(draws.more, correlation, position, draws.main.len());
    match put_faults(
        out, text, words, more_words, mask, shots, fault, sums, elements,
    ) {
        Err(spent) => Err(Spent {
            position: position_after(correlation, position, spent.position),
        }),
        Ok(drawn) => Ok(Drawn {
            position: position_after(correlation, position, drawn.position),
            text: drawn.text,
        }),
    }
}
