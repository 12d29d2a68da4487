// One instruction of an accepted job, executed on rows of words.
#![tactic(auto)]

ghost use Rattle.std.specs.Prelude.{◌++◌, ◌*◌, ◌≤◌, length};
ghost use Rattle.totals.specs.Held.{TotalsHeld};
ghost use Rattle.execution.specs.Steps.{RowsFor, NoiseReady, NoiseRoom, NoiseDone, StepReady, Stepped};

use crate::injection::inject_faults;
use faults::prepare;
use instructions::{LineRead, is_noise};
use known_lines::next_known;
use lines::apply_line;
use noise::Place;
use noise::words::{count, more_part, part, position_after};
use rows::Shape;
use template::values::Values;

mod injection;

// The draws of a run: the main list, which lies in two parts, `main`, and behind it `more`; the second list, and its base.
#[derive(Clone, Copy)]
pub struct Draws<'a> {
    pub main: &'a [u64],
    pub more: &'a [u64],
    pub second: &'a [u64],
    pub base: u64,
}

// The draws were spent, and the main list was read up to a position.
#[derive(Clone, Copy)]
pub struct Spent {
    pub position: usize,
}

// A noise line at a place, which was read: it is made ready with its element lines, and its faults are injected.
fn apply_noise<'a>(
    job: &[u8],
    place: Place,
    line: LineRead,
    values: Values<'_>,
    elements: &mut [u64],
    sums: &mut [f64],
    weights: &mut [f64],
    mask: &mut [u64],
    x: &mut [u64],
    z: &mut [u64],
    shape: Shape,
    noiseless: &[u64],
    draws: Draws<'a>,
) -> Result<Place, Spent>
    requires { NoiseReady job.now place line values.words.now noiseless.now shape × NoiseRoom shape values.words.now elements.old sums.old weights.old mask.old x.old z.old × (place.position ≤ length (draws.main.now ++ draws.more.now)) }
    ensures { NoiseDone job.now place line values.entry.words.now shape noiseless.now (draws.entry.main.now ++ draws.entry.more.now) draws.entry.second.now draws.entry.base x.old z.old x.new z.new result }
{
    let ready = prepare(
        job,
        line,
        values,
        noiseless,
        shape.width,
        &mut *elements,
        &mut *sums,
        weights,
        &mut *mask,
    );
    let fault = ready.fault;
    let element_lines = ready.element_lines;
    let next = Place {
        byte: ready.behind,
        line: place.line + 1 + element_lines as u64,
        position: place.position,
    };
    // With p at or below zero no word is read.
    if fault.probability <= 0.0 {
        return Ok(next);
    }
    let correlation = fault.correlation;
    let words = part(
        draws.main,
        draws.second,
        correlation,
        draws.base,
        place.position,
    );
    let more_words = more_part(draws.more, correlation, place.position, draws.main.len());
    let drawn = inject_faults(
        words,
        more_words,
        mask,
        fault,
        &sums[..element_lines],
        elements,
        x,
        z,
        shape,
    );
    // Draws that are spent have taken every word that was left to the line.
    let Some(read) = drawn else {
        return Err(Spent {
            position: position_after(correlation, place.position, count(words, more_words)),
        });
    };
    Ok(Place {
        byte: next.byte,
        line: next.line,
        position: position_after(correlation, place.position, read),
    })
}

// The instruction at a place; returns the place of the next one. After it, as before, each total is how many bits of its row of deltas are 1; faults
// that are injected change neither.
pub fn step<'a>(
    job: &[u8],
    place: Place,
    values: &mut [u64],
    elements: &mut [u64],
    sums: &mut [f64],
    weights: &mut [f64],
    scratch: &mut [u64],
    x: &mut [u64],
    z: &mut [u64],
    deltas: &mut [u64],
    totals: &mut [u64],
    shape: Shape,
    noiseless: &[u64],
    draws: Draws<'a>,
) -> Result<Place, Spent>
    requires { StepReady job.now shape place values.old elements.old sums.old weights.old (draws.main.now ++ draws.more.now) × RowsFor shape x.old z.old deltas.old noiseless.now × (31 * shape.width ≤ length scratch.old) × TotalsHeld shape.width shape.outcomes deltas.old totals.old }
    ensures { Stepped job.now shape noiseless.now (draws.entry.main.now ++ draws.entry.more.now) draws.entry.second.now draws.entry.base place x.old z.old deltas.old x.new z.new deltas.new result × TotalsHeld shape.width shape.outcomes deltas.new totals.new }
{
    let line = next_known(job, place.byte, &mut *values);
    let values = Values { words: values };
    let form = line.form;
    if is_noise(form) {
        // Noise needs no scratch but for its mask.
        return apply_noise(
            job, place, line, values, elements, sums, weights, scratch, x, z, shape, noiseless,
            draws,
        );
    }
    apply_line(form, values, x, z, deltas, totals, scratch, shape);
    Ok(Place {
        byte: line.end + 1,
        line: place.line + 1,
        position: place.position,
    })
}
