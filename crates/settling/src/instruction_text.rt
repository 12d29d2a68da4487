// The text that an instruction comes to when a job is settled: a line that is copied, or the injections that stand for noise.
ghost use Rattle.std.specs.Prelude.{◌≡◌, true, ◌++◌, ◌+◌, ◌*◌, ◌^◌, ◌<◌, ◌≤◌, length};
ghost use Rattle.template.specs.Values.{Whole};
ghost use Rattle.instructions.specs.Reading.{NextLine, noise_form};
ghost use Rattle.faults.specs.Elements.{AllInside};
ghost use Rattle.settling.specs.Pass.{pass_of, Between, InstructionPut};

use faults::prepare;
use instructions::{LineRead, is_noise};
use known_lines::next_known;
use noise::Place;
use noise_text::{Draws, Spent, put_noise};
use rows::Shape;
use template::values::Values;
use writer::put_bytes;

// How far a pass came: where it stands in the job, and how many bytes of text it put.
#[derive(Clone, Copy)]
pub struct Reached {
    pub place: Place,
    pub text: usize,
}

// The injections that stand for the noise line that was read, with its element lines.
fn put_noise_line<'a>(
    out: &mut [u8],
    from: Reached,
    line: LineRead,
    job: &[u8],
    values: Values<'_>,
    elements: &mut [u64],
    sums: &mut [f64],
    weights: &mut [f64],
    mask: &mut [u64],
    shape: Shape,
    noiseless: &[u64],
    draws: Draws<'a>,
) -> Result<Reached, Spent>
    requires { Between (pass_of job.now shape noiseless.now (draws.main.now ++ draws.more.now) draws.second.now draws.base) from × (from.text + 5496832 < 2 ^ 64) × NextLine job.now from.place.byte line values.words.now × (noise_form line.form ≡ true) × AllInside elements.old × (64 ≤ length sums.old) × (64 ≤ length weights.old) × (64 ≤ length mask.old) }
    ensures { InstructionPut (pass_of job.now shape noiseless.now (draws.entry.main.now ++ draws.entry.more.now) draws.entry.second.now draws.entry.base) out.old from out.new result }
{
    let place = from.place;
    let ready = prepare(
        job,
        line,
        values,
        noiseless,
        shape.width,
        &mut *elements,
        &mut *sums,
        weights,
        &mut *mask,
    );
    let fault = ready.fault;
    let element_lines = ready.element_lines;
    let drawn = put_noise(
        out,
        from.text,
        fault,
        &sums[..element_lines],
        mask,
        elements,
        shape.shots,
        draws,
        place.position,
    )?;
    Ok(Reached {
        place: Place {
            byte: ready.behind,
            line: place.line + 1 + element_lines as u64,
            position: drawn.position,
        },
        text: drawn.text,
    })
}

// What the instruction at a place comes to: how far the pass came with it; or its draws were spent, with the position where it leaves the main list.
pub fn put_instruction<'a>(
    out: &mut [u8],
    from: Reached,
    job: &[u8],
    values: &mut [u64],
    elements: &mut [u64],
    sums: &mut [f64],
    weights: &mut [f64],
    mask: &mut [u64],
    shape: Shape,
    noiseless: &[u64],
    draws: Draws<'a>,
) -> Result<Reached, Spent>
    requires { Between (pass_of job.now shape noiseless.now (draws.main.now ++ draws.more.now) draws.second.now draws.base) from × (from.place.byte < length job.now) × (from.text ≤ 8388608 * from.place.line) × AllInside elements.old × (64 ≤ length sums.old) × (64 ≤ length weights.old) × (64 ≤ length mask.old) × Whole values.old }
    ensures { InstructionPut (pass_of job.now shape noiseless.now (draws.entry.main.now ++ draws.entry.more.now) draws.entry.second.now draws.entry.base) out.old from out.new result }
{
    let place = from.place;
    let at = place.byte;
    let line = next_known(job, at, &mut *values);
    let form = line.form;
    if is_noise(form) {
        return put_noise_line(
            out,
            from,
            line,
            job,
            Values { words: values },
            elements,
            sums,
            weights,
            mask,
            shape,
            noiseless,
            draws,
        );
    }
    let next = line.end + 1;
    let text = put_bytes(out, from.text, &job[at..next]);
    Ok(Reached {
        place: Place {
            byte: next,
            line: place.line + 1,
            position: place.position,
        },
        text,
    })
}
