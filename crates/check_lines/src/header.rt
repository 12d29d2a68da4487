// The header, without its edition or with it: whether it stands where it has to and its numbers are in range, its edition, and what it leaves.
ghost use Rattle.std.specs.Prelude.{◌≡◌, not, ◌&&◌, List, [], ◌∷◌, ◌≤◌};
ghost use Rattle.text.specs.Template.{Value};
ghost use Rattle.template.specs.Values.{held_number};
ghost use Rattle.job.specs.Grammar.{Written, header_by, edition_by};
ghost use Rattle.job.specs.Refusals.{refusal_in};
ghost use Rattle.job.specs.Checks.{in_range, known_edition, test, lowest, header_fits_of, next as Checks·next};
ghost use Rattle.reader.specs.Parsed.{Said};
ghost use Rattle.check_values.specs.Contexts.{context_of};

use check_values::context::Context;
use job::limits::MAX_EDITION;
use job::refusals::Refusal;
use job::{FIRST_EDITION, Header};
use job_numbers::in_range;
use reader::Form;
use reader::slots::{
    EDITION, EDITION_OUTCOMES, EDITION_QUBITS, EDITION_SHOTS, OUTCOMES, QUBITS, SHOTS,
};
use template::values::Values;

fn header_in(f: Values<'_>) -> Header
    ensures { result ≡ header_by (held_number f.entry.words.now) }
{
    Header {
        edition: FIRST_EDITION,
        qubits: f.number(QUBITS),
        outcomes: f.number(OUTCOMES),
        shots: f.number(SHOTS),
    }
}

fn edition_in(f: Values<'_>) -> Header
    ensures { result ≡ edition_by (held_number f.entry.words.now) }
{
    Header {
        edition: f.number(EDITION),
        qubits: f.number(EDITION_QUBITS),
        outcomes: f.number(EDITION_OUTCOMES),
        shots: f.number(EDITION_SHOTS),
    }
}

// Whether a header stands first, and is in range.
fn begins(c: Context, h: Header) -> bool
    ensures { result ≡ (not c.begun && in_range h) }
{
    !c.begun && in_range(h)
}

pub fn header_fits(c: Context, form: Form, f: Values<'_>) -> bool
    ensures { (vs : List Value) (w : Written) → Said form f.entry.words.now vs w → result ≡ header_fits_of (context_of c) w }
{
    match form {
        Form::Header => begins(c, header_in(f)),
        Form::EditionHeader => begins(c, edition_in(f)),
        _ => c.begun,
    }
}

pub fn header_after(c: Context, form: Form, f: Values<'_>) -> Header
    ensures { (vs : List Value) (w : Written) → Said form f.entry.words.now vs w → result ≡ (Checks·next (context_of c) w).header }
{
    match form {
        Form::Header => header_in(f),
        Form::EditionHeader => edition_in(f),
        _ => c.header,
    }
}

// 23: an edition that there is not.
pub fn edition_number(edition: u64) -> Result<(), Refusal>
    ensures { refusal_in result ≡ lowest (test 23 (known_edition edition) ∷ []) }
{
    if edition == 0 {
        return Err(Refusal::Edition);
    }
    if MAX_EDITION < edition {
        return Err(Refusal::Edition);
    }
    Ok(())
}
