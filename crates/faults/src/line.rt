// A noise line by value, from its values in lent words.
ghost use Rattle.std.specs.Prelude.{◌≡◌, true, List};
ghost use Rattle.text.specs.Template.{Value};
ghost use Rattle.template.specs.Values.{held_number};
ghost use Rattle.job.specs.Float.{float, is_probability};
ghost use Rattle.job.specs.Grammar.{NoiseLine, Written};
ghost use Rattle.reader.specs.Parsed.{Said};
ghost use Rattle.faults.specs.Line.{kind_by, CorrelationHeld, ConditionHeld, FaultHeld};

use noise::{OutcomeCondition, PauliDistribution, PauliFault};
use reader::Form;
use reader::slots::{CONDITION, CORRELATION, DEPOLARIZED, ELEMENT_COUNT, PARITY, PROBABILITY};
use template::values::{KEPT, Values};

// The kind of a noise line. The weighted one has this total.
fn distribution_of(form: Form, values: Values<'_>, total: f64) -> PauliDistribution
    ensures { (vs : List Value) (n : NoiseLine) → Said form values.entry.words.now vs (Written.noise n) → result ≡ kind_by n.kind total }
{
    match form {
        Form::Depolarizing => PauliDistribution::Depolarizing {
            qubit_count: values.count(DEPOLARIZED),
        },
        Form::Uniform => PauliDistribution::Uniform {
            element_count: values.number(ELEMENT_COUNT),
        },
        Form::Weighted => PauliDistribution::Weighted { total },
        _ => PauliDistribution::Single,
    }
}

// The correlation that a noise line says, if any.
fn correlation_of(values: Values<'_>) -> Option<u64>
    ensures { CorrelationHeld values.entry.words.now result }
{
    if values.count(CORRELATION) == 0 {
        return None;
    }
    Some(values.member(CORRELATION, 0))
}

fn condition_of(values: Values<'_>) -> OutcomeCondition
    ensures { ConditionHeld values.entry.words.now result }
{
    let mut outcomes = [0u64; KEPT];
    row_loops::copy(&mut outcomes, 0, values.kept(CONDITION), 0, KEPT);
    OutcomeCondition {
        outcomes,
        count: values.count(CONDITION) as usize,
        parity: values.number(PARITY),
    }
}

// The noise line that the values say. The total of its elements' weights is known once they are read.
pub fn fault_of(form: Form, values: Values<'_>, total: f64) -> PauliFault
    requires { is_probability (float (held_number values.words.now 0)) ≡ true }
    ensures { FaultHeld form values.entry.words.now total result }
{
    PauliFault {
        probability: f64::from_bits(values.number(PROBABILITY)),
        distribution: distribution_of(form, values, total),
        correlation: correlation_of(values),
        condition: condition_of(values),
    }
}
