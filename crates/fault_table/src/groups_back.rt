// A line back for all groups at once, and the characters of a Pauli: what it does to each group.
ghost use Rattle.std.specs.Prelude.{◌≡◌, true, map, ◌*◌, length};
ghost use Rattle.pauli.specs.Fixed.{as_pauli};
ghost use Rattle.reader.specs.declared.Form.TheVariants as Forms;
ghost use Rattle.lines_back.specs.Back.{Readable};
ghost use Rattle.single_faults.specs.Carried.{mark_by};
ghost use Rattle.fault_table.specs.Lent.{carried_in, all_carried};
ghost use Rattle.fault_table.specs.Back.{still_form, GroupBack, GroupsBack};

use crate::groups::GROUP_WORDS;
use lines_back::{Walk, line_back};
use pauli::{Pauli, Shot};
use reader::Form;
use template::values::Values;

// ---- One group

fn observable(group: &[u64]) -> Pauli
    requires { length group.now ≡ 24 }
    ensures { as_pauli result ≡ (carried_in group.now).observable }
{
    Pauli {
        x: [group[0], group[1], group[2], group[3]],
        z: [group[4], group[5], group[6], group[7]],
    }
}

fn keep(group: &mut [u64], b: Pauli)
    requires { length group.old ≡ 24 }
    ensures { carried_in group.new ≡ record { observable = as_pauli b; set = (carried_in group.old).set } }
{
    group[..4].copy_from_slice(&b.x);
    group[4..8].copy_from_slice(&b.z);
}

// A gate, of which there are many, changes the observable alone.
fn gate_back(group: &mut [u64], values: Values<'_>)
    requires { Readable Forms.Unitary values.words.now × (length group.old ≡ 24) }
    ensures { GroupBack Forms.Unitary values.entry.words.now group.old group.new }
{
    let b = observable(group);
    keep(group, lines_back::unitary(values, b));
}

// Any line. What is carried back depends on no shot and no count.
fn group_back(group: &mut [u64], form: Form, values: Values<'_>)
    requires { Readable form values.words.now × (length group.old ≡ 24) }
    ensures { GroupBack form values.entry.words.now group.old group.new }
{
    if is_gate(form) {
        gate_back(group, values);
        return;
    }
    let w = Walk {
        observable: observable(group),
        count: 0,
        noise: None,
    };
    let r = line_back(w, form, values, &mut group[8..], Shot(0), 0);
    let b = r.observable;
    keep(group, b);
}

fn is_gate(form: Form) -> bool
    ensures { result ≡ true → form ≡ Forms.Unitary }
{
    matches!(form, Form::Unitary)
}

// ---- All groups

// Lines that change nothing of what is carried back.
fn is_still(form: Form) -> bool
    ensures { result ≡ true → still_form form ≡ true }
{
    matches!(
        form,
        Form::Pauli
            | Form::Allocate
            | Form::Inject
            | Form::Flip
            | Form::Single
            | Form::Depolarizing
            | Form::Uniform
            | Form::Weighted
            | Form::Element
            | Form::WeightedElement
            | Form::Barrier
    )
}

// A line that was read once, back for every group.
pub fn line_on_groups(state: &mut [u64], groups: usize, form: Form, values: Values<'_>)
    requires { Readable form values.words.now × (length state.old ≡ groups * 24) }
    ensures { GroupsBack form values.entry.words.now groups state.old state.new }
{
    if is_still(form) {
        return;
    }
    for i in (0..groups).rev() {
        let a = i * GROUP_WORDS;
        let end = a + GROUP_WORDS;
        group_back(&mut state[a..end], form, values);
    }
}

// A character for each group: 1 where the Pauli anticommutes with its observable.
pub fn put_marks(marks: &mut [u8], p: Pauli, state: &[u64])
    requires { length state.now ≡ length marks.old * 24 }
    ensures { marks.new ≡ map (mark_by 256 (as_pauli p)) (all_carried (length marks.old) state.now) }
{
    for i in (0..marks.len()).rev() {
        let a = i * GROUP_WORDS;
        let end = a + GROUP_WORDS;
        let on = p.anticommutes(observable(&state[a..end]));
        marks[i] = b'0' + on as u8;
    }
}
