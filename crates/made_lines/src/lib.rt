// A made instruction: its kind by the ring of docs/MAKING.md, and its lines.
#![tactic(auto)]

ghost use Rattle.std.specs.Prelude.{◌≡◌, ℕ, ◌<◌, length};
ghost use Rattle.made.specs.Making.{ring, instruction};
ghost use Rattle.made_fields.specs.Lines.{MadeIs, Ready};
ghost use Rattle.made_lines.specs.Ring.{index_of, entry_at, Stands, StandsFor};

mod gates;
mod noise_lines;
mod other_lines;

use job::{Header, SECOND_EDITION};
use made_fields::Making;
use made_fields::choices::pick;

// ---- The ring of kinds

// The kinds of instructions, in the order of the ring. A barrier is of the second edition alone.
#[derive(Clone, Copy)]
pub enum Kind {
    Unitary,
    Clifford,
    Pauli,
    Exponential,
    Controlled,
    Permute,
    Conditional,
    Reset,
    Injection,
    Single,
    Depolarizing,
    Uniform,
    Weighted,
    Flip,
    Measure,
    Allocate,
    Barrier,
}

// How many kinds the ring has.
fn ring_length(h: Header) -> u64
    ensures { (recorded : ℕ) → result ≡ length (ring h recorded) }
{
    if h.edition == SECOND_EDITION {
        return 17;
    }
    16
}

// The kind at a place of the ring.
fn kind_at(place: u64) -> Kind
    requires { place < 17 }
    ensures { index_of result ≡ place }
{
    match place {
        0 => Kind::Unitary,
        1 => Kind::Clifford,
        2 => Kind::Pauli,
        3 => Kind::Exponential,
        4 => Kind::Controlled,
        5 => Kind::Permute,
        6 => Kind::Conditional,
        7 => Kind::Reset,
        8 => Kind::Injection,
        9 => Kind::Single,
        10 => Kind::Depolarizing,
        11 => Kind::Uniform,
        12 => Kind::Weighted,
        13 => Kind::Flip,
        14 => Kind::Measure,
        15 => Kind::Allocate,
        _ => Kind::Barrier,
    }
}

// The kind that is made where no outcome can be recorded: a barrier, or behind the ring's last a gate.
fn standing_last(h: Header) -> Kind
    ensures { (recorded : ℕ) → StandsFor h recorded 16 (index_of result) }
{
    if h.edition == SECOND_EDITION {
        return Kind::Barrier;
    }
    Kind::Unitary
}

// The kind that is made where a measurement or an allocation was chosen.
fn standing_recording(h: Header, recorded: u64, kind: Kind) -> Kind
    requires { (13 < index_of kind) × (index_of kind < 16) }
    ensures { StandsFor h recorded (index_of kind) (index_of result) }
{
    if recorded < h.outcomes {
        return kind;
    }
    standing_last(h)
}

// The kind that is made where a kind was chosen: the first from it on in the ring that can stand here, and behind the last the first.
fn standing(h: Header, recorded: u64, kind: Kind) -> Kind
    requires { index_of kind < length (ring h recorded) }
    ensures { StandsFor h recorded (index_of kind) (index_of result) }
{
    match kind {
        Kind::Flip => {
            if 0 < recorded {
                return Kind::Flip;
            }
            standing_recording(h, recorded, Kind::Measure)
        }
        Kind::Measure => standing_recording(h, recorded, kind),
        Kind::Allocate => standing_recording(h, recorded, kind),
        _ => kind,
    }
}

// An instruction of a kind.
#[tactic(auto, unfolding(made::specs::Making::ring))]
fn put_kind(out: &mut [u8], m: Making, h: Header, kind: Kind) -> Making
    requires { Ready h m × Stands h m.recorded (index_of kind) }
    ensures { MadeIs ((entry_at h m.recorded (index_of kind)).made m.state) m result out.old out.new }
{
    match kind {
        Kind::Unitary => gates::put_unitary(out, m, h),
        Kind::Clifford => gates::put_clifford(out, m, h),
        Kind::Pauli => other_lines::put_pauli_line(out, m, h, b"op=p x="),
        Kind::Exponential => other_lines::put_pauli_line(out, m, h, b"op=e x="),
        Kind::Controlled => other_lines::put_controlled(out, m, h),
        Kind::Permute => other_lines::put_permute(out, m, h),
        Kind::Conditional => other_lines::put_conditional(out, m, h),
        Kind::Reset => other_lines::put_reset(out, m, h),
        Kind::Injection => other_lines::put_injection(out, m, h),
        Kind::Single => noise_lines::put_single(out, m, h),
        Kind::Depolarizing => noise_lines::put_spread(out, m, h),
        Kind::Uniform => noise_lines::put_listed(out, m, h, false),
        Kind::Weighted => noise_lines::put_listed(out, m, h, true),
        Kind::Flip => other_lines::put_flip(out, m, h),
        Kind::Measure => other_lines::put_measure(out, m, h),
        Kind::Allocate => other_lines::put_allocate(out, m, h),
        Kind::Barrier => other_lines::put_barrier(out, m, h),
    }
}

// The next instruction of a made job.
pub fn put_instruction(out: &mut [u8], m: Making, h: Header) -> Making
    requires { Ready h m }
    ensures { MadeIs (instruction h m.recorded m.state) m result out.old out.new }
{
    let place = pick(ring_length(h), m.state);
    let kind = standing(h, m.recorded, kind_at(place.value));
    put_kind(out, m.moved(m.at, place.state), h, kind)
}
