// What is asked of a job's numbers alone: whether a header may hold them, and how many elements depolarizing noise has.
#![tactic(auto)]

ghost use Rattle.std.specs.Prelude.{◌≡◌, ◌-◌, ◌^◌, ◌<◌};
ghost use Rattle.job.specs.Checks.{in_range};

use job::Header;
use job::limits::{MAX_OUTCOMES, MAX_QUBITS, MAX_SHOTS};

// Whether a header may hold its numbers, whatever its edition.
pub fn in_range(h: Header) -> bool
    ensures { result ≡ in_range h }
{
    1 <= h.qubits
        && h.qubits <= MAX_QUBITS
        && h.outcomes <= MAX_OUTCOMES
        && 1 <= h.shots
        && h.shots <= MAX_SHOTS
}

// How many elements depolarizing noise over k qubits has: every Pauli on them but the identity.
pub fn depolarizing_size(k: u64) -> u64
    requires { k < 32 }
    ensures { result ≡ 4 ^ k - 1 }
{
    (1u64 << (2 * k)) - 1
}
