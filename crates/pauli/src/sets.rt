// Fixed sets: 256 qubits in four words, 1,024 outcomes in sixteen. Number q is bit q mod 64 of word q / 64.
//
// One core over slices serves both widths, by the number of a bit. Outside this file a set is reached by
// QubitId or OutcomeId, or by the list of numbers that a line holds. Every contract says the set as a
// function from numbers to Bool, and nothing of words.
ghost use Rattle.std.specs.Prelude.{◌≡◌, true, ◌*◌, ◌/◌, ◌<◌, length};
ghost use Rattle.pauli.specs.Bits.{◌△◌, replaced, members};
ghost use Rattle.pauli.specs.Fixed.{in_set, AllBelow};

use super::{OutcomeId, QubitId, WORD_BITS};

// Whether bit n is in a set. A number past the last word is not.
fn contains(set: &[u64], n: usize) -> bool
    ensures { result ≡ in_set set.now n }
{
    let k = n / WORD_BITS;
    k < set.len() && (set[k] >> (n % WORD_BITS)) % 2 == 1
}

// Adds a set of as many words to another: the symmetric difference.
fn add_set(set: &mut [u64], other: &[u64])
    requires { length other.now ≡ length set.old }
    ensures { (length set.new ≡ length set.old) × (in_set set.new ≡ in_set set.old △ in_set other.now) }
{
    for j in 0..set.len() {
        set[j] ^= other[j];
    }
}

// Puts bit n into a set.
fn insert(set: &mut [u64], n: usize)
    requires { n / 64 < length set.old }
    ensures { (length set.new ≡ length set.old) × (in_set set.new ≡ replaced (in_set set.old) n true) }
{
    let k = n / WORD_BITS;
    set[k] |= 1u64 << (n % WORD_BITS);
}

// The set of the listed numbers, in as many words as its reader asks for: four for qubits, sixteen for outcomes.
pub fn set_of<const N: usize>(numbers: &[u64]) -> [u64; N]
    requires { AllBelow (64 * N) numbers.now }
    ensures { in_set result ≡ members numbers.now }
{
    let mut set = [0u64; N];
    for &n in numbers {
        insert(&mut set, n as usize);
    }
    set
}

// Two functions, since an id says which kind of set it is looked up in.

// Whether a qubit is in a set.
pub fn has_qubit(set: [u64; 4], q: QubitId) -> bool
    ensures { result ≡ in_set set q.0 }
{
    contains(&set, q.0)
}

// Whether an outcome is in a lent set.
pub fn has_outcome(set: &[u64], id: OutcomeId) -> bool
    ensures { result ≡ in_set set.now id.0 }
{
    contains(set, id.0)
}

// The sum of two sets of qubits.
pub fn sum_of_qubits(a: [u64; 4], b: [u64; 4]) -> [u64; 4]
    ensures { in_set result ≡ in_set a △ in_set b }
{
    let mut r = a;
    add_set(&mut r, &b);
    r
}

// Adds the listed outcomes to a lent set: the symmetric difference.
pub fn add_outcomes(set: &mut [u64], ids: &[u64])
    requires { (length set.old ≡ 16) × AllBelow 1024 ids.now }
    ensures { (length set.new ≡ 16) × (in_set set.new ≡ in_set set.old △ members ids.now) }
{
    let other: [u64; 16] = set_of(ids);
    add_set(set, &other);
}
