// The elements of a distribution in lent words. Each begins with the counts of its two lists, and has 31 words for the members of each. The qubits of
// a depolarizing distribution stand as the first list of element 0.
ghost use Rattle.std.specs.Prelude.{◌≡◌, Bool, true, cond, ◌+◌, ◌*◌, ◌≤◌, ◌<◌, min, length, take, drop};
ghost use Rattle.template.specs.Values.{held_count};
ghost use Rattle.job.specs.Float.{float, zero_float, is_weight_of};
ghost use Rattle.faults.specs.Elements.{Inside, x_count, z_count, element_X, element_Z, element_counts_of, element_members_of, Kept};
ghost use Rattle.faults.specs.Prepared.{ElementLines, Gathered};

use job::limits::MAX_ELEMENTS;
use known_lines::next_known;
use reader::slots::{WEIGHT, X};
use template::values::{KEPT, Values, blank};

// ---- Where they lie

// An element starts with the count of its first list. Behind that lie the count of its second, and the members of both.
const Z_COUNT: usize = 1;

const COUNTS: usize = 2;

const X_MEMBERS: usize = COUNTS;

const Z_MEMBERS: usize = X_MEMBERS + KEPT;

// The words of one element, and of all.
pub const ELEMENT_WORDS: usize = Z_MEMBERS + KEPT;

pub const ELEMENTS_WORDS: usize = MAX_ELEMENTS as usize * ELEMENT_WORDS;

// A list of an element: its members begin at `from`, and there are so many.
fn list_at<'a>(elements: &'a [u64], from: usize, count: u64) -> &'a [u64]
    requires { from + count ≤ length elements.now }
    ensures { result.now ≡ take count (drop from elements.now) }
{
    &elements[from..from + count as usize]
}

// The first list of element e.
pub fn element_x<'a>(elements: &'a [u64], e: usize) -> &'a [u64]
    requires { Inside elements.now e × (x_count elements.now e ≤ 31) }
    ensures { result.now ≡ element_X elements.now e }
{
    let start = e * ELEMENT_WORDS;
    list_at(elements, start + X_MEMBERS, elements[start])
}

// The second list.
pub fn element_z<'a>(elements: &'a [u64], e: usize) -> &'a [u64]
    requires { Inside elements.now e × (z_count elements.now e ≤ 31) }
    ensures { result.now ≡ element_Z elements.now e }
{
    let start = e * ELEMENT_WORDS;
    list_at(elements, start + Z_MEMBERS, elements[start + Z_COUNT])
}

// Both counts.
pub fn element_counts<'a>(elements: &'a [u64], e: usize) -> &'a [u64]
    requires { Inside elements.now e }
    ensures { result.now ≡ element_counts_of elements.now e }
{
    let from = e * ELEMENT_WORDS;
    &elements[from..from + COUNTS]
}

// The words for the members of both lists.
pub fn element_members<'a>(elements: &'a [u64], e: usize) -> &'a [u64]
    requires { Inside elements.now e }
    ensures { result.now ≡ element_members_of elements.now e }
{
    let from = e * ELEMENT_WORDS + X_MEMBERS;
    &elements[from..from + 2 * KEPT]
}

// How many members of a list are kept.
fn kept_count(values: Values<'_>, i: usize) -> usize
    requires { i < 4 }
    ensures { result ≡ min (held_count values.entry.words.now i) 31 }
{
    (values.count(i) as usize).min(KEPT)
}

// Keeps two lists of a line, the one in slot `first` and the next, as element e. What the words behind their members hold is not promised.
pub fn keep_element(elements: &mut [u64], e: usize, values: Values<'_>, first: usize)
    requires { Inside elements.old e × (first ≤ 2) }
    ensures { Kept e first values.entry.words.now elements.old elements.new }
{
    let start = e * ELEMENT_WORDS;
    let second = first + 1;
    elements[start] = values.count(first);
    elements[start + Z_COUNT] = values.count(second);
    row_loops::copy(
        &mut *elements,
        start + X_MEMBERS,
        values.kept(first),
        0,
        kept_count(values, first),
    );
    row_loops::copy(
        elements,
        start + Z_MEMBERS,
        values.kept(second),
        0,
        kept_count(values, second),
    );
}

// ---- Element lines

// The weight of an element by its bits: 0 where elements have none.
fn weight_of(weighted: bool, bits: u64) -> f64
    requires { weighted ≡ true → is_weight_of (float bits) ≡ true }
    ensures { result ≡ cond weighted (float bits) zero_float }
{
    if weighted { f64::from_bits(bits) } else { 0.0 }
}

// Reads n element lines from a place on. Answers the place behind them.
// One function for both kinds, which differ in the weights alone: two would be twins.
pub fn gather(
    job: &[u8],
    from: usize,
    n: usize,
    weighted: bool,
    elements: &mut [u64],
    weights: &mut [f64],
) -> usize
    requires { ElementLines job.now from n weighted × (n * 64 ≤ length elements.old) × (length weights.old ≡ n) }
    ensures { (n ≡ 0 → elements.new ≡ elements.old) × ((q : ElementLines job.now from n weighted) → Gathered q elements.new weights.new result n) }
{
    // No words are cleared for a line without elements.
    if n == 0 {
        return from;
    }
    let mut words = blank();
    let mut at = from;
    // By number: an element, its weight and its line have the same one.
    for e in 0..n {
        let line = next_known(job, at, &mut words);
        let values = Values { words: &words };
        keep_element(&mut *elements, e, values, X);
        weights[e] = weight_of(weighted, values.number(WEIGHT));
        at = line.end + 1;
    }
    at
}
