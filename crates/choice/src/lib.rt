// The choice of an element. An element is known by its number, from 0.
#![tactic(auto)]

ghost use Rattle.std.specs.Prelude.{◌≡◌, ◌||◌, List, ◌++◌, ◌-◌, ◌<◌, ◌≤◌, length, drop};
ghost use Rattle.job.specs.Float.{zero_float, total_from};
ghost use Rattle.draws.specs.Draws.{limit_of, bounded, running_sums_of, is_positive};
ghost use Rattle.draws.specs.Known.{rust_place};
ghost use Rattle.noise.specs.Kinds.{bound_of, Small};
ghost use Rattle.choice.specs.Choice.{Chose, Weighed, Sized, ElementChosen, Totals, marked, marked_by, SumsOf};

use job_numbers::depolarizing_size;
use noise::PauliDistribution;
use noise::words::{next_word, unit};

// An element that words chose, with the position of the next word. A choice has none where a word was needed past the end.
#[derive(Clone, Copy)]
pub struct Chosen {
    pub element: u64,
    pub position: usize,
}

// A distribution; for a choice in which each element is as likely as another also its bound, how many elements it is among, and its limit, which
// takes a division.
#[derive(Clone, Copy)]
pub struct Chooser {
    pub distribution: PauliDistribution,
    pub bound: u64,
    pub limit: u64,
}

// ---- A choice in which each element is as likely as another

// The bound of such a choice; 0 for the kinds that choose otherwise.
// 0 and no Option: choose_element has one arm for both kinds with a bound, and would take an Option apart at each choice.
fn bound(distribution: PauliDistribution) -> u64
    requires { Small distribution }
    ensures { result ≡ bound_of distribution }
{
    match distribution {
        PauliDistribution::Single => 0,
        PauliDistribution::Depolarizing { qubit_count } => depolarizing_size(qubit_count),
        PauliDistribution::Uniform { element_count } => element_count,
        PauliDistribution::Weighted { total: _ } => 0,
    }
}

// Words from this one up are rejected.
fn limit(bound: u64) -> u64
    ensures { result ≡ limit_of bound }
{
    if bound == 0 {
        return 0;
    }
    u64::MAX - u64::MAX % bound
}

// The first word that is not rejected, mod the bound. The limit is handed in, since it takes a division.
pub fn choose_uniform(
    words: &[u64],
    more: &[u64],
    at: usize,
    bound: u64,
    limit: u64,
) -> Option<Chosen>
    requires { limit ≡ limit_of bound }
    ensures { Chose (words.now ++ more.now) (bounded bound (drop at (words.now ++ more.now))) result }
{
    let mut i = at;
    // A loop: words are rejected until one isn't, and it is not known how many.
    loop {
        let word = next_word(words, more, i)?;
        i += 1;
        if word < limit {
            return Some(Chosen {
                element: word % bound,
                position: i,
            });
        }
    }
}

// ---- A choice by weights

// The weights summed from the left.
pub fn total(weights: &[f64]) -> f64
    ensures { result ≡ total_from zero_float weights.now }
{
    let mut sum = 0.0;
    for &weight in weights {
        sum += weight;
    }
    sum
}

// The running sums of the weights, each adding a weight / total, and the last set to 1.0.
pub fn running_sums(sums: &mut [f64], weights: &[f64], total: f64)
    requires { (0 < length weights.now) × (length sums.old ≡ length weights.now) × (total ≡ total_from zero_float weights.now) }
    ensures { sums.new ≡ running_sums_of weights.now }
{
    let mut sum = 0.0;
    for (i, &weight) in weights.iter().enumerate() {
        sum += weight / total;
        sums[i] = sum;
    }
    sums[weights.len() - 1] = 1.0;
}

// A running sum beside its weight, so that `element_by` needs one comparison: -1.0, which is below every u, if the weight isn't positive, and 1.0,
// which is below none, if it is the last that is.
fn mark(weight: f64, sum: f64, positive_behind: bool) -> f64
    ensures { result ≡ marked weight sum positive_behind }
{
    if 0.0 < weight {
        if positive_behind {
            return sum;
        }
        return 1.0;
    }
    -1.0
}

// Whether a weight is positive, or one behind it.
fn any_positive(weight: f64, positive_behind: bool) -> bool
    ensures { result ≡ (positive_behind || is_positive weight) }
{
    positive_behind || 0.0 < weight
}

// Marks the running sums of the weights, from the last to the first.
fn mark_sums(sums: &mut [f64], weights: &[f64])
    requires { length sums.old ≡ length weights.now }
    ensures { sums.new ≡ marked_by weights.now sums.old }
{
    let mut positive_behind = false;
    // By places, from the last on: a sum and its weight have one place.
    for i in (0..weights.len()).rev() {
        let weight = weights[i];
        sums[i] = mark(weight, sums[i], positive_behind);
        positive_behind = any_positive(weight, positive_behind);
    }
}

// The sums by which the weighted one of the distributions chooses, by the total that it carries. The others have none.
pub fn fill_sums(distribution: PauliDistribution, sums: &mut [f64], weights: &[f64])
    requires { (length sums.old ≡ length weights.now) × Totals distribution weights.now }
    ensures { SumsOf distribution weights.now sums.new }
{
    if let PauliDistribution::Weighted { total } = distribution {
        running_sums(&mut *sums, weights, total);
        mark_sums(sums, weights);
    }
}

// The element that u chooses: the first whose running sum is not below u, else the last. The end is looked for once in two sums. Of the last two one
// comparison chooses, without a branch, which could not be predicted.
fn element_by(sums: &[f64], u: f64) -> usize
    ensures { result ≡ rust_place u sums.now }
{
    let mut i = 0;
    // A while: each turn looks at two sums.
    while 2 < sums.len() - i {
        if !(sums[i] < u) {
            return i;
        }
        let second = i + 1;
        if !(sums[second] < u) {
            return second;
        }
        i = second + 1;
    }
    if 1 < sums.len() - i {
        return i + (sums[i] < u) as usize;
    }
    i
}

// One word chooses an element by its running sum.
pub fn choose_weighted(words: &[u64], more: &[u64], at: usize, sums: &[f64]) -> Option<Chosen>
    ensures { Weighed (words.now ++ more.now) at sums.now result }
{
    let word = next_word(words, more, at)?;
    Some(Chosen {
        element: element_by(sums, unit(word)) as u64,
        position: at + 1,
    })
}

// ---- A choice by the kind of distribution

impl Chooser {
    // A distribution with its bound and limit, which are the same for all shots of a line.
    pub fn of(distribution: PauliDistribution) -> Chooser
        requires { Small distribution }
        ensures { (result.distribution ≡ distribution) × Sized result }
    {
        let bound = bound(distribution);
        Chooser {
            distribution,
            bound,
            limit: limit(bound),
        }
    }

    // The element that the words from a position on choose.
    pub fn choose_element(
        self,
        words: &[u64],
        more: &[u64],
        at: usize,
        sums: &[f64],
    ) -> Option<Chosen>
        requires { (at ≤ length (words.now ++ more.now)) × Sized self }
        ensures { ElementChosen (words.now ++ more.now) at self.distribution sums.now result }
    {
        match self.distribution {
            PauliDistribution::Single => Some(Chosen {
                element: 0,
                position: at,
            }),
            PauliDistribution::Weighted { total: _ } => choose_weighted(words, more, at, sums),
            // Both other kinds in one arm: so the code stays small enough to be inlined where a shot is drawn.
            _ => choose_uniform(words, more, at, self.bound, self.limit),
        }
    }
}
