// Words: as numbers from 0 to 1, and the part of the two lists of them that a noise line reads from.
ghost use Rattle.std.specs.Prelude.{◌≡◌, ◌+◌, ◌-◌, ◌^◌, ◌<◌, ◌≤◌, ◌++◌, length, drop, slice_index};
ghost use Rattle.std.proofs.Math.Option.{none};
ghost use Rattle.draws.specs.Draws.{unit_of, falls, Lent, part_of};
ghost use Rattle.noise.specs.Kinds.{correlation_of};
ghost use Rattle.noise.specs.Words.{more_of, position_after_of, WordRead};

// A word w stands for u = floor(w / 2048) / 2^53: 2048 words in a row, a step, have the same u, and there are 2^53 steps.
pub const STEP_WORDS: u64 = 2048;

pub const STEPS: u64 = 9007199254740992;

pub const STEPS_FLOAT: f64 = 9007199254740992.0;

// The u of a word. A number below 2^53 is cast without loss, and scaling by a power of two is exact.
pub fn unit(word: u64) -> f64
    ensures { result ≡ unit_of word }
{
    (word / STEP_WORDS) as f64 / STEPS_FLOAT
}

// A fault falls if u < p.
pub fn is_fault(word: u64, p: f64) -> bool
    ensures { result ≡ falls word p }
{
    unit(word) < p
}

// The words of a list from a position on: none where that is past the end.
fn tail<'a>(words: &'a [u64], from: usize) -> &'a [u64]
    ensures { result.now ≡ drop from words.now }
{
    &words[from.min(words.len())..]
}

// The part of one of the two lists that a noise line reads from: the main list from a position on, or the second from base + c on, wrapping at 2^64.
pub fn part<'a>(
    main: &'a [u64],
    second: &'a [u64],
    correlation: Option<u64>,
    base: u64,
    position: usize,
) -> &'a [u64]
    ensures { (lent : Lent) → lent.second ≡ second.now → lent.base ≡ base → result.now ≡ part_of lent (correlation_of correlation) (drop position main.now) }
{
    match correlation {
        None => tail(main, position),
        Some(c) => tail(second, base.wrapping_add(c) as usize),
    }
}

// What follows that part, where the main list lies in two parts of which the first has so many words: the rest of its other part, `more`; nothing for
// a correlated line, which reads the second list.
pub fn more_part<'a>(
    more: &'a [u64],
    correlation: Option<u64>,
    position: usize,
    first_len: usize,
) -> &'a [u64]
    ensures { result.now ≡ more_of (correlation_of correlation) (drop (position - first_len) more.now) }
{
    match correlation {
        None => tail(more, position.saturating_sub(first_len)),
        Some(_) => &[],
    }
}

// The position in the main list behind a noise line: only a line without correlation reads on.
pub fn position_after(correlation: Option<u64>, position: usize, read: usize) -> usize
    requires { correlation_of correlation ≡ none → position + read < 2 ^ 64 }
    ensures { result ≡ position_after_of correlation position read }
{
    match correlation {
        None => position + read,
        Some(_) => position,
    }
}

// How many words two parts have, the second behind the first.
pub fn count(words: &[u64], more: &[u64]) -> usize
    ensures { result ≡ length (words.now ++ more.now) }
{
    words.len() + more.len()
}

// The word at a position of the two.
pub fn word_at(words: &[u64], more: &[u64], at: usize) -> u64
    requires { at < length (words.now ++ more.now) }
    ensures { result ≡ slice_index (words.now ++ more.now) at }
{
    if at < words.len() {
        return words[at];
    }
    more[at - words.len()]
}

// The same where there may be none. It is one look: a count before it would be another.
pub fn next_word(words: &[u64], more: &[u64], at: usize) -> Option<u64>
    ensures { WordRead (words.now ++ more.now) at result }
{
    if at < words.len() {
        return Some(words[at]);
    }
    let i = at - words.len();
    if i < more.len() {
        return Some(more[i]);
    }
    None
}
