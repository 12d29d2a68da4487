// The shares of the main list: their tests, a caller's two parts of the list, and the marks after a job.
// Shares and marks are two lists, as C lends them; the marks have one more, for the common part.
#![tactic(auto)]

ghost use Rattle.std.specs.Prelude.{◌≡◌, ℕ, ◌+◌, ◌-◌, ◌^◌, ◌<◌, ◌≤◌, min, length, get_or, take};
ghost use Rattle.job.specs.Refusals.{refusal_in};
ghost use Rattle.shares.specs.Shares.{sum, own_left, common_left, moved, each_within_of, shares_fit_of};
ghost use Rattle.share_marks.specs.Fit.{Fit, share_number_of};

use job::refusals::Refusal;

const MAX_CALLERS: usize = 8;

// The sum of the first n shares, or one more than `most` where it passes that.
fn sum_up_to(shares: &[u64], n: usize, most: usize) -> usize
    requires { (n ≤ length shares.now) × (most + 1 < 2 ^ 64) }
    ensures { result ≡ min (sum (take n shares.now)) (most + 1) }
{
    let mut total = 0;
    for &share in &shares[..n] {
        let share = share as usize;
        if most - total < share {
            return most + 1;
        }
        total += share;
    }
    total
}

// Whether no more is marked taken than a stretch holds, for every caller.
fn each_within(shares: &[u64], marks: &[u64]) -> bool
    requires { length shares.now ≤ length marks.now }
    ensures { result ≡ each_within_of shares.now marks.now }
{
    for caller in 0..shares.len() {
        if shares[caller] < marks[caller] {
            return false;
        }
    }
    true
}

// 25, with as many marks as are needed, whoever calls.
fn shares_fit(main: &[u64], shares: &[u64], marks: &[u64]) -> bool
    requires { length shares.now < length marks.now }
    ensures { (caller : ℕ) → result ≡ shares_fit_of (record { shares = shares.entry.now; marks = marks.now; caller = caller }) main.now }
{
    let callers = shares.len();
    if callers < 1 {
        return false;
    }
    if MAX_CALLERS < callers {
        return false;
    }
    let total = sum_up_to(shares, callers, main.len());
    if main.len() < total {
        return false;
    }
    each_within(shares, marks) && marks[callers] as usize <= main.len() - total
}

// What refuses a caller's share of the list, if anything: 13, 25 or 26.
pub fn share_number(main: &[u64], shares: &[u64], marks: &[u64], caller: u64) -> Result<(), Refusal>
    ensures { refusal_in result ≡ share_number_of (record { shares = shares.entry.now; marks = marks.now; caller = caller }) main.now }
{
    if marks.len() <= shares.len() {
        return Err(Refusal::Words);
    }
    if !shares_fit(main, shares, marks) {
        return Err(Refusal::Shares);
    }
    if shares.len() as u64 <= caller {
        return Err(Refusal::Caller);
    }
    Ok(())
}

// What is left of a caller's stretch: from its mark to its end.
pub fn own<'a>(main: &'a [u64], shares: &[u64], marks: &[u64], caller: usize) -> &'a [u64]
    requires { Fit shares.now marks.now main.now × (caller < length shares.now) }
    ensures { result.now ≡ own_left shares.now marks.now caller main.now }
{
    let start = sum_up_to(shares, caller, main.len());
    let from = start + marks[caller] as usize;
    let end = start + shares[caller] as usize;
    &main[from..end]
}

// What is left of the common part, behind all stretches.
pub fn common<'a>(main: &'a [u64], shares: &[u64], marks: &[u64]) -> &'a [u64]
    requires { Fit shares.now marks.now main.now }
    ensures { result.now ≡ common_left shares.now marks.now main.now }
{
    let callers = shares.len();
    let from = sum_up_to(shares, callers, main.len()) + marks[callers] as usize;
    &main[from..]
}

// Marks so many words as taken: of the caller's own ones, of which so many are left, first, and the rest of the common part, which is marked behind
// all callers.
pub fn mark_taken(marks: &mut [u64], callers: usize, caller: usize, own: usize, taken: usize)
    requires { (caller < callers) × (callers < length marks.old) × (get_or marks.old caller 0 + own < 2 ^ 64) × (get_or marks.old callers 0 + (taken - own) < 2 ^ 64) }
    ensures { marks.new ≡ moved (moved marks.old caller (min taken own)) callers (taken - min taken own) }
{
    let first = taken.min(own);
    marks[caller] += first as u64;
    marks[callers] += (taken - first) as u64;
}
