// What the shots of a noise line draw, one after the other.
#![tactic(auto)]

ghost use Rattle.std.specs.Prelude.{◌≡◌, ◌++◌, ◌*◌, ◌/◌, ◌%◌, ◌<◌, ◌≤◌, length, get_or};
ghost use Rattle.pauli.specs.Bits.{bit};
ghost use Rattle.noise.specs.Kinds.{Small};
ghost use Rattle.choice.specs.Choice.{Sized};
ghost use Rattle.shots.specs.Shots.{Ruled, RuleOf, ShotDrawn, FaultFound};

use choice::{Chooser, Chosen};
use fault_scan::{falls_next, next_skip, threshold};
use noise::PauliDistribution;
use noise::words::count;
use pauli::{Shot, WORD_BITS};

// How words become the faults of a line, the same in all its shots: p decides whether a word brings a fault, its threshold passes over words that
// bring none, and the chooser finds the element.
#[derive(Clone, Copy)]
pub struct DrawRule {
    pub p: f64,
    pub threshold: u64,
    pub chooser: Chooser,
}

// The rule of a line's p and its distribution.
pub fn rule_of(p: f64, distribution: PauliDistribution) -> DrawRule
    requires { Small distribution }
    ensures { RuleOf p distribution result }
{
    DrawRule {
        p,
        threshold: threshold(p),
        chooser: Chooser::of(distribution),
    }
}

// What one shot draws: no fault, or an element, each with the position of the next word; or a word was needed past the end.
// An enum of its own, here and below: three cases, which an Option in a Result would say no plainer.
#[derive(Clone, Copy)]
pub enum ShotDraw {
    Spent,
    Quiet { position: usize },
    Fault { element: u64, position: usize },
}

// One shot's draw, where the word at its position, if there is one, brings a fault. The words lie in two parts, the second behind the first.
// `satisfied` says whether the condition is, in that shot.
pub fn draw_shot(
    words: &[u64],
    more: &[u64],
    at: usize,
    chooser: Chooser,
    sums: &[f64],
    satisfied: bool,
) -> ShotDraw
    requires { Sized chooser }
    ensures { ShotDrawn (words.now ++ more.now) at chooser.distribution sums.now satisfied result }
{
    if count(words, more) <= at {
        return ShotDraw::Spent;
    }
    if !satisfied {
        return ShotDraw::Quiet { position: at + 1 };
    }
    match chooser.choose_element(words, more, at + 1, sums) {
        Some(Chosen { element, position }) => ShotDraw::Fault { element, position },
        None => ShotDraw::Spent,
    }
}

// Whether a shot is in a mask.
pub fn is_set(mask: &[u64], shot: Shot) -> bool
    requires { shot.0 < 64 * length mask.now }
    ensures { result ≡ bit (get_or mask.now (shot.0 / 64) 0) (shot.0 % 64) }
{
    let s = shot.0;
    (mask[s / WORD_BITS] >> (s % WORD_BITS)) % 2 == 1
}

// The next fault of a line: its shot, its element and the position of the next word. Or no shot that is left has one, with the position of the next
// word; or a word was needed past the end.
#[derive(Clone, Copy)]
pub enum NextFault {
    Spent,
    Done {
        position: usize,
    },
    At {
        shot: Shot,
        element: u64,
        position: usize,
    },
}

// The next fault in the shots from `shot` on, by the rule of the line. The mask has the shots whose condition is satisfied.
fn fault_from(
    words: &[u64],
    more: &[u64],
    at: usize,
    mask: &[u64],
    shot: Shot,
    shots: usize,
    rule: DrawRule,
    sums: &[f64],
) -> NextFault
    requires { (at ≤ length (words.now ++ more.now)) × (shot.0 ≤ shots) × (shots ≤ 64 * length mask.now) × Ruled rule }
    ensures { FaultFound (words.now ++ more.now) at mask.now shot.0 shots rule.p rule.chooser.distribution sums.now result }
{
    let p = rule.p;
    let threshold = rule.threshold;
    let chooser = rule.chooser;
    let mut next = at;
    let mut s = shot.0;
    // A while: each turn passes over the shots whose words bring no fault.
    while s < shots {
        let skip = next_skip(words, more, next, shots - s, p, threshold);
        next += skip;
        s += skip;
        if s == shots {
            return NextFault::Done { position: next };
        }
        match draw_shot(words, more, next, chooser, sums, is_set(mask, Shot(s))) {
            ShotDraw::Spent => {
                return NextFault::Spent;
            }
            ShotDraw::Quiet { position } => {
                next = position;
            }
            ShotDraw::Fault { element, position } => {
                return NextFault::At {
                    shot: Shot(s),
                    element,
                    position,
                };
            }
        }
        s += 1;
    }
    NextFault::Done { position: next }
}

// The same with a look at the first shot by itself: with a p near 1 that has a fault, and what the loop prepares would cost more than the draw.
pub fn next_fault(
    words: &[u64],
    more: &[u64],
    at: usize,
    mask: &[u64],
    shot: Shot,
    shots: usize,
    rule: DrawRule,
    sums: &[f64],
) -> NextFault
    requires { (at ≤ length (words.now ++ more.now)) × (shot.0 ≤ shots) × (shots ≤ 64 * length mask.now) × Ruled rule }
    ensures { FaultFound (words.now ++ more.now) at mask.now shot.0 shots rule.p rule.chooser.distribution sums.now result }
{
    if shot.0 < shots && falls_next(words, more, at, rule.p) {
        match draw_shot(words, more, at, rule.chooser, sums, is_set(mask, shot)) {
            ShotDraw::Spent => {
                return NextFault::Spent;
            }
            ShotDraw::Quiet { position: _ } => {}
            ShotDraw::Fault { element, position } => {
                return NextFault::At {
                    shot,
                    element,
                    position,
                };
            }
        }
    }
    fault_from(words, more, at, mask, shot, shots, rule, sums)
}
