// The groups of outcomes that a caller lends in one list: each group's length, then its ids. What is carried back of each lies in lent words, 24 a
// group: the X part and the Z part of its observable, 4 words each, and its set, 16 words.
ghost use Rattle.std.specs.Prelude.{◌≡◌, map, replicate, length};
ghost use Rattle.pauli.specs.Fixed.{AllBelow};
ghost use Rattle.single_faults.specs.Groups.{groups_of};
ghost use Rattle.fault_table.specs.Lent.{grouping_of, carried_in, start_of, all_carried, Startable};

use check_values::lists::all_below;
use numbers::rising::is_rising;

// How many words a group has.
pub const GROUP_WORDS: usize = 24;

// How many groups there are; none where 17 refuses one that is cut short, isn't strictly rising or has an outcome that isn't recorded.
pub fn grouping(list: &[u64], recorded: u64) -> Option<usize>
    ensures { result ≡ grouping_of recorded 0 (groups_of list.now) }
{
    let mut n = 0;
    let mut at = 0;
    // A while: a group is skipped in one turn, so no range hands out the places.
    while at < list.len() {
        let count = list[at];
        let from = at + 1;
        let left = list.len() - from;
        if (left as u64) < count {
            return None;
        }
        let end = from + count as usize;
        let ids = &list[from..end];
        if !is_rising(ids) {
            return None;
        }
        if !all_below(ids, recorded) {
            return None;
        }
        n += 1;
        at = end;
    }
    Some(n)
}

// The words of one group, where nothing is carried back yet.
fn start_group(group: &mut [u64], ids: &[u64])
    requires { (group.old ≡ replicate 24 0) × AllBelow 1024 ids.now }
    ensures { carried_in group.new ≡ start_of ids.now }
{
    pauli::add_outcomes(&mut group[8..], ids);
}

// The words of all groups.
pub fn start(list: &[u64], state: &mut [u64])
    requires { Startable list.now state.old }
    ensures { (q : Startable list.now state.old) → all_carried (length q.groups) state.new ≡ map start_of q.groups }
{
    let mut at = 0;
    let mut a = 0;
    // A while, as in `grouping`.
    while at < list.len() {
        let from = at + 1;
        let end = from + list[at] as usize;
        let next = a + GROUP_WORDS;
        start_group(&mut state[a..next], &list[from..end]);
        a = next;
        at = end;
    }
}
