// The values of a line: its numbers, at most 4; of each of its lists, at most 4, how many members it has, the largest of them (0 of none), and the
// members, of which the first 31 are kept. A line is read into words that are lent, so that none are copied.
ghost use Rattle.std.specs.Prelude.{◌≡◌, List, ℕ, ◌<◌, set, replicate};
ghost use Rattle.template.specs.Values.{AllKept, Whole, held_number, held_count, held_largest, held_member, held_list, kept_members};
ghost use Rattle.template.specs.Fields.{FewAre, ListPut, KnownPut};
ghost use Rattle.numbers.specs.Known.{ListThere};

use numbers::known::known_list;

// At most so many numbers, and so many lists.
pub const MAX_SLOTS: usize = 4;

// How many members of a list are kept: as many as MAX_MEMBERS of crate job, and so all of an accepted job.
pub const KEPT: usize = 31;

// Where the counts of the lists, their largest members and their members begin; the numbers begin at 0.
pub const COUNTS: usize = MAX_SLOTS;

pub const LARGEST: usize = COUNTS + MAX_SLOTS;

pub const MEMBERS: usize = LARGEST + MAX_SLOTS;

// All the words.
pub const VALUE_WORDS: usize = MEMBERS + MAX_SLOTS * KEPT;

// Words for the values of a line, all 0.
pub fn blank() -> [u64; VALUE_WORDS]
    ensures { result ≡ replicate 136 0 }
{
    [0u64; VALUE_WORDS]
}

// The values in lent words: as many words as that takes, or more.
#[derive(Clone, Copy)]
pub struct Values<'a> {
    pub words: &'a [u64],
    ghost whole: { Whole words.now },
}

impl<'a> Values<'a> {
    // The i-th number.
    pub fn number(self, i: usize) -> u64
        requires { i < 4 }
        ensures { result ≡ held_number self.entry.words.now i }
    {
        self.words[i]
    }

    // How many members the i-th list has on the line.
    pub fn count(self, i: usize) -> u64
        requires { i < 4 }
        ensures { result ≡ held_count self.entry.words.now i }
    {
        self.words[COUNTS + i]
    }

    // The largest member of the i-th list.
    pub fn largest(self, i: usize) -> u64
        requires { i < 4 }
        ensures { result ≡ held_largest self.entry.words.now i }
    {
        self.words[LARGEST + i]
    }

    // Member j of the i-th list.
    pub fn member(self, i: usize, j: usize) -> u64
        requires { (i < 4) × (j < 31) }
        ensures { result ≡ held_member self.entry.words.now i j }
    {
        self.words[MEMBERS + i * KEPT + j]
    }

    // The i-th list, where all its members are kept.
    pub fn list(self, i: usize) -> &'a [u64]
        requires { (i < 4) × AllKept self.words.now i }
        ensures { result.now ≡ held_list self.entry.words.now i }
    {
        let a = MEMBERS + i * KEPT;
        let e = a + self.words[COUNTS + i] as usize;
        &self.words[a..e]
    }

    // The words in which members of the i-th list are kept.
    pub fn kept(self, i: usize) -> &'a [u64]
        requires { i < 4 }
        ensures { result.now ≡ kept_members self.entry.words.now i }
    {
        let a = MEMBERS + i * KEPT;
        let e = a + KEPT;
        &self.words[a..e]
    }
}

// ---- Values that were read elsewhere, put into lent words

// Puts the i-th number.
pub fn set_number(v: &mut [u64], i: usize, n: u64)
    requires { (i < 4) × Whole v.old }
    ensures { v.new ≡ set v.old i n }
{
    v[i] = n;
}

// Puts the i-th list, of at most two members, by how many they are; `first` and `second` are 0 where it has no such member.
pub fn set_few(v: &mut [u64], i: usize, count: u64, first: u64, second: u64)
    requires { (i < 4) × Whole v.old }
    ensures { (members : List ℕ) → FewAre members count first second → ListPut v.old v.new i members }
{
    let most = first.max(second);
    let a = MEMBERS + i * KEPT;
    v[COUNTS + i] = count;
    v[LARGEST + i] = most;
    v[a] = first;
    v[a + 1] = second;
}

// Puts the i-th list, which is known to stand at a place of a line. Answers the place behind it.
pub fn set_known(v: &mut [u64], i: usize, line: &[u8], from: usize) -> usize
    requires { (i < 4) × Whole v.old × ListThere line.now from }
    ensures { KnownPut line.now from i result v.old v.new }
{
    let a = MEMBERS + i * KEPT;
    let b = a + KEPT;
    let known = known_list(line, from, &mut v[a..b]);
    let list = known.list;
    v[COUNTS + i] = list.count as u64;
    v[LARGEST + i] = list.largest;
    known.behind
}
