// A record of a list of cases: its values, and the parts of a case that they measure.
ghost use Rattle.std.specs.Prelude.{◌≡◌, ◌↔◌, ◌≤◌, ◌<◌, length, take, drop, IsOk, OnOk};
ghost use Rattle.template.specs.Values.{Whole, held_number, held_member};

use crate::compare::{Difference, same, same_front};
use crate::part_end;
use template::read_all;
use template::values::{VALUE_WORDS, Values, blank};
use writer::TextAnswer;

// The values of a record that names a call. Its first numbers are what the call must answer, its first list measures the bytes of a case, and its
// second list the words.
#[derive(Clone, Copy)]
pub struct Record {
    words: [u64; VALUE_WORDS],
    ghost whole: { Whole words },
}

impl Record {
    // Not at the top: the struct's fact imports what stands there, and RecordOf imports the struct.
    ghost use Rattle.replay.specs.Records.{RecordOf};

    // The record that a line is by a template.
    pub fn read(line: &[u8], template: &[u8]) -> Option<Record>
        ensures { RecordOf line.now template.now result }
    {
        let mut words = blank();
        if !read_all(line, template, &mut words) {
            return None;
        }
        Some(Record { words })
    }

    pub fn number(&self, i: usize) -> u64
        requires { i < 4 }
        ensures { result ≡ held_number self.now.words i }
    {
        Values { words: &self.words }.number(i)
    }

    // Member j of a list.
    pub fn member(&self, list: usize, j: usize) -> u64
        requires { (list < 4) × (j < 31) }
        ensures { result ≡ held_member self.now.words list j }
    {
        Values { words: &self.words }.member(list, j)
    }

    // The bytes up to the end of a part, and those behind it: all and none where they are too few.
    pub fn part<'a>(&self, j: usize, bytes: &'a [u8]) -> (&'a [u8], &'a [u8])
        requires { j < 31 }
        ensures { (result.0.now ≡ take (held_member self.now.words 0 j) bytes.now) × (result.1.now ≡ drop (held_member self.now.words 0 j) bytes.now) }
    {
        bytes.split_at(part_end(0, self.member(0, j), bytes.len()))
    }

    // Where the list of words with a number begins; at the end of the words where they are too few.
    fn list_start(&self, number: usize, whole: usize) -> usize
        requires { number < 31 }
        ensures { result ≤ whole }
    {
        let mut at = 0;
        for i in 0..number {
            at = part_end(at, self.member(1, i), whole);
        }
        at
    }

    // The list of words with a number.
    pub fn list<'a>(&self, number: usize, words: &'a [u64]) -> &'a [u64]
        requires { number < 31 }
        ensures { length result.now ≤ length words.now }
    {
        let a = self.list_start(number, words.len());
        let e = part_end(a, self.member(1, number), words.len());
        &words[a..e]
    }

    // That an answer, with its count or byte figure, is what the first numbers say.
    pub fn same_answer(&self, number: u64, line: u64, figure: u64) -> Result<(), Difference>
        ensures { IsOk result ↔ ((number ≡ held_number self.now.words 0) × (line ≡ held_number self.now.words 1) × (figure ≡ held_number self.now.words 2)) }
    {
        same(number, self.number(0))?;
        same(line, self.number(1))?;
        same(figure, self.number(2))
    }

    // That a call that writes text answers and leaves what it must.
    pub fn same_text(&self, r: TextAnswer, out: &[u8], text: &[u8]) -> Result<(), Difference>
        ensures { OnOk result ((r.answer.number ≡ held_number self.now.words 0) × (r.answer.line ≡ held_number self.now.words 1) × (r.figure ≡ held_number self.now.words 2) × (take (length text.now) out.now ≡ text.now)) }
    {
        let a = r.answer;
        self.same_answer(a.number, a.line, r.figure)?;
        same_front(out, text)
    }
}
