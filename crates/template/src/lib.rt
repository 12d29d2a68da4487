// A line by its template: `op=i shot=N x=L z=L`. What is read goes into lent words (module `values`).
#![tactic(auto)]

ghost use Rattle.std.specs.Prelude.{◌≡◌, true, false, List, [], ◌∷◌, ℕ, ◌+◌, ◌≤◌, length, drop, IfSome};
ghost use Rattle.text.specs.Bytes.{space, until};
ghost use Rattle.text.specs.Template.{a_number, a_list, value_of, is_letter_of};
ghost use Rattle.numbers.specs.Read.{read, ListRead};
ghost use Rattle.template.specs.Values.{Whole};
ghost use Rattle.template.specs.Fields.{list_by_of, number_letter, list_letter, StoresAs, started, is_plain, ReadNext, ReadAs};

pub mod values;

use numbers::lists::{Listed, list_by, list_c, list_l, list_q};
use numbers::pieces::{find, find_far};
use numbers::{bit, hex16, number};
use values::{COUNTS, KEPT, LARGEST, MAX_SLOTS, MEMBERS};

// How far a line was read: up to which byte, and how many numbers and lists it had.
#[derive(Clone, Copy)]
pub struct Progress {
    pub at: usize,
    pub numbers: usize,
    pub lists: usize,
}

// ---- One value more. Each puts it behind those that the line had, and answers `None` where the bytes are no such value, or no slot is left.

fn put_number(number: Option<u64>, p: Progress, fields: &mut [u64]) -> Option<Progress>
    requires { Whole fields.old }
    ensures { StoresAs 1 0 (a_number (read number)) p result fields.old fields.new }
{
    let n = number?;
    if MAX_SLOTS <= p.numbers {
        return None;
    }
    fields[p.numbers] = n;
    Some(Progress {
        at: p.at,
        numbers: p.numbers + 1,
        lists: p.lists,
    })
}

// The pieces of a table are hexadecimal.
const HEX: bool = true;

// A list by its letter: L, Q, T or C.
fn list(letter: u8, bytes: &[u8], out: &mut [u64]) -> Option<Listed>
    ensures { ListRead (list_by_of letter bytes.now) result out.old out.new }
{
    match letter {
        b'L' => list_l(bytes, out),
        b'Q' => list_q(bytes, out),
        b'T' => list_by(bytes, HEX, out),
        _ => list_c(bytes, out),
    }
}

fn put_list(letter: u8, bytes: &[u8], p: Progress, fields: &mut [u64]) -> Option<Progress>
    requires { Whole fields.old }
    ensures { StoresAs 0 1 (a_list (list_by_of letter bytes.now)) p result fields.old fields.new }
{
    if MAX_SLOTS <= p.lists {
        return None;
    }
    let from = MEMBERS + p.lists * KEPT;
    let to = from + KEPT;
    let listed = list(letter, bytes, &mut fields[from..to])?;
    fields[COUNTS + p.lists] = listed.count as u64;
    fields[LARGEST + p.lists] = listed.largest;
    Some(Progress {
        at: p.at,
        numbers: p.numbers,
        lists: p.lists + 1,
    })
}

// What the bytes are by a letter of a template.
fn put_value(letter: u8, bytes: &[u8], p: Progress, fields: &mut [u64]) -> Option<Progress>
    requires { Whole fields.old }
    ensures { StoresAs (number_letter letter) (list_letter letter) (value_of letter bytes.now) p result fields.old fields.new }
{
    match letter {
        b'N' => put_number(number(bytes), p, fields),
        b'H' => put_number(hex16(bytes), p, fields),
        b'B' => put_number(bit(bytes), p, fields),
        b'L' => put_list(letter, bytes, p, fields),
        b'Q' => put_list(letter, bytes, p, fields),
        b'T' => put_list(letter, bytes, p, fields),
        b'C' => put_list(letter, bytes, p, fields),
        _ => None,
    }
}

// Whether a byte of a template is a letter for a value.
pub fn is_letter(byte: u8) -> bool
    ensures { result ≡ is_letter_of byte }
{
    b'A' <= byte && byte <= b'Z'
}

// ---- A line by the parts of its template

// Nothing of a line was read.
pub fn start() -> Progress
    ensures { result ≡ started }
{
    Progress {
        at: 0,
        numbers: 0,
        lists: 0,
    }
}

// The line read on by bytes that stand for themselves. Where they are written out in a call, they are compared without a loop.
pub fn literal(line: &[u8], p: Progress, text: &[u8]) -> Option<Progress>
    requires { (p.at ≤ length line.now) × (is_plain text.now ≡ true) }
    ensures by_index { (fields : List ℕ) → ReadNext line.now text.now p result fields fields }
    ensures at_in_bounds { IfSome result (λ q. q.at ≤ length line.now) }
{
    let at = p.at;
    if line.len() - at < text.len() {
        return None;
    }
    for i in 0..text.len() {
        if line[at + i] != text[i] {
            return None;
        }
    }
    Some(Progress {
        at: at + text.len(),
        numbers: p.numbers,
        lists: p.lists,
    })
}

// The line read on by a letter for a value, which goes up to the next space. It is part of its two callers, which are called for each value of a line.
#[inline(always)]
fn value_to(
    line: &[u8],
    p: Progress,
    end: usize,
    letter: u8,
    fields: &mut [u64],
) -> Option<Progress>
    requires { (p.at ≤ length line.now) × (end ≡ p.at + until space (drop p.at line.now)) × (end ≤ length line.now) × (is_letter_of letter ≡ true) × Whole fields.old }
    ensures { ReadNext line.now (letter ∷ []) p result fields.old fields.new }
{
    let behind = Progress {
        at: end,
        numbers: p.numbers,
        lists: p.lists,
    };
    put_value(letter, &line[p.at..end], behind, fields)
}

// The line read on by a letter for a value. It is part of its callers, so that what was read so far stays in registers.
#[inline(always)]
pub fn value(line: &[u8], p: Progress, letter: u8, fields: &mut [u64]) -> Option<Progress>
    requires { (p.at ≤ length line.now) × (is_letter_of letter ≡ true) × Whole fields.old }
    ensures read_next { ReadNext line.now (letter ∷ []) p result fields.old fields.new }
    ensures at_in_bounds { IfSome result (λ q. q.at ≤ length line.now) }
{
    value_to(line, p, find(line, p.at, b' '), letter, fields)
}

// The same for a value that is likely long.
pub fn far_value(line: &[u8], p: Progress, letter: u8, fields: &mut [u64]) -> Option<Progress>
    requires { (p.at ≤ length line.now) × (is_letter_of letter ≡ true) × Whole fields.old }
    ensures read_next { ReadNext line.now (letter ∷ []) p result fields.old fields.new }
    ensures at_in_bounds { IfSome result (λ q. q.at ≤ length line.now) }
{
    value_to(line, p, find_far(line, p.at, b' '), letter, fields)
}

// ---- A line by its template

// A line read on by one byte of a template.
fn next_byte(line: &[u8], p: Progress, byte: u8, fields: &mut [u64]) -> Option<Progress>
    requires { (p.at ≤ length line.now) × Whole fields.old }
    ensures { ReadNext line.now (byte ∷ []) p result fields.old fields.new }
{
    if is_letter(byte) {
        return value(line, p, byte, fields);
    }
    if p.at == line.len() {
        return None;
    }
    if line[p.at] != byte {
        return None;
    }
    Some(Progress { at: p.at + 1, ..p })
}

// A line read on by a template.
pub fn read_on(line: &[u8], template: &[u8], from: Progress, fields: &mut [u64]) -> Option<Progress>
    requires { (from.at ≤ length line.now) × Whole fields.old }
    ensures { ReadNext line.now template.now from result fields.old fields.new }
{
    let mut p = from;
    for &byte in template {
        p = next_byte(line, p, byte, &mut *fields)?;
    }
    Some(p)
}

// A line read by a template to its end.
pub fn read_all(line: &[u8], template: &[u8], fields: &mut [u64]) -> bool
    requires { Whole fields.old }
    ensures { ReadAs line.now template.now result fields.new }
{
    match read_on(line, template, start(), fields) {
        Some(p) => p.at == line.len(),
        None => false,
    }
}
