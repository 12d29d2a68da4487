// A line by its template, put as `template` reads it.
#![tactic(auto)]

ghost use Rattle.std.specs.Prelude.{◌≡◌, [], ◌+◌, ◌^◌, ◌<◌, length};
ghost use Rattle.text.specs.Template.{Value, value_text, line_text};
ghost use Rattle.writer.specs.Placed.{Puts};
ghost use Rattle.line_writer.specs.Line.{is_list_of, values_in, Lent};

use template::is_letter;
use template::values::KEPT;
use writer::{put_byte, put_hex, put_list, put_number};

pub mod new_lines;

// Whether a letter stands for a list of numbers: L, Q, C.
fn is_list(t: u8) -> bool
    ensures { result ≡ is_list_of t }
{
    match t {
        b'L' => true,
        b'Q' => true,
        b'C' => true,
        _ => false,
    }
}

// A number by its letter: H, else in decimal.
fn put_number_by(out: &mut [u8], at: usize, t: u8, n: u64) -> usize
    requires { at + length (value_text t (Value.number n)) < 2 ^ 64 }
    ensures { Puts at (value_text t (Value.number n)) out.old out.new result }
{
    if t == b'H' {
        return put_hex(out, at, n);
    }
    put_number(out, at, n)
}

// A line of a template with these values: the numbers in order, and the lists, each with its count and, 31 words a list, its members.
// Counts and members are two slices, as the values of a line lie, so that an element is put from where it is kept.
pub fn put_line(
    out: &mut [u8],
    at: usize,
    template: &[u8],
    numbers: &[u64],
    counts: &[u64],
    members: &[u64],
) -> usize
    requires { Lent template.now numbers.now counts.now members.now × (at + length (line_text template.now (values_in template.now numbers.now counts.now members.now)) < 2 ^ 64) }
    ensures { Puts at (line_text template.now (values_in template.now numbers.now counts.now members.now)) out.old out.new result }
{
    let mut next = at;
    let mut n = 0;
    let mut l = 0;
    for &t in template {
        if !is_letter(t) {
            next = put_byte(&mut *out, next, t);
            continue;
        }
        if is_list(t) {
            let start = l * KEPT;
            let end = start + counts[l] as usize;
            next = put_list(&mut *out, next, &members[start..end]);
            l += 1;
            continue;
        }
        next = put_number_by(&mut *out, next, t, numbers[n]);
        n += 1;
    }
    next
}

// A line of a template without lists.
pub fn put_numbers(out: &mut [u8], at: usize, template: &[u8], numbers: &[u64]) -> usize
    requires { Lent template.now numbers.now [] [] × (at + length (line_text template.now (values_in template.now numbers.now [] [])) < 2 ^ 64) }
    ensures { Puts at (line_text template.now (values_in template.now numbers.now [] [])) out.old out.new result }
{
    let none = &numbers[..0];
    put_line(out, at, template, numbers, none, none)
}
