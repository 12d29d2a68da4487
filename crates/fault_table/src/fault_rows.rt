// Rows of the table, put into lent bytes from the last to the first, each before a place; and how many bytes they take.
ghost use Rattle.std.specs.Prelude.{◌≡◌, List, [], ◌∷◌, ℕ, ◌+◌, ◌≤◌, ◌<◌, length};
ghost use Rattle.text.specs.Number.{decimal};
ghost use Rattle.single_faults.specs.Table.{row_text};
ghost use Rattle.single_faults.specs.Carried.{rows_by};
ghost use Rattle.fault_table.specs.Rows.{row_bytes, rows_bytes, RowsBefore, kept_at};

use line_writer::put_numbers;
use writer::lengths::digits;
use writer::{put_byte, put_bytes};

// ---- Lengths

// The bytes of a row but for the digits of its element.
fn row_rest(line: u64, groups: usize) -> usize
    requires { groups ≤ 16 }
    ensures { result ≡ 18 + length (decimal line) + groups }
{
    18 + digits(line) + groups
}

// The bytes of the rows of so many elements.
pub fn rows_length(line: u64, size: u64, groups: usize) -> usize
    requires { (groups ≤ 16) × (size ≤ 255) }
    ensures { result ≡ rows_bytes groups line size 0 }
{
    let rest = row_rest(line, groups);
    let mut bytes = 0;
    for e in (0..size).rev() {
        bytes += rest + digits(e);
    }
    bytes
}

// ---- Rows

// `line=N el=N groups=`, the characters and LF, before a place; and where that begins.
pub fn put_row(out: &mut [u8], place: usize, line: u64, e: u64, marks: &[u8]) -> usize
    requires { (length marks.now ≤ 16) × (place ≤ length out.old) × (row_bytes (length marks.now) line e ≤ place) }
    ensures { RowsBefore place result (row_text line e marks.now ∷ []) out.old out.new }
{
    let begin = place - (row_rest(line, marks.len()) + digits(e));
    let numbers = [line, e];
    let next = put_numbers(&mut *out, begin, b"line=N el=N groups=", &numbers);
    let end = put_bytes(&mut *out, next, marks);
    put_byte(out, end, b'\n');
    begin
}

// The characters of elements that were met before their noise line are kept, of at most so many elements, each in so many bytes. Those of the last
// element lie at the end.
pub const KEPT_ELEMENTS: usize = 64;

pub const KEPT_BYTES: usize = 16;

// The rows of n elements whose characters are kept.
pub fn put_kept_rows(
    out: &mut [u8],
    place: usize,
    line: u64,
    kept: &[u8],
    n: usize,
    groups: usize,
) -> usize
    requires { (groups ≤ 16) × (n ≤ 64) × (length kept.now ≡ 1024) × (place ≤ length out.old) × (rows_bytes groups line n 0 ≤ place) }
    ensures { RowsBefore place result (rows_by line (kept_at groups n kept.now) n 0) out.old out.new }
{
    let mut begin = place;
    // By number, which the row says.
    for e in (0..n).rev() {
        let a = (KEPT_ELEMENTS - n + e) * KEPT_BYTES;
        let end = a + groups;
        begin = put_row(&mut *out, begin, line, e as u64, &kept[a..end]);
    }
    begin
}
