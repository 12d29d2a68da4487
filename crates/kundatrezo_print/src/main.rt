// Prints the session of the job on standard input: the deltas of its recorded outcomes in each shot, or its refusal.
#![tactic(auto)]

ghost use Rattle.std.specs.Prelude.{◌≡◌, length};

mod printing;

use crate::printing::print_session;

const STDIN_FILENO: i32 = 0;

const STDOUT_FILENO: i32 = 1;

const STDERR_FILENO: i32 = 2;

// Room for one byte more than an input may have, which tells a longer input.
fn input_buffer() -> [u8; 65537]
    ensures { 65537 ≡ length result }
{
    [0; 65537]
}

// Room for every session: a first line of at most 90 bytes, and 256 lines of at most 95.
fn session_buffer() -> [u8; 24410]
    ensures { 24410 ≡ length result }
{
    [0; 24410]
}

// A program of this language has no exit status, so that a session which could not be written is told on standard error alone.
fn write_session(session: &[u8]) {
    if !io::write_all(STDOUT_FILENO, session) {
        io::write_all(
            STDERR_FILENO,
            b"kundatrezo_print: the session could not be written whole\n",
        );
    }
}

fn main() {
    let mut input = input_buffer();
    let mut session = session_buffer();
    let n = io::read_full(STDIN_FILENO, &mut input);
    let m = print_session(&input[..n], &mut session);
    write_session(&session[..m]);
}
