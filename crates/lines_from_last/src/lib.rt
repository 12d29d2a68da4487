// A job's lines from the last to the first: where the line starts whose end is known.
#![tactic(auto)]

ghost use Rattle.std.specs.Prelude.{◌≡◌, false, ◌+◌, ◌≤◌, ◌<◌, length, get_or};
ghost use Rattle.text.specs.Bytes.{LF};
ghost use Rattle.text.specs.Written.{Free};
ghost use Rattle.instructions.specs.Reading.{line_at};
ghost use Rattle.lines_from_last.specs.Line.{LineBefore, NoLf};

// As many bytes make a block.
const BLOCK: usize = 8;

// Whether there is an LF in a block. All are compared, whatever the first ones are, so that the compiler compares them at once.
fn has_lf(job: &[u8], from: usize) -> bool
    requires { from + 8 ≤ length job.now }
    ensures { result ≡ false → NoLf job.now from (from + 8) }
{
    let mut found = false;
    for k in 0..BLOCK {
        found = found | (job[from + k] == b'\n');
    }
    found
}

// Back from e over blocks without LF.
fn skip_blocks(job: &[u8], e: usize) -> usize
    requires { e < length job.now }
    ensures { (result ≤ e) × Free LF (line_at job.now result e) }
{
    let mut i = e;
    // A while: the places go down by a block in a turn.
    while BLOCK <= i {
        if has_lf(job, i - BLOCK) {
            return i;
        }
        i -= BLOCK;
    }
    i
}

// The place where the line starts whose LF is at e. Blocks are skipped first; then two bytes are looked at in a turn.
pub fn line_start(job: &[u8], e: usize) -> usize
    requires { (e < length job.now) × (get_or job.now e 0 ≡ LF) }
    ensures { LineBefore job.now e result }
{
    let mut i = skip_blocks(job, e);
    // A while: the places go down by two in a turn.
    while 1 < i {
        if job[i - 1] == b'\n' {
            return i;
        }
        if job[i - 2] == b'\n' {
            return i - 1;
        }
        i -= 2;
    }
    if i == 0 {
        return 0;
    }
    if job[0] == b'\n' {
        return 1;
    }
    0
}
