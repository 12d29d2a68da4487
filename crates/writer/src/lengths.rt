// How long texts are, for what is counted and not written.
ghost use Rattle.std.specs.Prelude.{◌≡◌, ◌^◌, ◌<◌, length};
ghost use Rattle.text.specs.Number.{decimal};
ghost use Rattle.text.specs.List.{commas, list_text};

// How many digits a number has.
pub fn digits(n: u64) -> usize
    ensures { result ≡ length (decimal n) }
{
    let mut count = 1;
    let mut rest = n;
    // A while: how many digits a number has is what is asked.
    while 9 < rest {
        rest /= 10;
        count += 1;
    }
    count
}

// How many bytes a list with commas has, `-` when empty.
pub fn list_length(l: &[u64]) -> usize
    requires { length (commas l.now) < 2 ^ 64 }
    ensures { result ≡ length (list_text l.now) }
{
    if l.len() == 0 {
        return 1;
    }
    let mut count = 0;
    for &n in l {
        count += digits(n) + 1;
    }
    count - 1
}
