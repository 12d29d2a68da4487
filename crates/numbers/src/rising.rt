// Numbers that rise.
ghost use Rattle.std.specs.Prelude.{◌≡◌};
ghost use Rattle.text.specs.List.{is_rising_of};

// Whether numbers rise strictly.
pub fn is_rising(numbers: &[u64]) -> bool
    ensures { result ≡ is_rising_of numbers.now }
{
    for i in 1..numbers.len() {
        if numbers[i] <= numbers[i - 1] {
            return false;
        }
    }
    true
}
