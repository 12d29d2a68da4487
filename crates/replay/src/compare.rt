// What calls answered and left, compared with what they must.
ghost use Rattle.std.specs.Prelude.{◌≡◌, ◌↔◌, ◌+◌, ◌≤◌, ◌<◌, ◌^◌, IsOk, OnOk};
ghost use Rattle.replay.specs.Front.{BeginsAs};

// Where this is printed.
const STDOUT_FILENO: i32 = 1;

// How many cases there were, and how many of them differ.
#[derive(Clone, Copy)]
pub struct Tally {
    pub cases: u64,
    pub differ: u64,
}

impl Tally {
    // One case more.
    pub fn counted(self, same: bool) -> Tally
        requires { (self.differ ≤ self.cases) × (self.cases + 1 < 2 ^ 64) }
        ensures { (result.cases ≡ self.cases + 1) × (result.differ ≤ result.cases) }
    {
        let cases = self.cases + 1;
        if same {
            return Tally { cases, ..self };
        }
        Tally {
            cases,
            differ: self.differ + 1,
        }
    }

    pub fn print(self) {
        io::print_decimal(STDOUT_FILENO, self.cases);
        io::write_all(STDOUT_FILENO, b" cases, ");
        io::print_decimal(STDOUT_FILENO, self.differ);
        io::write_all(STDOUT_FILENO, b" differ\n");
    }
}

// The first difference of a case: its record names no case, or a number is not what it must be.
#[derive(Clone, Copy)]
pub enum Difference {
    Unreadable,
    Number { found: u64, must: u64 },
}

impl Difference {
    // Prints the difference of the case whose record is at a place.
    pub fn print(self, at: usize) {
        match self {
            Difference::Unreadable => {
                io::write_all(STDOUT_FILENO, b"no case by the record at byte ");
                io::print_decimal(STDOUT_FILENO, at as u64);
                io::write_all(STDOUT_FILENO, b"\n");
            }
            Difference::Number { found, must } => {
                io::write_all(STDOUT_FILENO, b"record at byte ");
                io::print_decimal(STDOUT_FILENO, at as u64);
                io::write_all(STDOUT_FILENO, b": ");
                io::print_decimal(STDOUT_FILENO, found);
                io::write_all(STDOUT_FILENO, b", not ");
                io::print_decimal(STDOUT_FILENO, must);
                io::write_all(STDOUT_FILENO, b"\n");
            }
        }
    }
}

// That a number is what it must be.
pub fn same(found: u64, must: u64) -> Result<(), Difference>
    ensures { IsOk result ↔ (found ≡ must) }
{
    if found != must {
        return Err(Difference::Number { found, must });
    }
    Ok(())
}

// That words or bytes are, from their first on, those that they must be. A case that has more of them than fit is none.
pub fn same_front<T: Copy + Into<u64>>(found: &[T], must: &[T]) -> Result<(), Difference>
    ensures { OnOk result (BeginsAs T.converts found.now must.now) }
{
    if found.len() < must.len() {
        return Err(Difference::Unreadable);
    }
    for (&a, &b) in found.iter().zip(must) {
        same(a.into(), b.into())?;
    }
    Ok(())
}
