// The numbers of refusals, by the names that they have in C (include/kundatrezo.h). docs/REFUSALS.md says what each means.
ghost use Rattle.std.specs.Prelude.{◌≡◌};
ghost use Rattle.job.specs.Refusals.{number_of};

pub const LENGTH: u64 = 1;

pub const FORM: u64 = 2;

pub const HEADER: u64 = 3;

pub const QUBIT: u64 = 4;

pub const OPERANDS: u64 = 5;

pub const PERMUTATION: u64 = 6;

pub const CLIFFORD: u64 = 7;

pub const NEXT_ID: u64 = 8;

pub const NOT_RECORDED: u64 = 9;

pub const SHOT: u64 = 10;

pub const PROBABILITY: u64 = 11;

pub const ELEMENTS: u64 = 12;

pub const WORDS: u64 = 13;

pub const DRAWS: u64 = 14;

pub const ROOM: u64 = 15;

pub const NOISE: u64 = 16;

pub const WALK: u64 = 17;

pub const ANNOTATION: u64 = 18;

pub const SIZES: u64 = 19;

pub const CONTROL: u64 = 20;

pub const SIZE: u64 = 21;

pub const SEED: u64 = 22;

pub const EDITION: u64 = 23;

pub const GROUPS: u64 = 24;

pub const SHARES: u64 = 25;

pub const CALLER: u64 = 26;

// Why a test or a call refuses.
#[derive(Clone, Copy, PartialEq, Eq, Debug)]
pub enum Refusal {
    Length,
    Form,
    Header,
    Qubit,
    Operands,
    Permutation,
    Clifford,
    NextId,
    NotRecorded,
    Shot,
    Probability,
    Elements,
    Words,
    Draws,
    Room,
    Noise,
    Walk,
    Annotation,
    Sizes,
    Control,
    Size,
    Seed,
    Edition,
    Groups,
    Shares,
    Caller,
}

impl Refusal {
    // Its number.
    pub fn number(self) -> u64
        ensures { result ≡ number_of self }
    {
        match self {
            Refusal::Length => LENGTH,
            Refusal::Form => FORM,
            Refusal::Header => HEADER,
            Refusal::Qubit => QUBIT,
            Refusal::Operands => OPERANDS,
            Refusal::Permutation => PERMUTATION,
            Refusal::Clifford => CLIFFORD,
            Refusal::NextId => NEXT_ID,
            Refusal::NotRecorded => NOT_RECORDED,
            Refusal::Shot => SHOT,
            Refusal::Probability => PROBABILITY,
            Refusal::Elements => ELEMENTS,
            Refusal::Words => WORDS,
            Refusal::Draws => DRAWS,
            Refusal::Room => ROOM,
            Refusal::Noise => NOISE,
            Refusal::Walk => WALK,
            Refusal::Annotation => ANNOTATION,
            Refusal::Sizes => SIZES,
            Refusal::Control => CONTROL,
            Refusal::Size => SIZE,
            Refusal::Seed => SEED,
            Refusal::Edition => EDITION,
            Refusal::Groups => GROUPS,
            Refusal::Shares => SHARES,
            Refusal::Caller => CALLER,
        }
    }
}
