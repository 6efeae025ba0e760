// Why a call is refused.
ghost use Rattle.std.specs.Prelude.{◌≡◌};
ghost use Rattle.book.specs.Numbers.{number_of};

/// Each case has one number; a failed requirement comes with its own number, the count of steps that show it and whether they add.
#[derive(Clone, Copy)]
pub enum Cause {
    TooLong,
    Mark,
    Syntax,
    Range,
    Measure,
    NotSemiStatic,
    TooShort,
    WrongRegime,
    ActorTrusted,
    AlreadyThere,
    NotThere,
    NoRule,
    Full,
    Circle,
    AdminIsTarget,
    AdminUnassigned,
    NeverRevoked,
    RequirementFails {
        requirement: usize,
        steps: usize,
        adds: bool,
    },
}

/// A cause, and the line of the text that it was found in; 0 where it is of no line.
#[derive(Clone, Copy)]
pub struct Refusal {
    pub cause: Cause,
    pub line: usize,
}

impl Cause {
    /// The number of the refusal.
    pub fn number(self) -> u8
        ensures { result ≡ number_of self }
    {
        match self {
            Cause::TooLong => 1,
            Cause::Mark => 2,
            Cause::Syntax => 3,
            Cause::Range => 4,
            Cause::Measure => 5,
            Cause::NotSemiStatic => 6,
            Cause::TooShort => 7,
            Cause::WrongRegime => 8,
            Cause::ActorTrusted => 9,
            Cause::AlreadyThere => 10,
            Cause::NotThere => 11,
            Cause::NoRule => 12,
            Cause::Full => 13,
            Cause::Circle => 14,
            Cause::AdminIsTarget => 15,
            Cause::AdminUnassigned => 16,
            Cause::NeverRevoked => 17,
            Cause::RequirementFails { .. } => 18,
        }
    }
}
