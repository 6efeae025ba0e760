// What makes a refusal: a fault of a text, or a cause that is of no line.
ghost use Rattle.std.specs.Prelude.{◌≡◌};
ghost use Rattle.book.specs.Faults.{cause_of, refusal_of, of_no_line};

use crate::refusal::{Cause, Refusal};
use grammar::Ground;
use texts::Fault;

impl From<Ground> for Cause {
    ghost from_gives = { λ g c. c ≡ cause_of g };

    fn from(ground: Ground) -> Cause {
        match ground {
            Ground::Syntax => Cause::Syntax,
            Ground::Range => Cause::Range,
            Ground::Measure => Cause::Measure,
            Ground::NotSemiStatic => Cause::NotSemiStatic,
        }
    }
}

impl From<Fault> for Refusal {
    ghost from_gives = { λ f r. r ≡ refusal_of f };

    fn from(fault: Fault) -> Refusal {
        let cause = match fault {
            Fault::TooLong => Cause::TooLong,
            Fault::Mark => Cause::Mark,
            Fault::InLine { ground, .. } => Cause::from(ground),
        };
        Refusal {
            cause,
            line: fault.line(),
        }
    }
}

impl From<Cause> for Refusal {
    ghost from_gives = { λ c r. r ≡ of_no_line c };

    fn from(cause: Cause) -> Refusal {
        Refusal { cause, line: 0 }
    }
}
