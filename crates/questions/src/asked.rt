// Questions made, by a check.
ghost use Rattle.std.specs.Option.{MatchOption};
ghost use Rattle.meaning.specs.Sets.{Static, Askable};
ghost use Rattle.meaning.specs.Terms.{side};
ghost use Rattle.questions.specs.Inquired.{inquired, Posable, Asks};
ghost use Rattle.tables.specs.View.{stored_question};

use crate::inquiry::Inquiry;
use crate::naming::named;
use crate::statics::is_static;
use meaning::{Kind, QUESTION_OPERANDS, Side};
use trees::{Nodes, UserTree};

impl Inquiry {
    // The question of these two sets; none where it is not semi-static or names too many users.
    fn of_sets(kind: Kind, larger: UserTree, smaller: UserTree) -> Option<Inquiry>
        ensures { MatchOption result (Askable (stored_question larger.nodes smaller.nodes) → ⊥) (Asks kind larger.nodes smaller.nodes) }
    {
        let semi_static = is_static(&larger) || is_static(&smaller);
        let few = named(&larger) + named(&smaller) <= QUESTION_OPERANDS;
        if semi_static && few {
            Some(Inquiry {
                kind,
                larger,
                smaller,
            })
        } else {
            None
        }
    }

    /// The question of the two sets whose nodes these are; none where they are no sets', or it cannot be asked.
    pub fn new(kind: Kind, larger: Nodes, smaller: Nodes) -> Option<Inquiry>
        ensures { MatchOption result (Posable larger smaller → ⊥) (Asks kind larger smaller) }
    {
        Inquiry::of_sets(kind, UserTree::new(larger)?, UserTree::new(smaller)?)
    }

    /// A side that holds no role and no permission.
    pub fn fixed_side(&self) -> Side
        ensures { Static (side result (inquired self.now)) }
    {
        if is_static(&self.larger) {
            Side::Larger
        } else {
            Side::Smaller
        }
    }
}
