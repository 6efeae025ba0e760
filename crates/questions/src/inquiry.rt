// A question, with its kind. Where one is had, a side of it is static and it names few enough users, all in range, with no further check.
ghost use Rattle.meaning.specs.Sets.{Askable};
ghost use Rattle.tables.specs.View.{stored_question};

use meaning::Kind;
use trees::UserTree;

#[derive(Clone, Copy)]
pub struct Inquiry {
    pub kind: Kind,
    pub larger: UserTree,
    pub smaller: UserTree,
    ghost askable: { (Askable (stored_question larger.nodes smaller.nodes) → ⊥) → ⊥ },
}
