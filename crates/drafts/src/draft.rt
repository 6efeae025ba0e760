// A draft of a board: nothing in it is out of order, but it is not yet weighed as a whole.
ghost use Rattle.std.specs.Prelude.{◌≡◌};
ghost use Rattle.meaning.specs.Rules.{aar};
ghost use Rattle.meaning.specs.Terms.{regime_of};
ghost use Rattle.book.specs.Book.{blank as empty_book};
ghost use Rattle.drafts.specs.View.{book_of};
ghost use Rattle.drafts.specs.Neat.{Neat};
ghost use Rattle.drafts.specs.Weighed.{Kept, Weighs};

use book::Cause;
use meaning::Regime;
use soundness::{Valid, admins_are_assigned, admins_are_no_targets, assignable_is_revocable};
use tables::Tables;

#[derive(Clone, Copy)]
pub struct Draft {
    pub tables: Tables,
    ghost neat: { (Neat tables → ⊥) → ⊥ },
}

impl Draft {
    /// A draft with a regime and nothing else.
    pub fn blank(regime: Regime) -> Draft
        ensures { book_of result.tables ≡ empty_book (regime_of regime) }
    {
        let mut tables = Tables::new();
        tables.regime = regime;
        Draft { tables }
    }

    /// The same tables, sealed, where the regime's properties hold; else the cause of the smallest number among those that are broken. The draft stays as it is.
    pub fn weighed(&self) -> Result<Valid, Cause>
        ensures { Weighs self.now.tables result }
    {
        match self.tables.regime {
            Regime::Aatu => {}
            Regime::Aar => keeps_properties(&self.tables)?,
        }
        let tables = self.tables;
        Ok(Valid { tables })
    }
}

// Whether the three properties of aar hold; if not, the first that is broken.
fn keeps_properties(tables: &Tables) -> Result<(), Cause>
    requires { regime_of tables.now.regime ≡ aar }
    ensures { Kept tables.now result }
{
    if !admins_are_no_targets(tables) {
        return Err(Cause::AdminIsTarget);
    }
    if !admins_are_assigned(tables) {
        return Err(Cause::AdminUnassigned);
    }
    if !assignable_is_revocable(tables) {
        return Err(Cause::NeverRevoked);
    }
    Ok(())
}
