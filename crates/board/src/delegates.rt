// The delegates' calls: one pair is added or removed where a rule permits it. What they do keeps every standing requirement, so nothing is weighed again.
ghost use Rattle.std.specs.Prelude.{◌≡◌, [], OnErr};
ghost use Rattle.tables.specs.View.{policy_of, state_of};
ghost use Rattle.drafts.specs.View.{book_of};
ghost use Rattle.book.specs.Calls.{adding, removing};
ghost use Rattle.board.specs.View.{says};
ghost use Rattle.book.specs.Outcomes.{Outcome};
ghost use Rattle.board.specs.Answers.{done_by};
ghost use Rattle.board.specs.Delegates.{AddingJudged, RemovingJudged};

use crate::board::Board;
use book::{Cause, Refusal};
use live::{may_add, may_remove};
use planning::is_trusted;
use rbac::{Role, User};
use soundness::Valid;

// Whether the actor may add the role to the user, who has it not; rows are put aside. The numbers are read here and below, since a number that was read is in range.
fn judge_adding(valid: &Valid, actor: User, user: User, role: Role) -> Result<(), Cause>
    ensures { AddingJudged (book_of valid.now.tables) actor.number user.number role.number result }
{
    let _inside = (actor.number(), user.number(), role.number());
    if is_trusted(&valid.tables, actor) {
        return Err(Cause::ActorTrusted);
    }
    if valid.tables.assigned(user).contains(role) {
        return Err(Cause::AlreadyThere);
    }
    if !may_add(valid, actor, user, role) {
        return Err(Cause::NoRule);
    }
    Ok(())
}

// Whether the actor may take the role from the user, who has it.
fn judge_removing(valid: &Valid, actor: User, user: User, role: Role) -> Result<(), Cause>
    ensures { RemovingJudged (book_of valid.now.tables) actor.number user.number role.number result }
{
    let _inside = (actor.number(), user.number(), role.number());
    if is_trusted(&valid.tables, actor) {
        return Err(Cause::ActorTrusted);
    }
    if !valid.tables.assigned(user).contains(role) {
        return Err(Cause::NotThere);
    }
    if !may_remove(valid, actor, user, role) {
        return Err(Cause::NoRule);
    }
    Ok(())
}

impl Board {
    /// The actor adds the role to the user: done, or refused with 9, 10, 12 or 13 and the board as it was (docs/REFUSALS.md).
    pub fn add(&mut self, actor: User, user: User, role: Role) -> Result<(), Refusal>
        ensures outcome { Outcome (says self.old) (adding actor.number user.number role.number) (done_by result []) (says self.new) }
        ensures same { OnErr result (self.new ≡ self.old) }
    {
        judge_adding(&self.valid, actor, user, role)?;
        let mut tables = self.valid.tables;
        tables.assign(user, role).or(Err(Cause::Full))?;
        let valid = Valid { tables };
        *self = Board { valid };
        Ok(())
    }

    /// The actor removes the role from the user: done, or refused with 9, 11 or 12 and the board as it was (docs/REFUSALS.md).
    pub fn remove(&mut self, actor: User, user: User, role: Role) -> Result<(), Refusal>
        ensures outcome { Outcome (says self.old) (removing actor.number user.number role.number) (done_by result []) (says self.new) }
        ensures same { OnErr result (self.new ≡ self.old) }
    {
        judge_removing(&self.valid, actor, user, role)?;
        let mut tables = self.valid.tables;
        tables.unassign(user, role);
        let valid = Valid { tables };
        *self = Board { valid };
        Ok(())
    }
}
