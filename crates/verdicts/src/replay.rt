// A run made again from the start, up to the first state that shows what is sought.
ghost use Rattle.std.specs.Prelude.{◌≡◌, ◌+◌, ◌<◌, ◌≤◌, false, not, T, length};
ghost use Rattle.meaning.specs.Measures.{tracked_users};
ghost use Rattle.meaning.specs.Membership.{State};
ghost use Rattle.meaning.specs.Runs.{after};
ghost use Rattle.rbac.specs.Roles.{roles_of};
ghost use Rattle.questions.specs.Inquired.{inquired};
ghost use Rattle.tables.specs.View.{policy_of, state_of};
ghost use Rattle.deciding.specs.Slots.{slots_of};
ghost use Rattle.planning.specs.Slotted.{has_slot};
ghost use Rattle.verdicts.specs.Looking.{failing as failing_count, WordsSay, change_of, one, turned, FoundAt};
ghost use Rattle.verdicts.specs.PlanFits.{CaseFits, AllSlotted};

use crate::case::{Case, slot_of};
use deciding::RunStep;
use rbac::{Role, RoleSet};

// The roles with one more, or with one less. A closure in its place would be no plainer: what a run says is told by whether it adds.
fn turn(roles: RoleSet, role: Role, adds: bool) -> RoleSet
    ensures { roles_of result ≡ turned adds (roles_of roles) role.number }
{
    if adds {
        return roles.insert(role);
    }
    roles.remove(role)
}

// The count of failing slots after one of them changed.
fn recount(fails: usize, was: bool, is: bool) -> usize
    requires some { was ≡ false → 0 < fails }
    requires few { fails ≤ tracked_users }
    ensures { result + one (not was) ≡ fails + one (not is) }
{
    match (was, is) {
        (true, false) => fails + 1,
        (false, true) => fails - 1,
        _ => fails,
    }
}

impl Case<'_> {
    // Makes one step in the work table, and counts the failing slots anew.
    fn make(&self, step: RunStep, adds: bool, work: &mut [u64], fails: usize) -> usize
        requires room { tracked_users ≤ length work.old }
        requires slotted { T (has_slot (slots_of self.now.plan.now) step.user.number) }
        requires plan_fits { CaseFits self.now }
        requires before { fails ≡ failing_count self.now.plan.now.masks.seniors self.now.plan.now.masks.givers (inquired self.now.asked.now) (slots_of self.now.plan.now) work.old }
        ensures count { result ≡ failing_count self.now.plan.now.masks.seniors self.now.plan.now.masks.givers (inquired self.now.asked.now) (slots_of self.now.plan.now) work.new }
        ensures says { (t : State) → WordsSay (slots_of self.now.plan.now) work.old t → WordsSay (slots_of self.now.plan.now) work.new (after (change_of adds step) t) }
        ensures room { length work.new ≡ length work.old }
    {
        let slot = slot_of(self.slots(), step.user);
        let roles = RoleSet::from_word(work[slot]);
        let next = turn(roles, step.role, adds);
        let was = self.passes(step.user, roles);
        let is = self.passes(step.user, next);
        work[slot] = next.word();
        recount(fails, was, is)
    }

    // How many steps of the run lead to the first state that shows what is sought, if one does.
    pub(crate) fn first_shown(
        &self,
        run: &[RunStep],
        adds: bool,
        sought: bool,
        work: &mut [u64],
    ) -> Option<usize>
        requires room { tracked_users ≤ length work.old }
        requires slotted { AllSlotted (slots_of self.now.plan.now) run.now }
        requires plan_fits { CaseFits self.now }
        requires start { WordsSay (slots_of self.now.plan.now) work.old (state_of self.now.board.now.tables) }
        ensures { FoundAt sought (policy_of self.now.board.now.tables) (state_of self.now.board.now.tables) (inquired self.now.asked.now) adds run.now result }
    {
        let mut fails = self.failing(work);
        for (made, step) in run.iter().enumerate() {
            if (fails == 0) == sought {
                return Some(made);
            }
            fails = self.make(*step, adds, work, fails);
        }
        ((fails == 0) == sought).then_some(run.len())
    }
}
