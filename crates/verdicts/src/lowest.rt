// A run that takes all that can be taken.
ghost use Rattle.std.specs.Prelude.{◌+◌, ◌*◌, ◌<◌, ◌≤◌, length};
ghost use Rattle.meaning.specs.Measures.{roles, list_places};
ghost use Rattle.deciding.specs.Slots.{slots_of};
ghost use Rattle.tables.specs.View.{policy_of, state_of};
ghost use Rattle.verdicts.specs.PlanFits.{CaseFits};
ghost use Rattle.verdicts.specs.AllTaken.{TakingFound, AllTaken};

use crate::case::Case;
use crate::revoking::{holder, revoker};
use deciding::RunStep;
use meaning::ROLES;
use rbac::Role;

impl Case<'_> {
    // How the role is taken from the user of the slot, where it is assigned to that user and a revoke rule has it as target.
    fn taken(&self, slot: usize, role: Role) -> Option<RunStep>
        requires plan_fits { CaseFits self.now }
        requires slot { slot < length (slots_of self.now.plan.now) }
        ensures { TakingFound (policy_of self.now.board.now.tables) (state_of self.now.board.now.tables) (slots_of self.now.plan.now) slot role.number result }
    {
        let slots = self.slots();
        let from = slots[slot];
        if !from.roles.contains(role) {
            return None;
        }
        let by = revoker(&self.board.tables, role)?;
        Some(RunStep {
            actor: slots[holder(slots, by.admin)].user,
            user: from.user,
            role,
            rule: by.rule,
        })
    }

    // Lists the steps that take all that can be taken, and returns their number. A fact is a slot and a role, so the facts are a plain range; the list is lent, so a step is put at the first place that has none.
    pub(crate) fn take_all(&self, list: &mut [RunStep]) -> usize
        requires plan_fits { CaseFits self.now }
        requires room { list_places ≤ length list.old }
        ensures { AllTaken (policy_of self.now.board.now.tables) (state_of self.now.board.now.tables) (slots_of self.now.plan.now) (roles * length (slots_of self.now.plan.now)) result list.new }
    {
        let mut n = 0;
        for fact in 0..ROLES * self.slots().len() {
            if let Some(step) = self.taken(fact / ROLES, Role::modulo(fact)) {
                list[n] = step;
                n += 1;
            }
        }
        n
    }
}
