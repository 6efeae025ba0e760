// A question of a board, at the slots of its plan.
ghost use Rattle.std.specs.Prelude.{◌≡◌, ℕ, ◌<◌, length};
ghost use Rattle.rbac.specs.Roles.{roles_of};
ghost use Rattle.questions.specs.Inquired.{inquired};
ghost use Rattle.deciding.specs.Slots.{slots_of, slot_user};
ghost use Rattle.verdicts.specs.Looking.{passed, failing as failing_count};

use deciding::{Plan, Slot, in_set};
use questions::Inquiry;
use rbac::{RoleSet, User};
use soundness::Valid;
use words::word;

// What every part of the deciding is lent. That the plan is made for this question of this board is no proposition to the checker,
// since it names the slot of the hire, which no double negation gives back;
// so it cannot be a fact of the type, and the parts that need it ask for it.
#[derive(Clone, Copy)]
pub(crate) struct Case<'a> {
    pub board: &'a Valid,
    pub asked: &'a Inquiry,
    pub plan: &'a Plan,
}

impl<'a> Case<'a> {
    pub(crate) fn slots(&self) -> &'a [Slot]
        ensures { result.now ≡ slots_of self.now.plan.now }
    {
        self.plan.slots.entries()
    }

    // Whether the user, with these roles, is not in the smaller set, or is in the larger.
    pub(crate) fn passes(&self, user: User, roles: RoleSet) -> bool
        ensures { result ≡ passed self.now.plan.now.masks.seniors self.now.plan.now.masks.givers (inquired self.now.asked.now) user (roles_of roles) }
    {
        let masks = &self.plan.masks;
        if in_set(&self.asked.smaller, masks, user, roles) {
            return in_set(&self.asked.larger, masks, user, roles);
        }
        true
    }

    // How many slots do not pass.
    pub(crate) fn failing(&self, work: &[u64]) -> usize
        ensures { result ≡ failing_count self.now.plan.now.masks.seniors self.now.plan.now.masks.givers (inquired self.now.asked.now) (slots_of self.now.plan.now) work.now }
    {
        let mut fails = 0;
        for (i, slot) in self.slots().iter().enumerate() {
            if !self.passes(slot.user, RoleSet::from_word(word(work, i))) {
                fails += 1;
            }
        }
        fails
    }
}

// The slot of a user who has one.
pub(crate) fn slot_of(slots: &[Slot], user: User) -> usize
    requires { (i : ℕ) × (i < length slots.now) × (slot_user slots.now i ≡ user.number) }
    ensures below { result < length slots.now }
    ensures is { slot_user slots.now result ≡ user.number }
{
    match slots.iter().position(|slot| slot.user == user) {
        Some(slot) => slot,
        None => unreachable(),
    }
}
