// Delegation as a step system: a fact is a slot's user with a role, a step gives a role to a slot's user by a rule.
ghost use Rattle.tables.specs.View.{policy_of};
ghost use Rattle.deciding.specs.Masked.{TellsSenior, down_of};
ghost use Rattle.deciding.specs.Slots.{slots_of, Distinct, InRange, ActsTold};

use crate::plan::Plan;
use soundness::Valid;

/// What the users of a plan's slots can make of a board by adding. By its type no user has two slots, the slots' users are in range and each slot says whether its user may act, and the plan's masks say exactly who is senior to whom.
#[derive(Clone, Copy)]
pub struct Delegation<'a, 'b> {
    pub board: &'a Valid,
    pub plan: &'b Plan,
    ghost distinct: { Distinct (slots_of plan.now) },
    ghost inside: { InRange (slots_of plan.now) },
    ghost acts: { ActsTold (policy_of board.now.tables) (slots_of plan.now) },
    ghost tells: { (TellsSenior (policy_of board.now.tables) (down_of plan.now.masks.seniors) → ⊥) → ⊥ },
}
