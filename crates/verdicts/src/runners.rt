// Runs to the two places where questions are decided.
ghost use Rattle.std.specs.Prelude.{◌≡◌, ℕ, ◌<◌, ◌≤◌, length, slice_index};
ghost use Rattle.meaning.specs.Measures.{tracked_users, list_places};
ghost use Rattle.questions.specs.Inquired.{inquired};
ghost use Rattle.tables.specs.View.{policy_of, state_of};
ghost use Rattle.deciding.specs.Slots.{slots_of, slot_at};
ghost use Rattle.verdicts.specs.Looking.{WordsSay};
ghost use Rattle.verdicts.specs.PlanFits.{CaseFits};
ghost use Rattle.verdicts.specs.Candidates.{Candidate};

use crate::case::Case;
use deciding::{Delegation, RunStep, Slot};
use theory::Place;

// Puts the roles assigned now into the words of the slots. The words are a lent table, so they stand beside the slots.
pub(crate) fn fill(work: &mut [u64], slots: &[Slot])
    requires { length slots.now ≤ length work.old }
    ensures words { (i : ℕ) → i < length slots.now → slice_index work.new i ≡ (slot_at slots.now i).roles.word }
    ensures room { length work.new ≡ length work.old }
{
    for (i, slot) in slots.iter().enumerate() {
        work[i] = slot.roles.word();
    }
}

impl Case<'_> {
    // Lists a run at whose end the question is decided, and returns the number of its steps.
    pub(crate) fn run_to(&self, place: Place, list: &mut [RunStep], work: &mut [u64]) -> usize
        requires plan_fits { CaseFits self.now }
        requires start { WordsSay (slots_of self.now.plan.now) work.old (state_of self.now.board.now.tables) }
        requires room { tracked_users ≤ length work.old }
        requires places { list_places ≤ length list.old }
        ensures run { Candidate (policy_of self.now.board.now.tables) (state_of self.now.board.now.tables) (inquired self.now.asked.now) (slots_of self.now.plan.now) place result list.new }
        ensures room { length work.new ≡ length work.old }
        ensures places { length list.new ≡ length list.old }
    {
        match place {
            Place::LeastState => self.take_all(list),
            Place::GreatestState => {
                let system = Delegation {
                    board: self.board,
                    plan: self.plan,
                };
                match system.add_all(work, list) {
                    Ok(steps) => steps,
                    Err(_) => unreachable(),
                }
            }
        }
    }
}
