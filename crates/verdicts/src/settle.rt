// Deciding a question.
ghost use Rattle.std.specs.Prelude.{◌≡◌, ℕ, ◌≤◌, length, slice_index};
ghost use Rattle.meaning.specs.Measures.{tracked_users, list_places};
ghost use Rattle.tables.specs.View.{policy_of, state_of};
ghost use Rattle.questions.specs.Inquired.{inquired};
ghost use Rattle.verdicts.specs.PlanFits.{CaseFits};
ghost use Rattle.verdicts.specs.Candidates.{adds_to};
ghost use Rattle.verdicts.specs.Verdict.{Decided, Settled};
ghost use Rattle.meaning.specs.Witnesses.{sought_by};

use crate::case::Case;
use crate::runners::fill;
use crate::verdict::{Shown, Verdict};
use crate::work::Work;
use deciding::RunStep;
use meaning::{Kind, LIST_PLACES, WORK_WORDS};
use planning::plan_of;
use questions::Inquiry;
use soundness::Valid;
use steps::TooShort;
use theory::{Place, decided_at};

// The truth value that a run can show.
fn sought(kind: Kind) -> bool
    ensures { result ≡ sought_by kind }
{
    match kind {
        Kind::Possible => true,
        Kind::Necessary => false,
    }
}

// Whether the run to the place adds.
fn adds_to(place: Place) -> bool
    ensures { result ≡ adds_to place }
{
    match place {
        Place::LeastState => false,
        Place::GreatestState => true,
    }
}

impl Case<'_> {
    // Decides the question with tables that are long enough. The lengths are an answer of `decide` and are tested there alone; a type that holds them would wrap the slices once for each part, and the parts would say no less.
    fn decide_in(&self, list: &mut [RunStep], work: &mut [u64]) -> Verdict
        requires plan_fits { CaseFits self.now }
        requires places { list_places ≤ length list.old }
        requires room { tracked_users ≤ length work.old }
        ensures { Decided self.now.asked.now.kind (policy_of self.now.board.now.tables) (state_of self.now.board.now.tables) (inquired self.now.asked.now) list.old result list.new }
    {
        let place = decided_at(self.asked.kind, self.asked.fixed_side());
        let adds = adds_to(place);
        let sought = sought(self.asked.kind);
        let mut run = [RunStep::blank(); LIST_PLACES];
        fill(work, self.slots());
        let n = self.run_to(place, &mut run, work);
        fill(work, self.slots());
        match self.first_shown(&run[..n], adds, sought, work) {
            Some(steps) => {
                list[..steps].copy_from_slice(&run[..steps]);
                Verdict {
                    yes: sought,
                    run: Some(Shown { adds, steps }),
                }
            }
            None => Verdict {
                yes: !sought,
                run: None,
            },
        }
    }
}

/// Answers a question about what can become of the board, and lists a run that shows the answer where one does. The places of the list past the run stay as they were.
/// Wants 133 words and 8,512 places, or says which are too few and leaves the list as it was. Every word is 0 at the end.
pub fn decide(
    board: &Valid,
    asked: &Inquiry,
    list: &mut [RunStep],
    work: &mut [u64],
) -> Result<Verdict, TooShort>
    ensures settled { Settled asked.now.kind (policy_of board.now.tables) (state_of board.now.tables) (inquired asked.now) (length work.old) list.old result list.new }
    ensures clean { (k : ℕ) → slice_index work.new k ≡ 0 }
{
    let guard = Work { words: work };
    if guard.words.len() < WORK_WORDS {
        return Err(TooShort::Words);
    }
    if list.len() < LIST_PLACES {
        return Err(TooShort::Places);
    }
    let case = Case {
        board,
        asked,
        plan: &plan_of(board, asked),
    };
    Ok(case.decide_in(list, guard.words))
}
