// A draft weighed as a whole.
ghost use Rattle.std.specs.Prelude.{◌≡◌, ℕ, ◌≤◌, length, slice_index};
ghost use Rattle.meaning.specs.Measures.{list_places, work_words};
ghost use Rattle.bounded.specs.Entries.{entries as entries_of};
ghost use Rattle.drafts.specs.Neat.{Neat};
ghost use Rattle.drafts.specs.View.{book_of};
ghost use Rattle.weighing.specs.Weighing.{Stood, Weighed};

use crate::failure::Failure;
use crate::requirement::judge;
use book::Cause;
use deciding::RunStep;
use drafts::Draft;
use meaning::{LIST_PLACES, WORK_WORDS};
use soundness::Valid;
use tables::RequirementEntry;
use verdicts::Work;

// Whether all of the requirements stand; where not, the first that does not.
fn all_stand(
    valid: &Valid,
    entries: &[RequirementEntry],
    list: &mut [RunStep],
    work: &mut [u64],
) -> Result<(), Failure>
    requires entries { entries.now ≡ entries_of valid.now.tables.requirements }
    requires neat { (Neat valid.now.tables → ⊥) → ⊥ }
    requires places { list_places ≤ length list.old }
    requires words { work_words ≤ length work.old }
    ensures { Stood (book_of valid.now.tables) list.old result list.new }
{
    for (i, entry) in entries.iter().enumerate() {
        if let Err(shown) = judge(valid, *entry, list, work) {
            return Err(Failure {
                requirement: i + 1,
                run: shown,
            });
        }
    }
    Ok(())
}

// Weighs with a list and a work table that are long enough.
fn weigh_in(draft: &Draft, list: &mut [RunStep], work: &mut [u64]) -> Result<Valid, Cause>
    requires places { list_places ≤ length list.old }
    requires words { work_words ≤ length work.old }
    ensures { Weighed draft.now.tables list.old (length work.old) result list.new }
{
    let valid = draft.weighed()?;
    all_stand(&valid, valid.tables.requirements.entries(), list, work)?;
    Ok(valid)
}

/// The draft as a board's tables, or the refusal of the smallest number: of what is lent, of the regime, or of a requirement.
pub fn weigh(draft: &Draft, list: &mut [RunStep], work: &mut [u64]) -> Result<Valid, Cause>
    ensures weighed { Weighed draft.now.tables list.old (length work.old) result list.new }
    ensures clean { (k : ℕ) → slice_index work.new k ≡ 0 }
{
    let guard = Work { words: work };
    if list.len() < LIST_PLACES || guard.words.len() < WORK_WORDS {
        return Err(Cause::TooShort);
    }
    weigh_in(draft, list, guard.words)
}
