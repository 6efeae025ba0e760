// One standing requirement, asked of the engine that answers questions.
ghost use Rattle.std.specs.Prelude.{◌≡◌, ℕ, ◌≤◌, length};
ghost use Rattle.meaning.specs.Measures.{list_places, work_words};
ghost use Rattle.tables.specs.View.{policy_of, state_of, requirement_of, stored_question};
ghost use Rattle.questions.specs.Inquired.{inquired, Posable};
ghost use Rattle.weighing.specs.Standing.{asked_by, Judged};

use deciding::RunStep;
use meaning::Kind;
use questions::Inquiry;
use soundness::Valid;
use tables::{Demand, RequirementEntry};
use verdicts::{Shown, decide};

// An 'always' is asked whether it is necessary, a 'never' whether it is possible.
fn kind(demand: Demand) -> Kind
    ensures { result ≡ asked_by demand }
{
    match demand {
        Demand::Always => Kind::Necessary,
        Demand::Never => Kind::Possible,
    }
}

fn inquiry(entry: RequirementEntry) -> Inquiry
    requires { (Posable entry.larger entry.smaller → ⊥) → ⊥ }
    ensures kind { result.kind ≡ asked_by entry.demand }
    ensures asks { inquired result ≡ stored_question entry.larger entry.smaller }
{
    match Inquiry::new(kind(entry.demand), entry.larger, entry.smaller) {
        Some(inquiry) => inquiry,
        None => unreachable(),
    }
}

// Whether the requirement stands; where it does not, the run that shows it.
pub(crate) fn judge(
    valid: &Valid,
    entry: RequirementEntry,
    list: &mut [RunStep],
    work: &mut [u64],
) -> Result<(), Shown>
    requires posable { (Posable entry.larger entry.smaller → ⊥) → ⊥ }
    requires places { list_places ≤ length list.old }
    requires words { work_words ≤ length work.old }
    ensures { Judged (policy_of valid.now.tables) (state_of valid.now.tables) (requirement_of entry) list.old result list.new }
{
    match decide(valid, &inquiry(entry), list, work) {
        Ok(verdict) => match verdict.run {
            Some(run) => Err(run),
            None => Ok(()),
        },
        Err(_) => unreachable(),
    }
}
