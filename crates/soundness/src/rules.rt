// The assign rules of a board. An entry is plain; of a board's entries it is known that their conditions are sets.
ghost use Rattle.std.specs.Prelude.{◌≡◌, suc, ◌≤◌, true, length, MatchOption};
ghost use Rattle.std.specs.Iterator.{YieldsFirstBy, item_count};
ghost use Rattle.meaning.specs.Lists.{Nth};
ghost use Rattle.bounded.specs.Entries.{entries};
ghost use Rattle.soundness.specs.Rules.{is_set, AllSets};

use crate::valid::Valid;
use tables::AssignEntry;

/// An assign rule of a board: an entry whose condition is a set, by its type.
#[derive(Clone, Copy)]
pub struct AssignRule<'a> {
    pub stored: &'a AssignEntry,
    ghost set: { is_set stored.now.needs ≡ true },
}

/// The assign rules that are left to be gone through.
#[derive(Clone, Copy)]
pub struct AssignRules<'a> {
    pub rest: &'a [AssignEntry],
    ghost sets: { AllSets rest.now },
}

impl<'a> Iterator for AssignRules<'a> {
    type Item = AssignRule<'a>;

    ghost next_gives = { YieldsFirstBy (λ r. r.stored.now) (λ s. s.rest.now) };

    ghost remaining = { item_count (λ s. s.rest.now) };

    fn next(&mut self) -> Option<AssignRule<'a>> {
        let (stored, others) = self.rest.split_first()?;
        *self = AssignRules { rest: others };
        Some(AssignRule { stored })
    }
}

impl Valid {
    /// The board's assign rules, in order.
    pub fn assign_rules(&self) -> AssignRules<'_>
        ensures { result.rest.now ≡ entries self.now.tables.assigns }
    {
        let rest = self.tables.assigns.entries();
        AssignRules { rest }
    }

    /// The board's assign rule at this place, counted from 0; none past the last.
    pub fn assign_rule(&self, place: usize) -> Option<AssignRule<'_>>
        ensures { MatchOption result (length (entries self.now.tables.assigns) ≤ place) (λ r. Nth (suc place) r.stored.now (entries self.now.tables.assigns)) }
    {
        let rules = self.tables.assigns.entries();
        if place < rules.len() {
            let stored = &rules[place];
            return Some(AssignRule { stored });
        }
        None
    }
}
