// The steps of delegation.
ghost use Rattle.std.specs.Prelude.{◌≡◌, ◌*◌, ◌/◌, ◌%◌, ◌<◌, ◌≤◌, length, map, take};
ghost use Rattle.std.specs.Result.{IfOk};
ghost use Rattle.words.specs.Words.{bits};
ghost use Rattle.steps.specs.Steps.{Lawful, Leap};
ghost use Rattle.steps.specs.Closing.{Closes};
ghost use Rattle.meaning.specs.Measures.{assign_rules, list_places};
ghost use Rattle.meaning.specs.Lists.{Nth};
ghost use Rattle.theory.specs.Delegation.{rule_number, said, RunAmong};
ghost use Rattle.theory.proofs.Delegate.{lawful};
ghost use Rattle.tables.specs.View.{policy_of, assign_of};
ghost use Rattle.deciding.specs.Slots.{slots_of, users_of};
ghost use Rattle.deciding.specs.Delegates.{adding, delegates, FoundActor};

use crate::delegation::Delegation;
use crate::runs::RunStep;
use crate::sets::{condition, member};
use meaning::{LIST_PLACES, ROLES};
use rbac::{Role, RoleSet};
use soundness::AssignRule;
use steps::{StepSystem, TooShort, close};
use tables::Tables;
use words::word;

// How many assign rules there are.
fn rules(tables: &Tables) -> usize
    ensures all { result ≡ length (policy_of tables.now).assigns }
    ensures few { result ≤ assign_rules }
{
    tables.assigns.entries().len()
}

impl<'a> Delegation<'a, '_> {
    // The rule of a step.
    fn rule(&self, step: usize) -> AssignRule<'a>
        requires { step < list_places * length (policy_of self.now.board.now.tables).assigns }
        ensures { Nth (rule_number step) (assign_of result.stored.now) (policy_of self.now.board.now.tables).assigns }
    {
        match self.board.assign_rule(step / LIST_PLACES) {
            Some(rule) => rule,
            None => unreachable(),
        }
    }

    // A slot whose user may act by rules with this administering role.
    fn actor(&self, admin: Role, facts: &[u64]) -> Option<usize>
        ensures { FoundActor (policy_of self.now.board.now.tables) (users_of (slots_of self.now.plan.now)) (bits facts.now) admin.number result }
    {
        let slots = self.plan.slots.entries();
        for (j, slot) in slots.iter().enumerate() {
            let there = RoleSet::from_word(word(facts, j));
            let administers = member(there, &self.plan.masks.seniors, admin.number() as usize);
            if slot.acts & administers {
                return Some(j);
            }
        }
        None
    }

    // Where to go on from a step: itself where it is worth a try, or past steps that are shut or make nothing new.
    fn leap(&self, step: usize, facts: &[u64]) -> usize
        requires { step < list_places * length (policy_of self.now.board.now.tables).assigns }
        ensures { Leap (delegates (policy_of self.now.board.now.tables) (users_of (slots_of self.now.plan.now))) step (bits facts.now) result }
    {
        let place = step / LIST_PLACES;
        let rule = self.rule(step);
        let entry = rule.stored;
        let slot = step % LIST_PLACES / ROLES;
        if slot >= self.plan.slots.entries().len() {
            return (place + 1) * LIST_PLACES;
        }
        let there = RoleSet::from_word(word(facts, slot));
        if entry.targets.is_within(there) {
            return place * LIST_PLACES + (slot + 1) * ROLES;
        }
        let role = Role::modulo(step);
        if there.contains(role) | !entry.targets.contains(role) {
            return step + 1;
        }
        if !condition(&rule, &self.plan.masks, there) {
            return place * LIST_PLACES + (slot + 1) * ROLES;
        }
        match self.actor(entry.admin, facts) {
            Some(_) => step,
            None => (place + 1) * LIST_PLACES,
        }
    }

    /// Adds to the facts all that the slots' users can give each other, lists the steps of a run that does it, and returns their number.
    /// The fact `64 * i + r` says that the user of slot `i` has the role `r`; word `i` is so the set of that user's roles. Words are needed for all facts, and a place of the list for each; where the tables are too short for it, they are left as they are.
    pub fn add_all(&self, work: &mut [u64], list: &mut [RunStep]) -> Result<usize, TooShort>
        ensures law { Lawful (delegates (policy_of self.now.board.now.tables) (users_of (slots_of self.now.plan.now))) }
        ensures closes { Closes (delegates (policy_of self.now.board.now.tables) (users_of (slots_of self.now.plan.now))) work.old list.old result work.new list.new }
        ensures run { IfOk result (λ n. RunAmong (policy_of self.now.board.now.tables) (users_of (slots_of self.now.plan.now)) (said (users_of (slots_of self.now.plan.now)) (bits work.old)) (map adding (take n list.new)) (said (users_of (slots_of self.now.plan.now)) (bits work.new))) }
    {
        close(self, work, list)
    }
}

impl<'a, 'b> StepSystem for Delegation<'a, 'b> {
    type Record = RunStep;

    ghost means = { λ x. delegates (policy_of x.board.now.tables) (users_of (slots_of x.plan.now)) };

    fn facts(&self) -> usize {
        LIST_PLACES
    }

    fn steps(&self) -> usize {
        LIST_PLACES * rules(&self.board.tables)
    }

    fn makes(&self, step: usize) -> usize {
        step % LIST_PLACES
    }

    fn record(&self, step: usize, facts: &[u64]) -> Option<RunStep> {
        let place = step / LIST_PLACES;
        let slot = step % LIST_PLACES / ROLES;
        let slots = self.plan.slots.entries();
        if slot >= slots.len() {
            return None;
        }
        let rule = self.board.assign_rule(place)?;
        let entry = rule.stored;
        let role = Role::modulo(step);
        if !entry.targets.contains(role) {
            return None;
        }
        let there = RoleSet::from_word(word(facts, slot));
        if !condition(&rule, &self.plan.masks, there) {
            return None;
        }
        let actor = self.actor(entry.admin, facts)?;
        Some(RunStep {
            actor: slots[actor].user,
            user: slots[slot].user,
            role,
            rule: (place + 1) as u8,
        })
    }

    fn ahead(&self, step: usize, facts: &[u64]) -> usize {
        if step < LIST_PLACES * rules(&self.board.tables) {
            self.leap(step, facts)
        } else {
            step
        }
    }

    ghost lawful = { λ x. lawful adding (policy_of x.board.now.tables) (users_of (slots_of x.plan.now)) };
}
