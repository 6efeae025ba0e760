// The rows of a board. A row is found by its user, lent for a change, and free again when its last role goes; no user has two.
ghost use Rattle.std.specs.Prelude.{◌≡◌, ℕ, ◌<◌, false, true, not, ◌&&◌, nat_lt, length, find, option_copied, position, Decides, MatchOption};
ghost use Rattle.std.specs.Fn.{FnOnceReturnsAtMut};
ghost use Rattle.meaning.specs.Measures.{users, rows};
ghost use Rattle.tables.specs.Rows.{Blank, OneRowEach, Given, Taken, Lent, LeavesOneRowEach, is_used, is_of, row_at};

use crate::entries::Row;
use meaning::{ROWS, USERS};
use rbac::{RoleSet, User};
use words::{has, put};

// One bit for each user there is.
const SEEN_WORDS: usize = USERS / 64;

/// A table of rows in which no user has two.
#[derive(Clone, Copy)]
pub struct Rows {
    list: [Row; ROWS],
    ghost full: { length list ≡ rows },
    ghost apart: { OneRowEach list },
}

impl Row {
    fn is_used(&self) -> bool
        ensures { result ≡ is_used self.now }
    {
        !self.roles.is_empty()
    }

    fn is_of(&self, user: User) -> bool
        ensures { result ≡ is_of user.number self.now }
    {
        self.user == user && self.is_used()
    }

    /// The user, where the row is in use.
    pub fn holder(&self) -> Option<User>
        ensures { MatchOption result (is_used self.now ≡ false) (λ u. (is_used self.now ≡ true) × (u ≡ self.now.user) × (u.number < users)) }
    {
        self.is_used().then_some(self.user)
    }

    // The row holds these roles too, for this user.
    pub(crate) fn give(&mut self, user: User, roles: RoleSet)
        ensures { Given user roles self.old self.new }
    {
        self.user = user;
        self.roles = self.roles.union(roles);
    }

    // The row holds these roles no more.
    pub(crate) fn take(&mut self, roles: RoleSet)
        ensures { Taken roles self.old self.new }
    {
        self.roles = self.roles.difference(roles);
    }
}

// The users of the rows so far are marked in the table, so no row is compared with another.
fn apart_in(rows: &[Row], seen: &mut [u64]) -> bool
    requires { Blank seen.old }
    ensures { Decides result (OneRowEach rows.now) }
{
    for row in rows {
        if let Some(user) = row.holder() {
            let bit = user.number() as usize;
            if has(seen, bit) {
                return false;
            }
            let _ = put(seen, bit);
        }
    }
    true
}

impl Rows {
    /// These rows in their order; none where a user has two.
    pub fn new(list: [Row; ROWS]) -> Option<Rows>
        ensures { MatchOption result (OneRowEach list → ⊥) (λ r. r.list ≡ list) }
    {
        let mut seen = [0; SEEN_WORDS];
        if !apart_in(&list, &mut seen) {
            return None;
        }
        Some(Rows { list })
    }

    /// Rows that are all free.
    pub fn free() -> Rows
        ensures { (i : ℕ) → i < rows → is_used (row_at result.list i) ≡ false }
    {
        let blank = Row {
            user: User::from(0),
            roles: RoleSet::empty(),
        };
        Rows {
            list: [blank; ROWS],
        }
    }

    /// All of them in their order, the free ones too.
    pub fn entries(&self) -> &[Row]
        ensures all { result.now ≡ self.now.list }
        ensures many { length result.now ≡ rows }
    {
        &self.list
    }

    // Lends one row for a change that leaves users one row each; no other row is touched.
    pub(crate) fn lend<F: FnOnce(&mut Row)>(&mut self, place: usize, change: F)
        requires inside { place < rows }
        requires callable { F.IsAlwaysCallable change }
        requires apart { LeavesOneRowEach (λ old new. FnOnceReturnsAtMut F.FnOnce change old tt new) self.old.list place }
        ensures { Lent (λ old new. FnOnceReturnsAtMut F.FnOnce change old tt new) self.old.list place self.new.list }
    {
        change(&mut self.list[place]);
    }

    // The user's row.
    pub(crate) fn row_of(&self, user: User) -> Option<&Row>
        ensures { option_copied result ≡ find (is_of user.number) self.now.list }
    {
        self.list.iter().find(|row| row.is_of(user))
    }

    // The place of the user's row, counted from 0.
    pub(crate) fn place_of(&self, user: User) -> Option<usize>
        ensures { result ≡ position (is_of user.number) self.now.list }
    {
        self.list.iter().position(|row| row.is_of(user))
    }

    // The place of the first row that is free.
    pub(crate) fn free_place(&self) -> Option<usize>
        ensures unused { result ≡ position (λ row. not (is_used row)) self.now.list }
        ensures held { result ≡ position (λ row. not (is_used row && nat_lt row.user.number users)) self.now.list }
    {
        self.list.iter().position(|row| row.holder().is_none())
    }
}
