// Lists of roles and of users that end a line.
ghost use Rattle.std.specs.Prelude.{◌≡◌, ℕ, ◌+◌, ◌<◌, ◌≤◌, min, Bool, false, ◌&&◌, List, [], ◌∷◌, ◌++◌, length, take, Option, Some, None, IfNone, MatchOption};
ghost use Rattle.bounded.specs.Entries.{entries as kept};
ghost use Rattle.meaning.specs.Measures.{users as all_users, trusted_users};
ghost use Rattle.grammar.specs.Text.{rest, taken};
ghost use Rattle.trees.specs.Reading.{Nodes as Tree, nodes_in};
ghost use Rattle.lines.specs.Entries.{entry_at};
ghost use Rattle.lines.specs.Lists.{Noted, Listed, Seen, in_range};
ghost use Rattle.lines.specs.Readings.{TrustRead};

use crate::change::{Extra, USER_WORDS};
use crate::parts::Names;
use bounded::Bounded;
use grammar::{Ground, Reader};
use rbac::{Role, RoleSet, User};
use trees::no_nodes;
use words::{has, put};

/// A blank, a letter and a number; where these do not stand next, nothing is taken.
pub fn entry(r: &mut Reader, letter: u8) -> Option<u32>
    ensures read { entry_at letter (rest r.old) ≡ taken result (rest r.new) }
    ensures kept { IfNone result (rest r.new ≡ rest r.old) }
{
    let mut ahead = Reader::new(r.rest(), r.line());
    if ahead.take(b' ') && ahead.take(letter) {
        let number = ahead.number()?;
        *r = ahead;
        Some(number)
    } else {
        None
    }
}

impl Names {
    // The same with one role more; none where its number is out of range.
    fn with(self, number: u32) -> Option<Names>
        ensures { (ms : List ℕ) → Noted (Some self) ms → Noted result (ms ++ number ∷ []) }
    {
        let role = Role::new(number)?;
        Some(Names {
            roles: self.roles.insert(role),
            twice: self.twice | self.roles.contains(role),
        })
    }
}

/// The roles of a list that goes on to the end of the text, and of these none where one is out of range. Such a role
/// doesn't end the list: a fault in how the rest is written is refused first, so that all of it is read. An Option in an
/// Option: whether it is a list, and whether its roles are in range; a row and an assign rule rank the two apart. Where it
/// is no list, nothing is taken.
pub fn roles(r: &mut Reader) -> Option<Option<Names>>
    ensures read { Listed 114 Noted (rest r.old) result }
    ensures left { MatchOption result (rest r.new ≡ rest r.old) (λ _. rest r.new ≡ []) }
{
    let mut ahead = Reader::new(r.rest(), r.line());
    let mut names = Some(Names {
        roles: RoleSet::empty(),
        twice: false,
    });
    // What is read says where the list ends, so there is nothing to iterate over.
    'entries: loop {
        let number = entry(&mut ahead, b'r')?;
        names = names.and_then(|names| names.with(number));
        if ahead.is_at_end() {
            *r = ahead;
            return Some(names);
        }
    }
}

impl Extra {
    /// Nothing beside a change.
    pub fn new() -> Extra
        ensures trusted { kept result.trusted ≡ [] }
        ensures many { result.many ≡ 0 }
        ensures twice { result.twice ≡ false }
        ensures condition { (tree : Tree) × (result.condition ≡ Some tree) × (nodes_in tree ≡ []) }
        ensures left { nodes_in result.left ≡ [] }
        ensures right { nodes_in result.right ≡ [] }
    {
        Extra {
            trusted: Bounded::new(User::from(0)),
            named: [0; USER_WORDS],
            many: 0,
            twice: false,
            condition: Some(no_nodes()),
            left: no_nodes(),
            right: no_nodes(),
        }
    }

    // Counts one more trusted user, and keeps it while there is a place.
    fn add(&mut self, user: User)
        ensures trusted { kept self.new.trusted ≡ take trusted_users (kept self.old.trusted ++ user ∷ []) }
        ensures many { self.new.many ≡ min (self.old.many + 1) 18446744073709551615 }
        ensures twice { self.new.twice ≡ self.old.twice }
        ensures named { self.new.named ≡ self.old.named }
    {
        let _ = self.trusted.push(user);
        self.many = self.many.saturating_add(1);
    }
}

// The user of that number; the bound is said here, since what a user's type says is not seen where this is passed on.
pub(crate) fn user(number: u32) -> Option<User>
    ensures { MatchOption result (all_users ≤ number) (λ u. (u.number ≡ number) × (number < all_users)) }
{
    User::new(number)
}

// Notes one user, or refuses the number where there is none of it.
fn note(extra: &mut Extra, number: u32) -> Result<(), Ground>
    ensures { (good : Bool) (ms : List ℕ) → length ms < 18446744073709551615 → Seen extra.old good ms → (fits : Bool) × (result ≡ in_range fits) × Seen extra.new (good && fits) (ms ++ number ∷ []) }
{
    let user = user(number).ok_or(Ground::Range)?;
    let k = number as usize;
    let again = has(&extra.named, k);
    let _ = put(&mut extra.named, k);
    extra.twice = extra.twice | again;
    extra.add(user);
    Ok(())
}

/// The users of a list that goes on to the end of the text, into what lies beside the change.
pub fn users(r: &mut Reader, extra: &mut Extra) -> Result<(), Ground>
    ensures { TrustRead (rest r.old) result extra.new }
{
    // The count of the users cannot wrap, since the slice of what is left has a length.
    let _left = r.rest();
    let mut fits = Ok(());
    extra.trusted = Bounded::new(User::from(0));
    extra.named = [0; USER_WORDS];
    extra.many = 0;
    extra.twice = false;
    // What is read says where the list ends, so there is nothing to iterate over.
    'entries: loop {
        let number = entry(r, b'u').ok_or(Ground::Syntax)?;
        fits = fits.and(note(extra, number));
        if r.is_at_end() {
            return fits;
        }
    }
}
