// Trusted users.
ghost use Rattle.std.specs.Prelude.{◌≡◌, ℕ, ◌<◌, true, false, not, ◌++◌, List, take, filter, map, MatchBool, ◌==◌};
ghost use Rattle.std.specs.List.{list_any, list_all, All, Any};
ghost use Rattle.words.specs.Words.{bits};
ghost use Rattle.meaning.specs.Measures.{users, trusted_users};
ghost use Rattle.lines.specs.Entries.{all_below, repeats};
ghost use Rattle.lines.specs.Lists.{number_of};
ghost use Rattle.texts.specs.declared.faults.Way.TheVariants.{Add, Remove};
ghost use Rattle.bounded.specs.Entries.{entries};
ghost use Rattle.tables.specs.View.{policy_of};
ghost use Rattle.book.specs.Book.{trusts};
ghost use Rattle.book.specs.Entering.{Entered};
ghost use Rattle.drafts.specs.View.{book_of};
ghost use Rattle.entering.specs.Laid.{Laid};
ghost use Rattle.entering.specs.Trusting.{NamedIn, NoneNamed};
ghost use Rattle.lines.specs.Changes.{NamesUsers};

use crate::regime::is_aatu;
use book::Cause;
use bounded::Bounded;
use lines::Extra;
use meaning::TRUSTED_USERS;
use rbac::User;
use tables::Tables;
use words::has;

// Whether the set has the user, who is in range by type.
fn is_named(user: User, named: &[u64]) -> bool
    ensures is { result ≡ bits named.now user.number }
    ensures inside { user.number < users }
{
    has(named, user.number() as usize)
}

// Whether one of the users is in the set.
fn some_named(list: &[User], named: &[u64]) -> bool
    ensures { MatchBool result (Any (NamedIn (bits named.now)) list.now) (All (NoneNamed (bits named.now)) list.now) }
{
    list.iter().any(|user| is_named(*user, named))
}

// Puts users last, as far as there is room.
fn append(list: &mut Bounded<User, TRUSTED_USERS>, more: &[User])
    ensures { entries list.new ≡ take trusted_users (entries list.old ++ more.now) }
{
    'more: for user in more {
        let _ = list.push(*user);
    }
}

// The users of the list who are not in the set.
fn without(list: &[User], named: &[u64]) -> Bounded<User, TRUSTED_USERS>
    ensures { entries result ≡ take trusted_users (filter (λ u. not (bits named.now u.number)) list.now) }
{
    let mut left = Bounded::new(User::from(0));
    'list: for user in list {
        if !is_named(*user, named) {
            let _ = left.push(*user);
        }
    }
    left
}

// Whether the user is in the list.
fn has_user(list: &[User], user: User) -> bool
    ensures { result ≡ list_any (λ (x : _). x.number == user.number) list.now }
{
    list.iter().any(|other| *other == user)
}

fn is_trusted(tables: &Tables, user: User) -> bool
    ensures { result ≡ (policy_of tables.now).trusted user.number }
{
    has_user(tables.trusted.entries(), user)
}

// Whether all of the users are trusted.
fn are_trusted(tables: &Tables, list: &[User]) -> bool
    ensures { result ≡ list_all (λ (u : _). (policy_of tables.now).trusted u.number) list.now }
{
    list.iter().all(|user| is_trusted(tables, *user))
}

pub(crate) fn add(tables: &mut Tables, extra: &Extra) -> Result<(), Cause>
    requires once { repeats (map number_of (entries tables.old.trusted)) ≡ false }
    ensures entered { (us : List ℕ) → NamesUsers us extra.now → all_below users us ≡ true → Entered Add (book_of tables.old) (trusts us) result (book_of tables.new) }
    ensures laid { (us : List ℕ) → NamesUsers us extra.now → all_below users us ≡ true → Laid tables.old → Laid tables.new }
{
    if !is_aatu(tables) {
        return Err(Cause::WrongRegime);
    }
    if extra.twice | some_named(tables.trusted.entries(), &extra.named) {
        return Err(Cause::AlreadyThere);
    }
    let room = TRUSTED_USERS.saturating_sub(tables.trusted.entries().len());
    if room < extra.many {
        return Err(Cause::Full);
    }
    append(&mut tables.trusted, extra.trusted.entries());
    Ok(())
}

pub(crate) fn remove(tables: &mut Tables, extra: &Extra) -> Result<(), Cause>
    ensures entered { (us : List ℕ) → NamesUsers us extra.now → all_below users us ≡ true → Entered Remove (book_of tables.old) (trusts us) result (book_of tables.new) }
    ensures laid { Laid tables.old → Laid tables.new }
{
    if !is_aatu(tables) {
        return Err(Cause::WrongRegime);
    }
    if extra.twice {
        return Err(Cause::AlreadyThere);
    }
    if (extra.many > TRUSTED_USERS) | !are_trusted(tables, extra.trusted.entries()) {
        return Err(Cause::NotThere);
    }
    tables.trusted = without(tables.trusted.entries(), &extra.named);
    Ok(())
}
