// Bytes, numbers, and lists in ascending order.
ghost use Rattle.std.specs.Prelude.{◌≡◌, ℕ, ◌<◌, Bool, [], ◌∷◌, map, decimal};
ghost use Rattle.meaning.specs.Measures as measures;
ghost use Rattle.rbac.specs.Roles.{roles_of};
ghost use Rattle.meaning.specs.Lists.{listed as named};
ghost use Rattle.lines.specs.Lists.{number_of};
ghost use Rattle.pen.specs.Puts.{Wrote};
ghost use Rattle.pen.specs.Ascending.{ascending};
ghost use Rattle.lines.specs.Entries.{entry_bytes};

use crate::writer::Writer;
use itoa::Buffer;
use meaning::{ROLES, USERS};
use rbac::{Role, RoleSet, User};
use words::{has, put};

// One bit for each user.
const USER_WORDS: usize = USERS / 64;

// Whether the role of that number is in the set.
#[tactic(auto, using(rbac::proofs::Masks::roles_past))]
fn holds(roles: RoleSet, k: u32) -> bool
    ensures { result ≡ roles_of roles k }
{
    Role::new(k).is_some_and(|role| roles.contains(role))
}

impl Writer<'_> {
    pub fn byte(&mut self, b: u8)
        ensures { Wrote self.old (b ∷ []) self.new }
    {
        // By get_mut the proof did not close: what is written through it is tied to the place by a name of the check's own.
        if self.len < self.place.len() {
            self.place[self.len] = b;
        }
        self.len = self.len.saturating_add(1);
    }

    pub fn bytes(&mut self, s: &[u8])
        ensures { Wrote self.old s.now self.new }
    {
        for b in s {
            self.byte(*b);
        }
    }

    pub fn number(&mut self, n: u64)
        ensures { Wrote self.old (decimal n) self.new }
    {
        let mut digits = Buffer::new();
        self.bytes(digits.format(n).as_bytes());
    }

    // A blank, the letter and the number, for each number below the limit that passes, ascending.
    fn entries<F: Fn(u32) -> bool>(&mut self, letter: u8, limit: u32, passes: F)
        requires { F.IsAlwaysCallable passes }
        ensures { (f : ℕ → Bool) → ((k : ℕ) (b : Bool) → k < limit → F.post passes k b → b ≡ f k) → Wrote self.old (entry_bytes letter (ascending f limit)) self.new }
    {
        // The number itself is what is written; it is no place in a list.
        for k in 0..limit {
            if passes(k) {
                self.byte(b' ');
                self.byte(letter);
                self.number(k as u64);
            }
        }
    }

    /// A blank, r and the number of each role, ascending.
    pub fn roles(&mut self, roles: RoleSet)
        ensures { Wrote self.old (entry_bytes 114 (ascending (roles_of roles) measures.roles)) self.new }
    {
        self.entries(b'r', ROLES as u32, |k| holds(roles, k));
    }

    /// A blank, u and the number of each user, ascending.
    pub fn users(&mut self, users: &[User])
        ensures { Wrote self.old (entry_bytes 117 (ascending (named (map number_of users.now)) measures.users)) self.new }
    {
        let mut named = [0u64; USER_WORDS];
        for user in users {
            let _ = put(&mut named, user.number() as usize);
        }
        self.entries(b'u', USERS as u32, |k| has(&named, k as usize));
    }
}
