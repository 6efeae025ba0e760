// Steps of a run, as they are handed out.
ghost use Rattle.std.specs.Prelude.{◌≡◌};

use rbac::{Role, User};

/// The actor gives the role to the user, or takes it, by the rule of this number, counted from 1 among rules of its kind.
#[derive(Clone, Copy, PartialEq, Eq, Debug)]
pub struct RunStep {
    pub actor: User,
    pub user: User,
    pub role: Role,
    pub rule: u8,
}

impl RunStep {
    /// Fills the places of a list before anything stands there. It is no step, since no rule has the number 0.
    pub fn blank() -> RunStep
        ensures { result.rule ≡ 0 }
    {
        let user = User::from(0);
        RunStep {
            actor: user,
            user,
            role: Role::modulo(0),
            rule: 0,
        }
    }
}
