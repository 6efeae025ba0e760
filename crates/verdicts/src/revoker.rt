// A revoke rule that has some target: its number, counted from 1, and its administering role.
use rbac::Role;

#[derive(Clone, Copy)]
pub struct Revoker {
    pub rule: u8,
    pub admin: Role,
}
