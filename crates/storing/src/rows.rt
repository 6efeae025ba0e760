// The lines of users, permissions and senior roles, each with the roles beside it.
ghost use Rattle.std.specs.Prelude.{codes};
ghost use Rattle.meaning.specs.Measures.{users, permissions, roles as all_roles};
ghost use Rattle.pen.specs.Puts.{Wrote};
ghost use Rattle.boardtext.specs.Canonical.{row_lines};
ghost use Rattle.tables.specs.View.{state_of, policy_of};
ghost use Rattle.storing.specs.Next.{Next};

use crate::entry::put_row;
use lines::Change;
use meaning::{ROLES, USERS};
use pen::Writer;
use rbac::{Permission, Role, User};
use tables::{Row, Tables};

// The number of the least user from this one on who has a row; where there is none, the number that no user has.
fn next_user(rows: &[Row], from: u32) -> u32
    ensures { Next rows.now from result }
{
    let mut next = USERS as u32;
    for row in rows {
        if let Some(user) = row.holder() {
            let number = user.number() as u32;
            if number >= from && number < next {
                next = number;
            }
        }
    }
    next
}

// The lines of the users who have a row.
pub(crate) fn put_users(w: &mut Writer, tables: &Tables)
    ensures { Wrote w.old (row_lines (codes "ua u") (state_of tables.now) users) w.new }
{
    let mut from = next_user(tables.rows.entries(), 0);
    while let Some(user) = User::new(from) {
        let roles = tables.assigned(user);
        put_row(w, Change::Ua { user, roles }, roles);
        from = next_user(tables.rows.entries(), user.number() as u32 + 1);
    }
}

// The lines of the permissions that are given to some role.
pub(crate) fn put_gifts(w: &mut Writer, tables: &Tables)
    ensures { Wrote w.old (row_lines (codes "pa p") (policy_of tables.now).gives permissions) w.new }
{
    for (n, roles) in tables.gives.iter().enumerate() {
        if let Some(permission) = Permission::new(n as u32) {
            put_row(
                w,
                Change::Pa {
                    permission,
                    roles: *roles,
                },
                *roles,
            );
        }
    }
}

// The lines of the roles that are senior to some role.
pub(crate) fn put_edges(w: &mut Writer, tables: &Tables)
    ensures { Wrote w.old (row_lines (codes "rh r") (policy_of tables.now).edge all_roles) w.new }
{
    for n in 0..ROLES as u32 {
        if let Some(senior) = Role::new(n) {
            let juniors = tables.hierarchy.direct(senior);
            put_row(w, Change::Rh { senior, juniors }, juniors);
        }
    }
}
