// Boards read from texts and saved, and what is written then.
#![tactic(auto)]

mod rewriting;

use grammar::Reader;
use hierarchy::Edge;
use lines::{Change, Extra};
use rbac::{Role, RoleSet};
use storing::save;
use tables::{AssignEntry, Demand, Needs, RequirementEntry, RevokeEntry, Tables};
use texts::board::{begin, next};

const LINES: usize = 100;

// The entries of one line, put into the tables.
fn put_roles(tables: &mut Tables, change: Change, role: Role) {
    match change {
        Change::Ua { user, .. } => {
            let _ = tables.assign(user, role);
        }
        Change::Pa { permission, .. } => {
            let n = permission.number() as usize;
            tables.gives[n] = tables.gives[n].insert(role);
        }
        Change::Rh { senior, .. } => tables.hierarchy.insert(Edge {
            senior,
            junior: role,
        }),
        _ => {}
    }
}

fn roles_in(change: Change) -> RoleSet {
    match change {
        Change::Ua { roles, .. } => roles,
        Change::Pa { roles, .. } => roles,
        Change::Rh { juniors, .. } => juniors,
        _ => RoleSet::empty(),
    }
}

fn put_trusted(tables: &mut Tables, extra: &Extra) {
    for user in extra.trusted.entries() {
        let _ = tables.trusted.push(*user);
    }
}

fn put_requirement(tables: &mut Tables, demand: Demand, extra: &Extra) {
    let _ = tables.requirements.push(RequirementEntry {
        demand,
        larger: extra.left,
        smaller: extra.right,
    });
}

fn put(tables: &mut Tables, change: Change, extra: &Extra) {
    match change {
        Change::Trust => put_trusted(tables, extra),
        Change::Assign { admin, targets } => {
            let needs = match extra.condition {
                Some(nodes) => Needs::Roles(nodes),
                None => Needs::Everybody,
            };
            let _ = tables.assigns.push(AssignEntry {
                admin,
                needs,
                targets,
            });
        }
        Change::Revoke { admin, targets } => {
            let _ = tables.revokes.push(RevokeEntry { admin, targets });
        }
        Change::Always => put_requirement(tables, Demand::Always, extra),
        Change::Never => put_requirement(tables, Demand::Never, extra),
        _ => {
            for n in 0..64u32 {
                if let Some(role) = Role::new(n) {
                    if roles_in(change).contains(role) {
                        put_roles(tables, change, role);
                    }
                }
            }
        }
    }
}

// The board of a text, saved in the place; none where the text is refused or the place is too short.
pub(crate) fn saved(text: &[u8], place: &mut [u8]) -> Option<usize> {
    let mut r = Reader::new(text, 1);
    let mut tables = Tables::new();
    tables.regime = begin(&mut r).ok()?;
    let mut extra = Extra::new();
    for _ in 0..LINES {
        match next(&mut r, &mut extra).ok()? {
            Some(change) => put(&mut tables, change, &extra),
            None => break,
        }
    }
    save(&tables, place)
}

#[cfg(test)]
mod tests {
    use crate::saved;
    use std::test::Fail;

    const GIVEN: &[u8] =
        b"RBD 1\nregime aatu\nnever ({u1,u2}&p3) >= {u3}\nassign r2 : ((r1&(r3))) : r6 r5\ntrust u9 u7\nua u65535 r2 r1\nrh r3 r1\nua u5 r63\npa p3 r1\nassign r2 : true : r5\nua u5 r0\n";

    const WRITTEN: &[u8] =
        b"RBD 1\nregime aatu\nua u5 r0 r63\nua u65535 r1 r2\npa p3 r1\nrh r3 r1\ntrust u7 u9\nassign r2 : r1&r3 : r5 r6\nassign r2 : true : r5\nnever ({u1}|{u2})&p3 >= {u3}\n";

    #[test]
    fn a_board_is_saved(rt: HostRuntime) -> Result<(), Fail> {
        let mut place = [0u8; 300];
        let n = saved(GIVEN, &mut place).ok_or(1)?;
        assert!(rt; place.get(..n).ok_or(2)? == WRITTEN);
        let m = saved(WRITTEN, &mut place).ok_or(1)?;
        assert!(rt; place.get(..m).ok_or(2)? == WRITTEN);
        Ok(())
    }

    #[test]
    fn a_new_board_has_two_lines(rt: HostRuntime) -> Result<(), Fail> {
        let mut place = [0u8; 17];
        assert!(rt; saved(b"RBD 1\nregime aar\n", &mut place).is_some());
        assert!(rt; place == *b"RBD 1\nregime aar\n");
        let mut short = [7u8; 16];
        assert!(rt; saved(b"RBD 1\nregime aar\n", &mut short).is_none());
        assert!(rt; short == [7u8; 16]);
        Ok(())
    }
}
