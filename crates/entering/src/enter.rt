// A line is put in, or taken out, by its kind.
ghost use Rattle.std.specs.Prelude.{◌≡◌};
ghost use Rattle.texts.specs.declared.faults.Way.TheVariants.{Add as adding, Remove as removing};
ghost use Rattle.book.specs.Entering.{Entered, Readable};
ghost use Rattle.drafts.specs.View.{book_of};
ghost use Rattle.drafts.specs.Neat.{Neat};
ghost use Rattle.entering.specs.Laid.{Laid};
ghost use Rattle.entering.specs.Entries.{assign_entry, requirement_entry};
ghost use Rattle.book.specs.Says.{line_entry};

use crate::{assigns, edges, gifts, pairs, requirements, revokes, trusts};
use book::Cause;
use lines::{Change, Extra};
use rbac::{Role, RoleSet};
use tables::{AssignEntry, Demand, Needs, RequirementEntry, RevokeEntry, Tables};
use texts::Way;

// The assign rule that a line names.
fn rule(admin: Role, targets: RoleSet, extra: &Extra) -> AssignEntry
    ensures { result ≡ assign_entry admin targets extra.now }
{
    let needs = match extra.condition {
        None => Needs::Everybody,
        Some(nodes) => Needs::Roles(nodes),
    };
    AssignEntry {
        admin,
        needs,
        targets,
    }
}

// The requirement that a line names.
fn requirement(demand: Demand, extra: &Extra) -> RequirementEntry
    ensures { result ≡ requirement_entry demand extra.now }
{
    RequirementEntry {
        demand,
        larger: extra.left,
        smaller: extra.right,
    }
}

fn add(tables: &mut Tables, change: Change, extra: &Extra) -> Result<(), Cause>
    requires laid { Laid tables.old }
    requires readable { Readable change extra.now }
    ensures entered { (e : Readable change extra.now) → Entered adding (book_of tables.old) (line_entry e.line) result (book_of tables.new) }
    ensures laid { Laid tables.new }
{
    match change {
        Change::Ua { user, roles } => pairs::add(tables, user, roles, extra),
        Change::Pa { permission, roles } => gifts::add(tables, permission, roles, extra),
        Change::Rh { senior, juniors } => edges::add(tables, senior, juniors, extra),
        Change::Trust => trusts::add(tables, extra),
        Change::Assign { admin, targets } => {
            assigns::add(tables, &rule(admin, targets, extra), extra)
        }
        Change::Revoke { admin, targets } => {
            revokes::add(tables, RevokeEntry { admin, targets }, extra)
        }
        Change::Always => requirements::add(tables, &requirement(Demand::Always, extra)),
        Change::Never => requirements::add(tables, &requirement(Demand::Never, extra)),
    }
}

fn remove(tables: &mut Tables, change: Change, extra: &Extra) -> Result<(), Cause>
    requires laid { Laid tables.old }
    requires readable { Readable change extra.now }
    ensures entered { (e : Readable change extra.now) → Entered removing (book_of tables.old) (line_entry e.line) result (book_of tables.new) }
    ensures laid { Laid tables.new }
{
    match change {
        Change::Ua { user, roles } => pairs::remove(tables, user, roles, extra),
        Change::Pa { permission, roles } => gifts::remove(tables, permission, roles, extra),
        Change::Rh { senior, juniors } => edges::remove(tables, senior, juniors, extra),
        Change::Trust => trusts::remove(tables, extra),
        Change::Assign { admin, targets } => {
            assigns::remove(tables, &rule(admin, targets, extra), extra)
        }
        Change::Revoke { admin, targets } => {
            revokes::remove(tables, RevokeEntry { admin, targets }, extra)
        }
        Change::Always => requirements::remove(tables, &requirement(Demand::Always, extra)),
        Change::Never => requirements::remove(tables, &requirement(Demand::Never, extra)),
    }
}

pub(crate) fn enter(
    tables: &mut Tables,
    way: Way,
    change: Change,
    extra: &Extra,
) -> Result<(), Cause>
    requires neat { (Neat tables.old → ⊥) → ⊥ }
    requires readable { Readable change extra.now }
    ensures entered { (e : Readable change extra.now) → Entered way (book_of tables.old) (line_entry e.line) result (book_of tables.new) }
    ensures laid { (Laid tables.new → ⊥) → ⊥ }
{
    match way {
        Way::Add => add(tables, change, extra),
        Way::Remove => remove(tables, change, extra),
    }
}
