// What stands behind `assign`: an administering role, a condition and targets.
ghost use Rattle.std.specs.Prelude.{◌≡◌};
ghost use Rattle.grammar.specs.Text.{rest};
ghost use Rattle.lines.specs.declared.keyword.Keyword.TheVariants.{Assign};
ghost use Rattle.lines.specs.Clauses.{Clauses, Conditions, Assigns, assigned_ground};
ghost use Rattle.lines.specs.Changes.{Body};

use crate::change::{Change, Extra};
use crate::lists::{entry, roles};
use crate::parts::{Assigned, LEVELS};
use crate::sides::judge;
use grammar::scan::scan;
use grammar::{Ground, Reader, Size};
use meaning::{CONDITION_OPERANDS, ROLES};
use rbac::Role;
use trees::Nodes;
use trees::read::side;

// Measures the condition at the place, whatever its depth, and goes to its end; `true` has no size.
fn clause(r: &mut Reader) -> Option<Option<Size>>
    ensures { Clauses (rest r.old) result (rest r.new) }
{
    if r.takes(b"true") {
        return Some(None);
    }
    let size = scan(r)?;
    if size.roles { Some(Some(size)) } else { None }
}

// Builds the condition at the place, which was measured and found small.
fn condition(r: &mut Reader, size: Option<Size>) -> Option<Option<Nodes>>
    ensures { Conditions (rest r.old) size result }
{
    match size {
        Some(_) => {
            let nodes = side(r, LEVELS)?;
            Some(Some(nodes))
        }
        None => Some(None),
    }
}

// Measures all that stands behind the word.
fn assigning<'a>(r: &mut Reader<'a>) -> Option<Assigned<'a>>
    ensures { Assigns (rest r.old) result }
{
    let admin = entry(r, b'r')?;
    if !r.takes(b" : ") {
        return None;
    }
    let condition = r.rest();
    let size = clause(r)?;
    if !r.takes(b" :") {
        return None;
    }
    let names = roles(r)?;
    Some(Assigned {
        admin,
        condition,
        size,
        names,
    })
}

fn weigh(m: Assigned) -> Result<(), Ground>
    ensures { result ≡ assigned_ground m.entry }
{
    let size = m.size.unwrap_or(Size::empty());
    judge(
        (m.admin < ROLES as u32) & (size.fits & m.names.is_some()),
        (size.operands <= CONDITION_OPERANDS) & (size.levels <= LEVELS as usize),
        true,
    )
}

pub fn assign(r: &mut Reader, extra: &mut Extra) -> Result<Change, Ground>
    ensures { Body Assign (rest r.old) result extra.new }
{
    let m = assigning(r).ok_or(Ground::Syntax)?;
    weigh(m)?;
    let admin = Role::new(m.admin).ok_or(Ground::Range)?;
    let names = m.names.ok_or(Ground::Range)?;
    let mut again = Reader::new(m.condition, r.line());
    extra.condition = condition(&mut again, m.size).ok_or(Ground::Syntax)?;
    extra.twice = names.twice;
    Ok(Change::Assign {
        admin,
        targets: names.roles,
    })
}
