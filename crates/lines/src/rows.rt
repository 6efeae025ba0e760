// Lines that give one number and a list: `ua`, `pa`, `rh`, `trust` and `revoke`, each read from behind its word. The reader
// and what lies beside a change are lent apart, since the latter outlives the text.
ghost use Rattle.std.specs.Prelude.{◌≡◌, ℕ, false};
ghost use Rattle.grammar.specs.Text.{rest, begins_digit};
ghost use Rattle.lines.specs.declared.keyword.Keyword.TheVariants.{Ua, Pa, Rh, Trust, Revoke};
ghost use Rattle.lines.specs.Readings.{RowRead, Makes};
ghost use Rattle.lines.specs.Changes.{Body};

use crate::change::{Change, Extra};
use crate::lists::{entry, roles, user, users};
use crate::parts::Row;
use grammar::{Ground, Reader};
use rbac::{Permission, Role};

// A number, what stands between, and roles to the end of the text; a role or a number out of range is refused only
// where all else is written as it must be.
fn row<N: Copy, F: FnOnce(u32) -> Option<N>>(
    r: &mut Reader,
    letter: u8,
    between: &[u8],
    subject: F,
) -> Result<Row<N>, Ground>
    requires { F.IsAlwaysCallable subject }
    ensures { (limit : ℕ) (of : N → ℕ) → Makes limit of (F.post subject) → begins_digit between.now ≡ false → RowRead letter limit between.now (rest r.old) of result }
{
    let number = entry(r, letter).ok_or(Ground::Syntax)?;
    if !r.takes(between) {
        return Err(Ground::Syntax);
    }
    let named = roles(r).ok_or(Ground::Syntax)?;
    let names = named.ok_or(Ground::Range)?;
    let subject = subject(number).ok_or(Ground::Range)?;
    Ok(Row { subject, names })
}

pub fn ua(r: &mut Reader, extra: &mut Extra) -> Result<Change, Ground>
    ensures { Body Ua (rest r.old) result extra.new }
{
    let row = row(r, b'u', b"", user)?;
    extra.twice = row.names.twice;
    Ok(Change::Ua {
        user: row.subject,
        roles: row.names.roles,
    })
}

pub fn pa(r: &mut Reader, extra: &mut Extra) -> Result<Change, Ground>
    ensures { Body Pa (rest r.old) result extra.new }
{
    let row = row(r, b'p', b"", Permission::new)?;
    extra.twice = row.names.twice;
    Ok(Change::Pa {
        permission: row.subject,
        roles: row.names.roles,
    })
}

pub fn rh(r: &mut Reader, extra: &mut Extra) -> Result<Change, Ground>
    ensures { Body Rh (rest r.old) result extra.new }
{
    let row = row(r, b'r', b"", Role::new)?;
    extra.twice = row.names.twice;
    Ok(Change::Rh {
        senior: row.subject,
        juniors: row.names.roles,
    })
}

pub fn revoke(r: &mut Reader, extra: &mut Extra) -> Result<Change, Ground>
    ensures { Body Revoke (rest r.old) result extra.new }
{
    let row = row(r, b'r', b" :", Role::new)?;
    extra.twice = row.names.twice;
    Ok(Change::Revoke {
        admin: row.subject,
        targets: row.names.roles,
    })
}

pub fn trust(r: &mut Reader, extra: &mut Extra) -> Result<Change, Ground>
    ensures { Body Trust (rest r.old) result extra.new }
{
    users(r, extra)?;
    Ok(Change::Trust)
}
