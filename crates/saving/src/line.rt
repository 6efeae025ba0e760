// Lines in their canonical form, into a lent place. The writer and what lies beside a change are two parameters: a struct
// of both would lend again what is lent to `line`, and each promise would name the text through two references.
ghost use Rattle.std.specs.Prelude.{◌≤◌, length};
ghost use Rattle.pen.specs.Puts.{Wrote};
ghost use Rattle.lines.specs.Lines.{Sentence, Fine};
ghost use Rattle.saving.specs.RoundTrip.{Fits, value_of, ReadBack, RoundTrip};
ghost use Rattle.saving.specs.Canonical.{canonical, Trees, AssignTrees, SideTrees, Saved, role_row, condition_text, assign_text, side_text, trust_text};
ghost use Rattle.lines.specs.Changes.{Means};

use crate::place::save;
use grammar::{Ground, Reader};
use lines::{Change, Extra};
use pen::write::write;
use pen::{Spot, Writer};
use rbac::RoleSet;
use texts::line::read_line;

// A word with its letter, a number, what stands between, and roles. Words are written with the signs that follow them, so they are not the reader's table.
fn row(w: &mut Writer, word: &[u8], number: u64, between: &[u8], roles: RoleSet)
    ensures { Wrote w.old (role_row word.now number between.now roles) w.new }
{
    w.bytes(word);
    w.number(number);
    w.bytes(between);
    w.roles(roles);
}

// `true`, or the set beside the change.
fn condition(w: &mut Writer, extra: &Extra)
    ensures { AssignTrees extra.now → Wrote w.old (condition_text extra.now.condition) w.new }
{
    match &extra.condition {
        Some(nodes) => write(w, nodes.entries(), Spot::Set),
        None => w.bytes(b"true"),
    }
}

// `assign`, with its condition.
fn assign(w: &mut Writer, admin: u64, extra: &Extra, targets: RoleSet)
    ensures { AssignTrees extra.now → Wrote w.old (assign_text admin targets extra.now) w.new }
{
    w.bytes(b"assign r");
    w.number(admin);
    w.bytes(b" : ");
    condition(w, extra);
    w.bytes(b" :");
    w.roles(targets);
}

// A word and the two sets beside the change.
fn sides(w: &mut Writer, word: &[u8], extra: &Extra)
    ensures { SideTrees extra.now → Wrote w.old (side_text word.now extra.now) w.new }
{
    w.bytes(word);
    write(w, extra.left.entries(), Spot::Set);
    w.bytes(b" >= ");
    write(w, extra.right.entries(), Spot::Set);
}

// The users beside a `trust` line.
fn trust(w: &mut Writer, extra: &Extra)
    ensures { Wrote w.old (trust_text extra.now) w.new }
{
    w.bytes(b"trust");
    w.users(extra.trusted.entries());
}

/// Writes the line that says the change, without the byte that ends it.
pub fn line(w: &mut Writer, change: Change, extra: &Extra)
    ensures { Trees change extra.now → Wrote w.old (canonical change extra.now) w.new }
{
    match change {
        Change::Ua { user, roles } => row(w, b"ua u", user.number() as u64, b"", roles),
        Change::Pa { permission, roles } => row(w, b"pa p", permission.number() as u64, b"", roles),
        Change::Rh { senior, juniors } => row(w, b"rh r", senior.number() as u64, b"", juniors),
        Change::Trust => trust(w, extra),
        Change::Assign { admin, targets } => assign(w, admin.number() as u64, extra, targets),
        Change::Revoke { admin, targets } => row(
            w,
            b"revoke r",
            admin.number() as u64,
            b" :",
            targets,
        ),
        Change::Always => sides(w, b"always ", extra),
        Change::Never => sides(w, b"never ", extra),
    }
}

/// Writes the line at the front of the place, and says how long it is; a place that is too short is left as it was.
pub fn write_line(place: &mut [u8], change: Change, extra: &Extra) -> Option<usize>
    ensures { Trees change extra.now → Saved (canonical change extra.now) place.old result place.new }
{
    save(place, |w| line(w, change, extra))
}

/// Writes the line and reads it back: what comes back says what the line said.
pub fn again(
    place: &mut [u8],
    change: Change,
    extra: &Extra,
    out: &mut Extra,
) -> Option<Result<Change, Ground>>
    ensures same { (x : Sentence) → Fine x → Fits x.keyword x.body → Means x.keyword x.body change extra.now → length (canonical change extra.now) ≤ length place.old → ReadBack (value_of x.keyword x.body) result out.new }
    ensures trip { RoundTrip }
{
    let n = write_line(place, change, extra)?;
    let written = place.get(..n)?;
    let mut r = Reader::new(written, 1);
    Some(read_line(&mut r, out))
}
