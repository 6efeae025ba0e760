// Two sets with `>=` between them: what stands behind `always`, `never`, `possible` and `necessary`.
ghost use Rattle.std.specs.Prelude.{◌≡◌};
ghost use Rattle.grammar.specs.Text.{rest};
ghost use Rattle.lines.specs.declared.keyword.Keyword.TheVariants.{Always, Never};
ghost use Rattle.lines.specs.Languages.{judged};
ghost use Rattle.lines.specs.Readings.{Measures, Builds, TwoSides, weighed};
ghost use Rattle.lines.specs.Changes.{Body};

use crate::change::{Change, Extra};
use crate::parts::{LEVELS, Sizes};
use grammar::scan::scan;
use grammar::{Ground, Reader};
use meaning::QUESTION_OPERANDS;
use trees::read::side;

// Measures the two sets without building them, whatever their depth.
fn measure(r: &mut Reader) -> Option<Sizes>
    ensures { Measures (rest r.old) result }
{
    if !r.take(b' ') {
        return None;
    }
    let left = scan(r)?;
    if !r.takes(b" >= ") {
        return None;
    }
    let right = scan(r)?;
    if !r.is_at_end() {
        return None;
    }
    Some(Sizes { left, right })
}

// Builds the two sets, which were measured and found small; so nothing stops it, and no ground is told.
fn build(r: &mut Reader, extra: &mut Extra) -> Option<()>
    ensures { Builds (rest r.old) result extra.new }
{
    if !r.take(b' ') {
        return None;
    }
    extra.left = side(r, LEVELS)?;
    if !r.takes(b" >= ") {
        return None;
    }
    extra.right = side(r, LEVELS)?;
    Some(())
}

/// Refuses a text of which these three are known by the ground of the smallest number.
pub fn judge(ranged: bool, small: bool, semi_static: bool) -> Result<(), Ground>
    ensures { result ≡ judged ranged small semi_static }
{
    if !ranged {
        return Err(Ground::Range);
    }
    if !small {
        return Err(Ground::Measure);
    }
    if !semi_static {
        return Err(Ground::NotSemiStatic);
    }
    Ok(())
}

fn weigh(m: Sizes) -> Result<(), Ground>
    ensures { result ≡ weighed m }
{
    let many = m.left.operands.saturating_add(m.right.operands);
    let deep = m.left.levels.max(m.right.levels);
    judge(
        m.left.fits & m.right.fits,
        (many <= QUESTION_OPERANDS) & (deep <= LEVELS as usize),
        m.left.fixed | m.right.fixed,
    )
}

/// Reads the two sets into what lies beside the change.
pub fn sides(r: &mut Reader, extra: &mut Extra) -> Result<(), Ground>
    ensures { TwoSides (rest r.old) result extra.new }
{
    let mut again = Reader::new(r.rest(), r.line());
    let sizes = measure(r).ok_or(Ground::Syntax)?;
    weigh(sizes)?;
    build(&mut again, extra).ok_or(Ground::Syntax)
}

pub fn always(r: &mut Reader, extra: &mut Extra) -> Result<Change, Ground>
    ensures { Body Always (rest r.old) result extra.new }
{
    sides(r, extra)?;
    Ok(Change::Always)
}

pub fn never(r: &mut Reader, extra: &mut Extra) -> Result<Change, Ground>
    ensures { Body Never (rest r.old) result extra.new }
{
    sides(r, extra)?;
    Ok(Change::Never)
}
