// A board text, line by line: its mark and regime first, then one line after the other.
ghost use Rattle.std.specs.Prelude.{◌≡◌, ◌+◌, min};
ghost use Rattle.grammar.specs.Text.{rest};
ghost use Rattle.texts.specs.Board.{goes_on as inside_line, Cuts, Begins, Third, Comes, Counts};

use crate::faults::Fault;
use crate::line::read_line;
use grammar::read::run_length;
use grammar::{Ground, Reader};
use lines::{Change, Extra};
use meaning::Regime;

const LONGEST: usize = 65536;

const END: u8 = 10;

fn goes_on(b: u8) -> bool
    ensures { result ≡ inside_line b }
{
    b != END
}

/// Cuts off the next line, a part of the text without the byte that ends it; none where no such byte follows.
pub fn cut<'a>(r: &mut Reader<'a>) -> Option<&'a [u8]>
    ensures read { Cuts (rest r.old) result (rest r.new) }
    ensures line { r.new.line ≡ min (r.old.line + 1) 18446744073709551615 }
{
    let left = r.rest();
    let line = r.line().saturating_add(1);
    let end = run_length(left, goes_on);
    if end == left.len() {
        *r = Reader::new(left, line);
        return None;
    }
    *r = Reader::new(&left[end + 1..], line);
    Some(&left[..end])
}

/// The first two lines of a board text, whose reader stands at its start.
pub fn begin(r: &mut Reader) -> Result<Regime, Fault>
    ensures read { Begins (rest r.old) result (rest r.new) }
    ensures line { Third result r.new.line }
{
    if r.rest().len() > LONGEST {
        return Err(Fault::TooLong);
    }
    if !r.takes(b"RBD 1\n") {
        return Err(Fault::Mark);
    }
    let regime = if r.takes(b"regime aatu\n") {
        Regime::Aatu
    } else if r.takes(b"regime aar\n") {
        Regime::Aar
    } else {
        return Err(Fault::InLine {
            ground: Ground::Syntax,
            line: 2,
        });
    };
    *r = Reader::new(r.rest(), 3);
    Ok(regime)
}

/// The next line of a board text; none at its end.
pub fn next(r: &mut Reader, extra: &mut Extra) -> Result<Option<Change>, Fault>
    ensures read { Comes r.old.line (rest r.old) result (rest r.new) extra.new }
    ensures line { Counts result r.old.line r.new.line }
{
    if r.is_at_end() {
        return Ok(None);
    }
    let line = r.line();
    let Some(text) = cut(r) else {
        return Err(Fault::InLine {
            ground: Ground::Syntax,
            line,
        });
    };
    let mut inner = Reader::new(text, line);
    match read_line(&mut inner, extra) {
        Ok(change) => Ok(Some(change)),
        Err(ground) => Err(Fault::InLine { ground, line }),
    }
}
