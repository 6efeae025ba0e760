// Questions and officers' changes: a text of their own, of one line.
ghost use Rattle.std.specs.Prelude.{◌≡◌, ◌<◌, ◌≤◌, length, MatchResult};
ghost use Rattle.grammar.specs.Text.{rest};
ghost use Rattle.lines.specs.Lines.{questions};
ghost use Rattle.texts.specs.Answers.{Answer, changes};
ghost use Rattle.texts.specs.Lengths.{longest_line};
ghost use Rattle.texts.specs.Sentences.{Asked, Changed, Asks, Orders};
ghost use Rattle.texts.specs.declared.faults.Fault.TheVariants.{TooLong, InLine as in_line};

use crate::faults::{Fault, Order, Way};
use crate::line::{begins, read_line};
use grammar::{Ground, Reader};
use lines::sides::sides;
use lines::{Extra, Keyword};
use meaning::Kind;

const LONGEST: usize = 1024;

// The question that all of the rest is.
fn asked(r: &mut Reader, extra: &mut Extra) -> Result<Kind, Ground>
    ensures { Asked (rest r.old) result extra.new }
{
    let Some(word) = begins(r) else {
        return Err(Ground::Syntax);
    };
    let kind = match word {
        Keyword::Possible => Kind::Possible,
        Keyword::Necessary => Kind::Necessary,
        _ => return Err(Ground::Syntax),
    };
    sides(r, extra)?;
    Ok(kind)
}

// The change that all of the rest is.
fn changed(r: &mut Reader, extra: &mut Extra) -> Result<Order, Ground>
    ensures { Changed (rest r.old) result extra.new }
{
    let way = match r.sign() {
        Some('+') => Way::Add,
        Some('-') => Way::Remove,
        _ => return Err(Ground::Syntax),
    };
    r.skip();
    let change = read_line(r, extra)?;
    Ok(Order { way, change })
}

// The reader of a text of one line, unless the text is too long.
fn single(text: &[u8]) -> Result<Reader<'_>, Fault>
    ensures { MatchResult result (λ r. (length text.now ≤ longest_line) × (rest r ≡ text.now)) (λ f. (f ≡ TooLong) × (longest_line < length text.now)) }
{
    if text.len() > LONGEST {
        return Err(Fault::TooLong);
    }
    Ok(Reader::new(text, 1))
}

// The fault of a text whose only line is refused.
fn refused(ground: Ground) -> Fault
    ensures { result ≡ in_line ground 1 }
{
    Fault::InLine { ground, line: 1 }
}

/// Reads a question; its two sets lie beside it.
pub fn read_question(text: &[u8], extra: &mut Extra) -> Result<Kind, Fault>
    ensures { Answer questions text.now (Asks extra.new) result }
{
    let mut r = single(text)?;
    asked(&mut r, extra).map_err(refused)
}

/// Reads an officer's change; its trusted users and its trees lie beside it.
pub fn read_change(text: &[u8], extra: &mut Extra) -> Result<Order, Fault>
    ensures { Answer changes text.now (Orders extra.new) result }
{
    let mut r = single(text)?;
    changed(&mut r, extra).map_err(refused)
}
