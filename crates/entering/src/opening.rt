// A whole board text, put into a draft of its own line by line.
ghost use Rattle.std.specs.Prelude.{◌≡◌, ℕ, ◌+◌, ◌≤◌, length};
ghost use Rattle.grammar.specs.Text.{rest};
ghost use Rattle.drafts.specs.View.{book_of};
ghost use Rattle.entering.specs.Opening.{OneLine, Counted, LinesPut, Opened};

use crate::keeping::enter_in;
use book::Refusal;
use drafts::Draft;
use grammar::Reader;
use lines::Extra;
use texts::Way;
use texts::board::{begin, next};

// Puts in what the next line names; false where the text has ended.
fn put_line(r: &mut Reader, draft: &mut Draft, extra: &mut Extra) -> Result<bool, Refusal>
    ensures put { OneLine r.old.line (rest r.old) (book_of draft.old.tables) result (rest r.new) (book_of draft.new.tables) }
    ensures line { Counted result r.old.line r.new.line }
{
    let line = r.line();
    match next(r, extra) {
        Ok(None) => Ok(false),
        Ok(Some(change)) => match enter_in(draft, Way::Add, change, extra) {
            Ok(()) => Ok(true),
            Err(cause) => Err(Refusal { cause, line }),
        },
        Err(fault) => Err(Refusal::from(fault)),
    }
}

// Puts in what all lines that follow name, up to the first faulty one.
fn put_lines(r: &mut Reader, draft: &mut Draft) -> Result<(), Refusal>
    requires { r.old.line + length (rest r.old) ≤ 100000 }
    ensures { LinesPut r.old.line (rest r.old) (book_of draft.old.tables) result (book_of draft.new.tables) }
{
    let mut extra = Extra::new();
    'lines: while put_line(r, draft, &mut extra)? {}
    Ok(())
}

/// The draft that a board text says, before it is weighed as a whole.
pub fn opened(text: &[u8]) -> Result<Draft, Refusal>
    ensures { Opened text.now result }
{
    let mut r = Reader::new(text, 1);
    let regime = begin(&mut r)?;
    let mut draft = Draft::blank(regime);
    put_lines(&mut r, &mut draft)?;
    Ok(draft)
}
