// A whole line: its word decides which reader reads what stands behind it.
ghost use Rattle.std.specs.Prelude.{◌≡◌, find};
ghost use Rattle.grammar.specs.Text.{rest};
ghost use Rattle.lines.specs.Lines.{word as word_of};
ghost use Rattle.texts.specs.Words.{spells, Keywords, Starts};
ghost use Rattle.lines.specs.Changes.{Line};

use grammar::{Ground, Part, Reader};
use lines::assign::assign;
use lines::rows::{pa, revoke, rh, trust, ua};
use lines::sides::{always, never};
use lines::{Change, Extra, Keyword};

const KEYWORDS: [Keyword; 10] = [
    Keyword::Ua,
    Keyword::Pa,
    Keyword::Rh,
    Keyword::Trust,
    Keyword::Assign,
    Keyword::Revoke,
    Keyword::Always,
    Keyword::Never,
    Keyword::Possible,
    Keyword::Necessary,
];

fn spelling(keyword: Keyword) -> &'static [u8]
    ensures { result.now ≡ word_of keyword }
{
    match keyword {
        Keyword::Ua => b"ua",
        Keyword::Pa => b"pa",
        Keyword::Rh => b"rh",
        Keyword::Trust => b"trust",
        Keyword::Assign => b"assign",
        Keyword::Revoke => b"revoke",
        Keyword::Always => b"always",
        Keyword::Never => b"never",
        Keyword::Possible => b"possible",
        Keyword::Necessary => b"necessary",
    }
}

// The first of these keywords that is spelt so.
fn spelt(word: &[u8], among: &[Keyword]) -> Option<Keyword>
    ensures { result ≡ find (spells word.now) among.now }
{
    among.iter().copied().find(|k| spelling(*k) == word)
}

// The keyword of that spelling.
fn keyword(word: &[u8]) -> Option<Keyword>
    ensures { Keywords word.now result }
{
    spelt(word, &KEYWORDS)
}

/// The word that a line or a question begins with.
pub fn begins(r: &mut Reader) -> Option<Keyword>
    ensures { Starts (rest r.old) result (rest r.new) }
{
    match r.token().part {
        Part::Word(word) => keyword(word),
        Part::Number(_) | Part::Sign(_) | Part::End => None,
    }
}

/// Reads the line that all of the rest is.
pub fn read_line(r: &mut Reader, extra: &mut Extra) -> Result<Change, Ground>
    ensures { Line (rest r.old) result extra.new }
{
    let Some(word) = begins(r) else {
        return Err(Ground::Syntax);
    };
    match word {
        Keyword::Ua => ua(r, extra),
        Keyword::Pa => pa(r, extra),
        Keyword::Rh => rh(r, extra),
        Keyword::Trust => trust(r, extra),
        Keyword::Assign => assign(r, extra),
        Keyword::Revoke => revoke(r, extra),
        Keyword::Always => always(r, extra),
        Keyword::Never => never(r, extra),
        Keyword::Possible | Keyword::Necessary => Err(Ground::Syntax),
    }
}
