// Reads a board text from standard input, and prints each of its lines in canonical form, or the refusal of the text and nothing else.
#![tactic(auto)]

mod refusal;

use console::fill;
use grammar::Reader;
use lines::{Change, Extra};
use meaning::{Regime, TRUSTED_USERS};
use refusal::Refusal;
use saving::line::write_line;
use std::io;
use std::io::Write;
use survey::check;
use texts::board::{begin, next};

// One byte more than a board text may have, so that a text that is too long is seen.
const MOST: usize = 65537;

// No line that is not refused is as long in canonical form.
const LONGEST_LINE: usize = 2048;

// Prints the line that says the change.
fn show<W: Write>(out: &mut W, change: Change, extra: &Extra) -> io::Result<()> {
    let mut line = [0u8; LONGEST_LINE];
    if let Some(n) = write_line(&mut line, change, extra) {
        if n < LONGEST_LINE {
            line[n] = b'\n';
            out.write_all(&line[..n + 1])?;
        }
    }
    Ok(())
}

// Refuses a text for its first fault, or else for the first line that trusts more users than a board has places for;
// only so many lie beside a change.
fn examine(text: &[u8], extra: &mut Extra) -> Result<(), Refusal> {
    check(text, extra)?;
    let mut reader = Reader::new(text, 1);
    begin(&mut reader)?;
    // The number of a line is asked of the reader before the line is read, so no iterator hands out the lines.
    'lines: loop {
        let line = reader.line();
        match next(&mut reader, extra)? {
            Some(Change::Trust) => {
                if extra.many > TRUSTED_USERS {
                    return Err(Refusal::Crowded { line });
                }
            }
            Some(_) => {}
            None => return Ok(()),
        }
    }
}

// Prints the lines of a text that nothing refuses.
fn print_lines<W: Write>(out: &mut W, text: &[u8], extra: &mut Extra) -> io::Result<()> {
    let mut reader = Reader::new(text, 1);
    match begin(&mut reader) {
        Ok(Regime::Aatu) => out.write_all(b"RBD 1\nregime aatu\n")?,
        Ok(Regime::Aar) => out.write_all(b"RBD 1\nregime aar\n")?,
        Err(_) => return Ok(()),
    }
    'lines: while let Ok(Some(change)) = next(&mut reader, extra) {
        show(out, change, extra)?;
    }
    Ok(())
}

fn main(rt: HostRuntime) -> io::Result<()> {
    let mut place = [0u8; MOST];
    let mut input = rt.stdin();
    let len = fill(&mut input, &mut place)?;
    let text = &place[..len];
    let mut extra = Extra::new();
    if let Err(refusal) = examine(text, &mut extra) {
        return println!(rt; "{refusal}");
    }
    let mut out = rt.stdout();
    print_lines(&mut out, text, &mut extra)
}
