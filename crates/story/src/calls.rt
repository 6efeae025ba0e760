// Calls as they are written, one to a line.
ghost use Rattle.std.specs.Prelude.{◌≤◌, length};
ghost use Rattle.grammar.specs.Text.{rest};

use grammar::Reader;
use stories::Call;
use texts::board::cut;

// What one line asks for; the text of a board stands in the lines that follow.
#[derive(Clone, Copy)]
pub(crate) enum Line<'a> {
    Call(Call<'a>),
    Save,
    Unknown,
}

// A letter and a number.
fn named(r: &mut Reader, letter: u8) -> Option<u32> {
    if r.take(letter) { r.number() } else { None }
}

// An actor, a user and a role, with a blank between two of them.
fn three(r: &mut Reader) -> Option<(u32, u32, u32)> {
    let actor = named(r, b'u')?;
    if !r.take(b' ') {
        return None;
    }
    let (user, role) = two(r, b'r')?;
    Some((actor, user, role))
}

// A user, and something else at the end of the line.
fn two(r: &mut Reader, letter: u8) -> Option<(u32, u32)> {
    let user = named(r, b'u')?;
    if !r.take(b' ') {
        return None;
    }
    let other = named(r, letter)?;
    if r.is_at_end() {
        Some((user, other))
    } else {
        None
    }
}

// A call that names numbers.
fn numbered<'a>(line: &'a [u8]) -> Option<Call<'a>> {
    let mut r = Reader::new(line, 1);
    if r.takes(b"add ") {
        let (actor, user, role) = three(&mut r)?;
        return Some(Call::Add { actor, user, role });
    }
    if r.takes(b"remove ") {
        let (actor, user, role) = three(&mut r)?;
        return Some(Call::Remove { actor, user, role });
    }
    if r.takes(b"member ") {
        let (user, role) = two(&mut r, b'r')?;
        return Some(Call::Member { user, role });
    }
    if r.takes(b"permission ") {
        let (user, permission) = two(&mut r, b'p')?;
        return Some(Call::Permission { user, permission });
    }
    None
}

// The lines up to one that is `end`; all that is left where there is none.
fn board_text<'a>(r: &mut Reader<'a>) -> &'a [u8]
    ensures { length (rest r.new) ≤ length (rest r.old) }
{
    let start = r.rest();
    let mut len = 0usize;
    'lines: while let Some(line) = cut(r) {
        if line == b"end".as_slice() {
            return start.get(..len).unwrap_or(start);
        }
        len = len.saturating_add(line.len()).saturating_add(1);
    }
    start
}

// The call that a line asks for, with the board text that follows it.
pub(crate) fn read_call<'a>(line: &'a [u8], r: &mut Reader<'a>) -> Line<'a>
    ensures { length (rest r.new) ≤ length (rest r.old) }
{
    match line.first() {
        Some(b'+') | Some(b'-') => return Line::Call(Call::Change(line)),
        _ => {}
    }
    if line == b"board".as_slice() {
        return Line::Call(Call::Open(board_text(r)));
    }
    if line == b"save".as_slice() {
        return Line::Save;
    }
    if line.starts_with(b"possible ") || line.starts_with(b"necessary ") {
        return Line::Call(Call::Ask(line));
    }
    match numbered(line) {
        Some(call) => Line::Call(call),
        None => Line::Unknown,
    }
}
