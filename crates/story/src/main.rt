// Tells a story: reads calls from standard input, one to a line, makes them on a new board, and prints each line and its answer.
#![tactic(auto)]

mod answers;
mod calls;

use answers::answer;
use calls::read_call;
use deciding::RunStep;
use grammar::Reader;
use meaning::{LIST_PLACES, WORK_WORDS};
use std::io;
use std::io::{Read, Write};
use stories::Story;
use texts::board::cut;

// An answer is a run of at most 8,512 steps, each told in fewer than 40 bytes, or a board text.
const LONGEST_ANSWER: usize = 400_000;

// Makes the calls of the input in turn, and prints each line and its answer.
fn tell_all<W: Write>(out: &mut W, input: &[u8], place: &mut [u8]) -> io::Result<()> {
    let mut list = [RunStep::blank(); LIST_PLACES];
    let mut work = [0; WORK_WORDS];
    let mut r = Reader::new(input, 1);
    let mut story = Story::new();
    'calls: while let Some(line) = cut(&mut r) {
        let call = read_call(line, &mut r);
        out.write_all(b"> ")?;
        out.write_all(line)?;
        out.write_all(b"\n")?;
        let size = answer(&mut story, call, &mut list, &mut work, place);
        out.write_all(&place[..size.min(place.len())])?;
    }
    Ok(())
}

fn main(rt: HostRuntime) -> io::Result<()> {
    let mut input = Vec::new(rt.alloc());
    rt.stdin().read_to_end(&mut input)?;
    let mut place = vec![in rt.alloc(); 0u8; LONGEST_ANSWER]?;
    tell_all(&mut rt.stdout(), &input, &mut place)
}
