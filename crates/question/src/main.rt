// Reads a question and a board text from standard input, and prints the report, or the line of what refuses it, and nothing else.
#![tactic(auto)]

use deciding::RunStep;
use meaning::{LIST_PLACES, WORK_WORDS};
use report::answer_input;
use std::io;
use std::io::{Read, Write};

// A first line, and a line of fewer than 40 bytes for each of at most 8,512 steps.
const LONGEST_REPORT: usize = 400_000;

fn main(rt: HostRuntime) -> io::Result<()> {
    let mut input = Vec::new(rt.alloc());
    rt.stdin().read_to_end(&mut input)?;
    let mut place = vec![in rt.alloc(); 0u8; LONGEST_REPORT]?;
    let mut list = [RunStep::blank(); LIST_PLACES];
    let mut work = [0u64; WORK_WORDS];
    let size = answer_input(&input, &mut list, &mut work, &mut place);
    rt.stdout().write_all(&place[..size])
}
