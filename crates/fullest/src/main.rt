// Answers a question about the fullest boards: each byte of standard input names one of them, f, b or w.
#![tactic(auto)]

mod boards;

use boards::{Order, board, question};
use deciding::RunStep;
use meaning::{LIST_PLACES, WORK_WORDS};
use std::io;
use std::io::Read;
use verdicts::decide;

// So many questions are asked at most.
const MOST: usize = 1000;

// Answers the question about one board, and prints the verdict with the steps of the run that shows it.
fn answer(rt: &HostRuntime, name: char, order: Order) -> io::Result<()> {
    let (Some(board), Some(asked)) = (board(order), question()) else {
        return println!(rt; "{name} is no board");
    };
    let mut list = [RunStep::blank(); LIST_PLACES];
    let mut work = [0; WORK_WORDS];
    match decide(&board, &asked, &mut list, &mut work) {
        Ok(verdict) => {
            let yes = verdict.yes;
            let steps = verdict.run.map_or(0, |run| run.steps);
            println!(rt; "{name} {yes} {steps}")
        }
        Err(_) => println!(rt; "{name} too short"),
    }
}

fn main(rt: HostRuntime) -> io::Result<()> {
    let mut place = [0u8; MOST];
    let len = rt.stdin().read(&mut place)?;
    for name in place.iter().take(len) {
        match name {
            b'f' => answer(&rt, 'f', Order::Forward)?,
            b'b' => answer(&rt, 'b', Order::Backward)?,
            b'w' => answer(&rt, 'w', Order::Wide)?,
            _ => {}
        }
    }
    Ok(())
}
