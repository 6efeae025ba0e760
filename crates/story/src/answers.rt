// What each line of a story is answered.
use crate::calls::Line;
use book::Refusal;
use deciding::RunStep;
use pen::Writer;
use report::{write_answer, write_failure, write_refusal};
use stories::{Reply, Story};

// A refusal, with the run of a requirement that would fail.
fn refused(w: &mut Writer, refusal: Refusal, list: &[RunStep]) {
    write_refusal(w, refusal);
    write_failure(w, refusal.cause, list);
}

fn replied(w: &mut Writer, reply: Reply, list: &[RunStep]) {
    match reply {
        Reply::Done => w.bytes(b"done\n"),
        Reply::Truth(true) => w.bytes(b"yes\n"),
        Reply::Truth(false) => w.bytes(b"no\n"),
        Reply::Verdict(answer) => write_answer(w, &answer, list),
    }
}

fn answered(w: &mut Writer, answer: Result<Reply, Refusal>, list: &[RunStep]) {
    match answer {
        Ok(reply) => replied(w, reply, list),
        Err(refusal) => refused(w, refusal, list),
    }
}

// Makes the call of a line, and writes its answer into the place: how much was written.
pub(crate) fn answer(
    story: &mut Story,
    line: Line,
    list: &mut [RunStep],
    work: &mut [u64],
    place: &mut [u8],
) -> usize {
    match line {
        Line::Save => story.board().save(place).unwrap_or(0),
        Line::Call(call) => {
            let answer = story.call(call, list, work);
            let mut w = Writer { place, len: 0 };
            answered(&mut w, answer, list);
            w.len
        }
        Line::Unknown => {
            let mut w = Writer { place, len: 0 };
            w.bytes(b"unknown call\n");
            w.len
        }
    }
}
