// One call of a story, made on the board that the calls before it left.
ghost use Rattle.std.specs.Prelude.{◌≡◌, ℕ, length, slice_index};
ghost use Rattle.board.specs.View.{says};
ghost use Rattle.board.specs.Answers.{Lent};
ghost use Rattle.book.specs.Book.{new_book};
ghost use Rattle.stories.specs.View.{book_in};
ghost use Rattle.stories.specs.Calls.{call_on, reply_by, Called};

use crate::call::{Call, Reply};
use crate::numbers::{add, has_permission, is_member, remove};
use crate::story::Story;
use board::Board;
use book::Refusal;
use deciding::RunStep;
use verdicts::Work;

// Makes the call with a work table that is wiped by the caller.
fn make(
    board: &mut Board,
    call: Call,
    list: &mut [RunStep],
    work: &mut [u64],
) -> Result<Reply, Refusal>
    ensures { Lent (call_on call.entry) list.old (length work.old) (says board.old) (reply_by result) (says board.new) list.new }
{
    match call {
        Call::Open(text) => board.open(text, list, work).map(|()| Reply::Done),
        Call::Change(text) => board.change(text, list, work).map(|()| Reply::Done),
        Call::Ask(text) => board.ask(text, list, work).map(Reply::Verdict),
        Call::Add { actor, user, role } => add(board, actor, user, role).map(|()| Reply::Done),
        Call::Remove { actor, user, role } => {
            remove(board, actor, user, role).map(|()| Reply::Done)
        }
        Call::Member { user, role } => is_member(board, user, role).map(Reply::Truth),
        Call::Permission { user, permission } => {
            has_permission(board, user, permission).map(Reply::Truth)
        }
    }
}

impl Story {
    /// A story of no call yet: its board is under `aatu` and holds nothing else.
    pub fn new() -> Story
        ensures { book_in result ≡ new_book }
    {
        let board = Board::new();
        Story { board }
    }

    /// The board that the calls so far left.
    pub fn board(&self) -> &Board
        ensures { result.now ≡ self.now.board }
    {
        &self.board
    }

    /// Makes the next call: what it is answered, or why it is refused (docs/REFUSALS.md).
    ///
    /// Opening, changing and asking need a list of 8,512 places and a work table of 133 words (docs/MEASURES.md), else they are refused with 7.
    /// The list holds the run that shows an answer or a failed requirement at its front, and is else as it was; every word of the work table is zero.
    pub fn call(
        &mut self,
        call: Call,
        list: &mut [RunStep],
        work: &mut [u64],
    ) -> Result<Reply, Refusal>
        ensures promised { Called call.entry list.old (length work.old) (book_in self.old) result (book_in self.new) list.new }
        ensures clean { (k : ℕ) → slice_index work.new k ≡ 0 }
    {
        let guard = Work { words: work };
        let mut board = self.board;
        let answer = make(&mut board, call, list, guard.words);
        *self = Story { board };
        answer
    }
}
