// Whatever takes a story's calls.
ghost use Rattle.std.specs.Prelude.{◌≡◌, ℕ, length, slice_index};
ghost use Rattle.book.specs.Book.{Book};
ghost use Rattle.stories.specs.View.{book_in};
ghost use Rattle.stories.specs.Calls.{Called};

use crate::call::{Call, Reply};
use crate::story::Story;
use book::Refusal;
use deciding::RunStep;

/// A board that takes calls, by its book: every call comes to what is promised of it there.
pub trait Calls {
    ghost book: { Self → Book };

    /// Makes one call, as `Story::call` does.
    fn make(&mut self, call: Call, list: &mut [RunStep], work: &mut [u64]) -> Result<Reply, Refusal>
        ensures promised { Called call.entry list.old (length work.old) (book self.old) result (book self.new) list.new }
        ensures clean { (k : ℕ) → slice_index work.new k ≡ 0 };
}

impl Calls for Story {
    ghost book = { book_in };

    fn make(
        &mut self,
        call: Call,
        list: &mut [RunStep],
        work: &mut [u64],
    ) -> Result<Reply, Refusal> {
        self.call(call, list, work)
    }
}
