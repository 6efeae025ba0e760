// Stories of many calls.
ghost use Rattle.std.specs.Prelude.{◌≡◌, ℕ, length, map, slice_index};
ghost use Rattle.stories.specs.Told.{Told, asked_in};

use crate::calls::Calls;
use crate::turn::Turn;
use deciding::RunStep;
use verdicts::Work;

/// Makes the calls of all turns, one after another, and writes into each turn what its call is answered.
///
/// Of the list and the work table each call is lent as many places and words as its turn says, or all there are. A run is written at the front of the list, where a later call's run takes its place. Every word of the work table is zero at the end.
pub fn tell<C: Calls>(board: &mut C, turns: &mut [Turn], list: &mut [RunStep], work: &mut [u64])
    ensures told { Told (length work.old) (C.book board.old) list.old turns.new (C.book board.new) list.new }
    ensures calls { map asked_in turns.new ≡ map asked_in turns.old }
    ensures clean { (k : ℕ) → slice_index work.new k ≡ 0 }
{
    let guard = Work { words: work };
    for turn in turns.iter_mut() {
        let places = turn.list.min(list.len());
        let words = turn.work.min(guard.words.len());
        turn.answer = board.make(turn.call, &mut list[..places], &mut guard.words[..words]);
    }
}
