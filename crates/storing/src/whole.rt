// A whole board in its canonical form, into a lent place.
ghost use Rattle.std.specs.Prelude.{◌≡◌, length};
ghost use Rattle.pen.specs.Puts.{Wrote};
ghost use Rattle.saving.specs.Canonical.{Saved};
ghost use Rattle.boardtext.specs.Canonical.{canonical_board};
ghost use Rattle.drafts.specs.View.{book_of};
ghost use Rattle.drafts.specs.Neat.{Neat};

use crate::rows::{put_edges, put_gifts, put_users};
use crate::rules::{put_assigns, put_requirements, put_revokes, put_trust};
use meaning::Regime;
use pen::Writer;
use saving::place::size;
use tables::Tables;

// Writes the board, line by line.
fn put_board(w: &mut Writer, tables: &Tables)
    ensures { Neat tables.now → Wrote w.old (canonical_board (book_of tables.now)) w.new }
{
    w.bytes(b"RBD 1\n");
    match tables.regime {
        Regime::Aatu => w.bytes(b"regime aatu\n"),
        Regime::Aar => w.bytes(b"regime aar\n"),
    }
    put_users(w, tables);
    put_gifts(w, tables);
    put_edges(w, tables);
    put_trust(w, tables);
    put_assigns(w, tables.assigns.entries());
    put_revokes(w, tables.revokes.entries());
    put_requirements(w, tables.requirements.entries());
}

/// How long the text of the board is.
pub fn board_size(tables: &Tables) -> usize
    ensures { ((Neat tables.now → ⊥) → ⊥) → result ≡ length (canonical_board (book_of tables.now)) }
{
    size(|w| put_board(w, tables))
}

/// Writes the one canonical text of the board at the front of the place, and says how long it is; a place that is too short is left as it was.
pub fn save(tables: &Tables, place: &mut [u8]) -> Option<usize>
    ensures { ((Neat tables.now → ⊥) → ⊥) → Saved (canonical_board (book_of tables.now)) place.old result place.new }
{
    saving::place::save(place, |w| put_board(w, tables))
}
