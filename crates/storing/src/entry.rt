// One line of a board, and the byte that ends it.
ghost use Rattle.std.specs.Prelude.{◌≡◌, ℕ, List, []};
ghost use Rattle.rbac.specs.Roles.{roles_of};
ghost use Rattle.lines.specs.declared.change.Extra.{Extra as AnExtra};
ghost use Rattle.pen.specs.Puts.{Wrote};
ghost use Rattle.pen.specs.Ascending.{ascending};
ghost use Rattle.saving.specs.Canonical.{canonical, Trees, role_row};
ghost use Rattle.boardtext.specs.Canonical.{ended, row_line};

use lines::{Change, Extra};
use pen::Writer;
use rbac::RoleSet;
use saving::line::line;

// Writes the line that says the change, to its end.
pub(crate) fn put(w: &mut Writer, change: Change, beside: &Extra)
    ensures { Trees change beside.now → Wrote w.old (ended (canonical change beside.now)) w.new }
{
    line(w, change, beside);
    w.byte(b'\n');
}

// Writes the line of a row that holds these roles, if it holds any.
pub(crate) fn put_row(w: &mut Writer, change: Change, roles: RoleSet)
    ensures { (word : List ℕ) (n : ℕ) → ((e : AnExtra) → (canonical change e ≡ role_row word n [] roles) × Trees change e) → Wrote w.old (row_line word n (ascending (roles_of roles) 64)) w.new }
{
    if !roles.is_empty() {
        put(w, change, &Extra::new());
    }
}
