ghost use Rattle.std.specs.Prelude.{◌≡◌, not, Decides};
ghost use Rattle.meaning.specs.Rules.{aatu, aar};
ghost use Rattle.tables.specs.View.{policy_of};

use meaning::Regime;
use tables::Tables;

// Whether the board is under aatu; if not, it is under aar.
pub(crate) fn is_aatu(tables: &Tables) -> bool
    ensures aatu { Decides result ((policy_of tables.now).regime ≡ aatu) }
    ensures aar { Decides (not result) ((policy_of tables.now).regime ≡ aar) }
{
    match tables.regime {
        Regime::Aatu => true,
        Regime::Aar => false,
    }
}
