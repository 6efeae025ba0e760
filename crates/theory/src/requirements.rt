// What permitted changes cannot take away.
ghost use Rattle.theory.specs.Lasting.{DelegatesKeepRequirements, ReflectedByRuns, PreservedByRuns};

use meaning::Kind;

/// The kind of question of which a yes now stays a yes in every reachable state; so a requirement that stands is not weighed again after a permitted change.
pub fn lasting() -> Kind
    ensures lasts { PreservedByRuns result }
    ensures requirements { DelegatesKeepRequirements }
{
    Kind::Necessary
}

/// The kind of question of which a yes in some reachable state is a yes already now.
pub fn foreseen() -> Kind
    ensures { ReflectedByRuns result }
{
    Kind::Possible
}
