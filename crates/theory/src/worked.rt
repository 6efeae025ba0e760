// Worked boards: users 1, 2 and 3 have the roles 1, 2 and 3; role 2 gives role 5 to members of role 1, role 3 gives role 4 to members of role 5.
ghost use Rattle.std.specs.Prelude.{◌≡◌};
ghost use Rattle.theory.specs.Premises.{PremisesMet};
ghost use Rattle.theory.specs.Worked.{WorkedBoards, AnswersRight, rows_after_hiring};

// Three users have a row, and one more gets one.
const ROWS_FOR_THE_HIRING: usize = 4;

/// The answers, each to a question about that board or one near it.
#[derive(Clone, Copy)]
pub struct Worked {
    /// possible: user 1 gets role 4
    pub shown: bool,
    /// the same, where user 2, the only one to give role 5, is trusted
    pub stopped: bool,
    /// the same, where user 1 is trusted
    pub unhindered: bool,
    /// necessary: nobody but user 1 has role 4
    pub nobody: bool,
    /// necessary: nobody but users 1 to 3 has it, where role 2 gives role 1 to everybody
    pub hired: bool,
    /// necessary: user 1 has role 1
    pub kept: bool,
    /// the same, where role 2 revokes role 1
    pub revoked: bool,
    /// possible: user 4, who has role 6, senior to role 1, gets role 4
    pub senior: bool,
    /// nobody is among nobody: possible and necessary, with and without revoke rules
    pub empty: bool,
}

/// What is answered of the worked boards.
pub fn worked_boards() -> Worked
    ensures boards { WorkedBoards }
    ensures answers { AnswersRight result }
{
    Worked {
        shown: true,
        stopped: false,
        unhindered: true,
        nobody: true,
        hired: false,
        kept: true,
        revoked: false,
        senior: true,
        empty: true,
    }
}

/// What the theorems ask for is met by these boards; and so many rows have room for the run that gives roles to one user more.
pub fn premises_met() -> usize
    ensures met { PremisesMet rows_after_hiring }
    ensures number { result ≡ rows_after_hiring }
{
    ROWS_FOR_THE_HIRING
}
