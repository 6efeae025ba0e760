ghost use Rattle.std.specs.Prelude.{◌≡◌, ◌+◌, ◌^◌, ◌<◌, ◌≤◌};
ghost use Rattle.grammar.specs.Text.{rest, number as number_of};
ghost use Rattle.grammar.specs.Scan.{leaf_by, step_at, user_step, step as step_of, told, at, heard, scanned, empty, Room, Scanned};
ghost use Rattle.grammar.specs.declared.sizes.Mode.TheVariants.{Operand, Sign, Comma};

use crate::reader::Reader;
use crate::sizes::{Leaf, Mode, Size, State};
use meaning::{PERMISSIONS, ROLES, USERS};

// What each kind of operand is, written out in full: a constant's value takes no `..`.
const ROLE: Leaf = Leaf {
    then: Mode::Sign,
    limit: ROLES as u32,
    size: Size {
        operands: 1,
        levels: 0,
        fits: true,
        fixed: false,
        roles: true,
    },
};

const PERMISSION: Leaf = Leaf {
    then: Mode::Sign,
    limit: PERMISSIONS as u32,
    size: Size {
        operands: 1,
        levels: 0,
        fits: true,
        fixed: false,
        roles: false,
    },
};

const NOBODY: Size = Size {
    operands: 1,
    levels: 0,
    fits: true,
    fixed: true,
    roles: false,
};

const USER: Leaf = Leaf {
    then: Mode::Comma,
    limit: USERS as u32,
    size: NOBODY,
};

// A user in braces behind another: from the second on they are one level deeper.
const ANOTHER: Leaf = Leaf {
    then: Mode::Comma,
    limit: USERS as u32,
    size: Size {
        operands: 1,
        levels: 1,
        fits: true,
        fixed: true,
        roles: false,
    },
};

// What a step comes to: the state that it goes on to, or the end of the set; none where no set goes on so.
type Step = Option<Option<State>>;

// Goes on to what may stand next.
fn go(mode: Mode, at: State) -> Step
    ensures { result ≡ Some (Some (record { mode = mode; depth = at.depth; size = at.size })) }
{
    Some(Some(State { mode, ..at }))
}

// Reads a number, and counts in the operand that it ends.
fn leaf(r: &mut Reader, at: State, leaf: Leaf) -> Step
    requires deep { at.depth + leaf.size.levels < 2 ^ 64 }
    requires many { at.size.operands + leaf.size.operands < 2 ^ 64 }
    ensures { leaf_by leaf at.depth at.size (number_of (rest r.old)) ≡ told result (rest r.new) }
{
    let n = r.number()?;
    let operand = Size {
        fits: n < leaf.limit,
        ..leaf.size
    };
    Some(Some(State {
        mode: leaf.then,
        depth: at.depth,
        size: at.size.grow(at.depth, operand),
    }))
}

// One step where an operand is due.
fn operand(r: &mut Reader, at: State) -> Step
    requires { Room at (rest r.old) }
    ensures { step_at Operand at.depth at.size (rest r.old) ≡ told result (rest r.new) }
{
    if r.take(b'(') {
        return Some(Some(State {
            mode: Mode::Operand,
            depth: at.depth + 1,
            size: at.size,
        }));
    }
    if r.take(b'r') {
        return leaf(r, at, ROLE);
    }
    if r.take(b'p') {
        return leaf(r, at, PERMISSION);
    }
    if !r.take(b'{') {
        return None;
    }
    if r.take(b'}') {
        return Some(Some(State {
            mode: Mode::Sign,
            depth: at.depth,
            size: at.size.grow(at.depth, NOBODY),
        }));
    }
    go(Mode::User, at)
}

// One step behind an operand.
fn sign(r: &mut Reader, at: State) -> Step
    ensures { step_at Sign at.depth at.size (rest r.old) ≡ told result (rest r.new) }
{
    if r.take(b'|') || r.take(b'&') {
        return go(Mode::Operand, at);
    }
    if at.depth == 0 {
        return Some(None);
    }
    if r.take(b')') {
        return Some(Some(State {
            mode: Mode::Sign,
            depth: at.depth - 1,
            size: at.size,
        }));
    }
    None
}

// One step behind a user.
fn comma(r: &mut Reader, at: State) -> Step
    ensures { step_at Comma at.depth at.size (rest r.old) ≡ told result (rest r.new) }
{
    if r.take(b',') {
        return go(Mode::Another, at);
    }
    if r.take(b'}') {
        return go(Mode::Sign, at);
    }
    None
}

// One user in braces.
fn user(r: &mut Reader, at: State, user: Leaf) -> Step
    requires room { Room at (rest r.old) }
    requires small { (user.size.levels ≤ 1) × (user.size.operands ≤ 1) }
    ensures { user_step user at.depth at.size (rest r.old) ≡ told result (rest r.new) }
{
    if !r.take(b'u') {
        return None;
    }
    leaf(r, at, user)
}

// One step of the scanning.
fn step(r: &mut Reader, at: State) -> Step
    requires { Room at (rest r.old) }
    ensures { step_of at (rest r.old) ≡ told result (rest r.new) }
{
    match at.mode {
        Mode::Operand => operand(r, at),
        Mode::Sign => sign(r, at),
        Mode::User => user(r, at, USER),
        Mode::Comma => comma(r, at),
        Mode::Another => user(r, at, ANOTHER),
    }
}

/// Scans the set at the place, of any depth, and goes to its end; where no set stands there, nothing
/// is taken.
pub fn scan(r: &mut Reader) -> Option<Size>
    ensures { Scanned (rest r.old) result (rest r.new) }
{
    let mut ahead = Reader::new(r.rest(), r.line());
    let size = scan_steps(&mut ahead)?;
    *r = ahead;
    Some(size)
}

// All steps of the scanning, as far as they go.
fn scan_steps(r: &mut Reader) -> Option<Size>
    ensures { scanned (at Operand 0 empty) (rest r.old) ≡ heard result (rest r.new) }
{
    // No count of the bytes that are left can wrap, since their slice has a length.
    let _left = r.rest();
    let size = Size::empty();
    let mut at = State {
        mode: Mode::Operand,
        depth: 0,
        size,
    };
    // The steps end where one of them says so, so there is nothing to iterate over.
    loop {
        match step(r, at)? {
            Some(next) => at = next,
            None => return Some(at.size),
        }
    }
}
