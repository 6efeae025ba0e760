ghost use Rattle.std.specs.Prelude.{◌≡◌, ◌+◌, ◌^◌, ◌<◌, max};
ghost use Rattle.grammar.specs.Scan.{empty as empty_size, grow as grown};

/// What is counted of a set: operands, levels, whether each number is in range, whether no role and no permission
/// stands in it, and whether roles alone do. The three flags are independent facts.
#[derive(Clone, Copy)]
pub struct Size {
    pub operands: usize,
    pub levels: usize,
    pub fits: bool,
    pub fixed: bool,
    pub roles: bool,
}

impl Size {
    /// The size of no set at all.
    pub fn empty() -> Size
        ensures { result ≡ empty_size }
    {
        Size {
            operands: 0,
            levels: 0,
            fits: true,
            fixed: true,
            roles: true,
        }
    }

    // The size with another set counted in, which stands that deep.
    pub(crate) fn grow(self, depth: usize, other: Size) -> Size
        requires many { self.operands + other.operands < 2 ^ 64 }
        requires deep { depth + other.levels < 2 ^ 64 }
        ensures { result ≡ grown depth self other }
    {
        Size {
            operands: self.operands + other.operands,
            levels: self.levels.max(depth + other.levels),
            fits: self.fits && other.fits,
            fixed: self.fixed && other.fixed,
            roles: self.roles && other.roles,
        }
    }
}

/// What may stand next.
#[derive(Clone, Copy)]
pub enum Mode {
    Operand,
    Sign,
    User,
    Comma,
    Another,
}

#[derive(Clone, Copy)]
pub struct State {
    pub mode: Mode,
    pub depth: usize,
    pub size: Size,
}

/// An operand that is a letter and a number: what may stand behind it, what its number is below, and its size.
#[derive(Clone, Copy)]
pub struct Leaf {
    pub then: Mode,
    pub limit: u32,
    pub size: Size,
}
