// A word is a run of small letters, a number a run of digits, a sign one other byte. Each is a part of the text itself.
#[derive(Clone, Copy)]
pub enum Part<'a> {
    Word(&'a [u8]),
    Number(&'a [u8]),
    Sign(&'a [u8]),
    End,
}

#[derive(Clone, Copy)]
pub struct Token<'a> {
    pub part: Part<'a>,
    pub line: usize,
}
