// What a reader takes from its text: tokens, numbers, signs and words.
ghost use Rattle.std.specs.Prelude.{◌≡◌, ℕ, ◌≤◌, true, false, [], ◌∷◌, length, ◌<◌, slice_index, IfNone};
ghost use Rattle.grammar.specs.Text.{rest, ahead, behind, begins, is_digit, is_letter, run, number as number_of, taken, Reads, Takes};

use crate::reader::Reader;
use crate::tokens::{Part, Token};

const DIGITS: usize = 5;

fn digit(b: u8) -> bool
    ensures { result ≡ is_digit b }
{
    matches!(b, b'0'..=b'9')
}

fn letter(b: u8) -> bool
    ensures { result ≡ is_letter b }
{
    matches!(b, b'a'..=b'z')
}

/// How many bytes at the front pass the test.
pub fn run_length<F: Fn(u8) -> bool>(s: &[u8], passes: F) -> usize
    requires { F.IsAlwaysCallable passes }
    ensures within { result ≤ length s.now }
    ensures each { (k : ℕ) → k < result → F.post passes (slice_index s.now k) true }
    ensures stops { result < length s.now → F.post passes (slice_index s.now result) false }
{
    s.iter().position(|b| !passes(*b)).unwrap_or(s.len())
}

// The number that digits alone write: 1 to 5 of them, and no leading zero but 0 itself.
fn value_of(digits: &[u8]) -> Option<u32>
    requires { length digits.now ≡ run is_digit digits.now }
    ensures { number_of digits.now ≡ taken result [] }
{
    let first = digits.first()?;
    if digits.len() > DIGITS || (digits.len() > 1 && *first == b'0') {
        return None;
    }
    let mut n: u32 = 0;
    for b in digits {
        n = n * 10 + (b - b'0') as u32;
    }
    Some(n)
}

impl<'a> Reader<'a> {
    /// The word, number or sign that stands next, as a part of the text.
    pub fn token(&mut self) -> Token<'a>
        ensures read { Reads result.part (rest self.old) (rest self.new) }
        ensures line { (result.line ≡ self.old.line) × (self.new.line ≡ self.old.line) }
    {
        let line = self.line();
        let left = self.rest();
        let part = match left.first() {
            Some(b) if letter(*b) => Part::Word(self.cut(run_length(left, letter))),
            Some(b) if digit(*b) => Part::Number(self.cut(run_length(left, digit))),
            Some(_) => Part::Sign(self.cut(1)),
            None => Part::End,
        };
        Token { part, line }
    }

    /// Takes a number if one stands next; where none does, nothing is taken.
    pub fn number(&mut self) -> Option<u32>
        ensures read { number_of (rest self.old) ≡ taken result (rest self.new) }
        ensures less { length (rest self.new) ≤ length (rest self.old) }
        ensures kept { IfNone result (rest self.new ≡ rest self.old) }
    {
        let mut ahead = Reader::new(self.rest(), self.line());
        let number = ahead.token_number()?;
        *self = ahead;
        Some(number)
    }

    // Takes the token that stands next: its number, if it is one.
    fn token_number(&mut self) -> Option<u32>
        ensures read { number_of (rest self.old) ≡ taken result (rest self.new) }
        ensures less { length (rest self.new) ≤ length (rest self.old) }
    {
        match self.token().part {
            Part::Number(digits) => value_of(digits),
            Part::Word(_) | Part::Sign(_) => None,
            Part::End => None,
        }
    }

    /// The sign that stands next, if the text goes on.
    pub fn sign(&self) -> Option<char>
        ensures { result ≡ ahead (rest self.now) }
    {
        self.rest().first().map(|b| *b as char)
    }

    /// Goes over one byte, if there is one.
    pub fn skip(&mut self)
        ensures read { rest self.new ≡ behind (rest self.old) }
    {
        if !self.is_at_end() {
            self.cut(1);
        }
    }

    /// Takes the sign if it stands next.
    pub fn take(&mut self, sign: u8) -> bool
        ensures read { elim result [ true ↦ rest self.old ≡ sign ∷ rest self.new | false ↦ (begins sign (rest self.old) ≡ false) × (rest self.new ≡ rest self.old) ] }
    {
        let found = self.rest().first().is_some_and(|b| *b == sign);
        if found {
            self.skip();
        }
        found
    }

    /// Takes these bytes if they stand next.
    pub fn takes(&mut self, word: &[u8]) -> bool
        ensures read { Takes word.now (rest self.old) result (rest self.new) }
    {
        let found = self.rest().starts_with(word);
        if found {
            self.cut(word.len());
        }
        found
    }
}
