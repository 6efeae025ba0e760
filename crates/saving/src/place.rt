// What is written, at the front of a lent place.
ghost use Rattle.std.specs.Prelude.{◌≡◌, ℕ, List, min, length};
ghost use Rattle.std.specs.Fn.{FnOnceReturnsAtMut};
ghost use Rattle.pen.specs.Puts.{puts, top};
ghost use Rattle.saving.specs.Canonical.{Saved};
ghost use Rattle.saving.specs.Places.{Writes};

use pen::Writer;

/// How much is written, up to the largest number.
pub fn size<F: FnOnce(&mut Writer)>(write: F) -> usize
    requires { F.IsAlwaysCallable write }
    ensures { (a : List ℕ) → Writes (λ v w. FnOnceReturnsAtMut F.FnOnce write v tt w) a → result ≡ min (length a) top }
{
    let mut none = [0u8; 0];
    let mut out = Writer {
        place: &mut none,
        len: 0,
    };
    write(&mut out);
    out.len
}

fn put<F: FnOnce(&mut Writer)>(place: &mut [u8], write: F)
    requires { F.IsAlwaysCallable write }
    ensures { (a : List ℕ) → Writes (λ v w. FnOnceReturnsAtMut F.FnOnce write v tt w) a → place.new ≡ puts place.old 0 a }
{
    let mut out = Writer { place, len: 0 };
    write(&mut out);
}

/// Writes at the front of the place, and says how much; a place that is too short is left as it was.
pub fn save<F: FnOnce(&mut Writer) + Copy>(place: &mut [u8], write: F) -> Option<usize>
    requires { F.IsAlwaysCallable write }
    ensures { (a : List ℕ) → Writes (λ v w. FnOnceReturnsAtMut F.FnOnce write v tt w) a → Saved a place.old result place.new }
{
    let size = size(write);
    if place.len() < size {
        return None;
    }
    put(place, write);
    Some(size)
}
