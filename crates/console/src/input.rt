// Input into fixed memory.
ghost use Rattle.std.specs.Prelude.{◌≤◌, length, IfOk};

use std::io;
use std::io::Read;

/// Fills the place from the reader, as far as it gives: how many bytes. The memory is fixed, and reading to the end would ask for a list that grows.
pub fn fill<R: Read>(from: &mut R, place: &mut [u8]) -> io::Result<usize>
    ensures { IfOk result (λ n. n ≤ length place.old) }
{
    let mut len = 0;
    while len < place.len() {
        let n = from.read(&mut place[len..])?;
        if n == 0 {
            break;
        }
        len += n;
    }
    Ok(len)
}
