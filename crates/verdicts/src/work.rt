// The lent work table, all zero when it is given back.
ghost use Rattle.std.specs.Prelude.{◌≡◌, ℕ, slice_index};

pub struct Work<'a> {
    pub words: &'a mut [u64],
}

impl Drop for Work<'_> {
    fn drop(self)
        ensures { (k : ℕ) → slice_index self.exit.0.now k ≡ 0 }
    {
        wipe(self.words);
        let Work { words: _ } = self;
    }
}

// Clears every word.
fn wipe(words: &mut [u64])
    ensures { (k : ℕ) → slice_index words.new k ≡ 0 }
{
    words.fill(0);
}
