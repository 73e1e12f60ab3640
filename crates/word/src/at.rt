// Where a word lies in a buffer.
ghost use Rattle.std.specs.Prelude.{◌≡◌, ◌+◌, ◌*◌, ◌≤◌};
ghost use Rattle.laws.specs.InPlace.{most_bits};

// The word of n bits that starts at bit `start` and goes by `step`: a row or a column of a frame, or a word by itself.
#[derive(Clone, Copy)]
pub struct WordAt {
    pub n: usize,
    pub start: usize,
    pub step: usize,
}

impl WordAt {
    // The bit of the buffer that is the word's place j.
    pub(crate) fn place(self, j: usize) -> usize
        requires { self.start + j * self.step ≤ most_bits }
        ensures { result ≡ self.start + j * self.step }
    {
        self.start + j * self.step
    }
}
