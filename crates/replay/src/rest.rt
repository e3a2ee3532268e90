// The bytes of the file that are still to be read.
ghost use Rattle.std.specs.Prelude.{◌≡◌, ◌<◌, slice_index, take, drop};

// After the end of the file all bytes are 0.
#[derive(Clone, Copy)]
pub(crate) struct Rest<'a>(pub(crate) &'a [u8]);

impl<'a> Rest<'a> {
    pub(crate) fn byte(&mut self) -> u8
        ensures value { result ≡ slice_index self.old.0.now 0 }
        ensures rest { self.new.0.now ≡ drop 1 self.old.0.now }
    {
        match self.0.split_first() {
            Some((byte, rest)) => {
                self.0 = rest;
                *byte
            }
            None => 0,
        }
    }

    // As many bytes as are asked for, or as there are.
    pub(crate) fn bytes(&mut self, n: usize) -> &'a [u8]
        ensures value { result.now ≡ take n self.old.0.now }
        ensures rest { self.new.0.now ≡ drop n self.old.0.now }
    {
        let (bytes, rest) = self.0.split_at(n.min(self.0.len()));
        self.0 = rest;
        bytes
    }
}
