// Bytes written one behind the other into an output.
ghost use Rattle.std.specs.Prelude.{length};
ghost use Rattle.head.specs.Writer.{HasRoom, Writes};

// The output, and the place in it that is written next.
#[derive(Drop)]
pub(crate) struct Writer<'a> {
    pub(crate) out: &'a mut [u8],
    pub(crate) at: usize,
}

impl Writer<'_> {
    #[tactic(auto, using(slices::specs::Slices::puts_fits))]
    pub(crate) fn put(&mut self, bytes: &[u8])
        requires { HasRoom self.old (length bytes.now) }
        ensures { Writes self.old bytes.now self.new }
    {
        slices::put(bytes, self.at, self.out);
        self.at += bytes.len();
    }
}
