// Numbers drawn one after the other, the same in every run.
#[derive(Drop)]
pub(crate) struct Generator {
    seed: u64,
}

impl Generator {
    pub(crate) fn new(seed: u64) -> Generator {
        Generator { seed }
    }

    // The high bits of what was drawn: the low ones of such a generator repeat early.
    pub(crate) fn draw(&mut self) -> u32 {
        self.seed = (self.seed % 2147483648 * 1103515245 + 12345) % 2147483648;
        (self.seed / 2048) as u32
    }
}
