ghost use Rattle.std.specs.Prelude.{◌≡◌, ◌-◌, ◌<◌, length, replicate};

// Holds the part of the work slice that a question uses, and zeroes it when it goes, whichever way the question ends.
// Both halves have a slot for each fact, and one behind them for the contradiction: `standing` has the number of the choices
// that had it before the round, `gathered` of those that have it so far.
pub struct Work<'a> {
    pub standing: &'a mut [u32],
    pub gathered: &'a mut [u32],
    ghost some: { 0 < length standing.now },
    ghost halves: { length gathered.now ≡ length standing.now },
}

impl Work<'_> {
    // The slot of the contradiction.
    pub(crate) fn contradiction(&self) -> usize
        ensures { result ≡ length self.now.standing.now - 1 }
    {
        self.standing.len() - 1
    }
}

impl Drop for Work<'_> {
    fn drop(self)
        ensures standing { self.exit.0.now ≡ replicate (length self.entry.standing.now) 0 }
        ensures gathered { self.exit.1.0.now ≡ replicate (length self.entry.gathered.now) 0 }
    {
        let Work { standing, gathered } = self;
        standing.fill(0);
        gathered.fill(0);
    }
}
