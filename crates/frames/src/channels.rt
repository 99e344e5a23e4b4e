// The channels of a frame, whose settings stand in records that words hold.
ghost use Rattle.std.specs.Prelude.{◌≡◌, get_or};
ghost use Rattle.frames.specs.Parts.{Few};
ghost use Rattle.words.specs.Words.{records_in};
ghost use Rattle.dated.specs.Dated.{zero_dated};

use settings::Settings;

// No more channels than a frame may have, each with a record in the words that a caller lends.
#[derive(Clone, Copy)]
pub(crate) struct Channels<'a> {
    pub words: &'a [u64],
    pub count: usize,
    ghost few: { Few count words.now },
}

impl Channels<'_> {
    // The settings of a channel.
    pub fn settings(self, i: usize) -> Settings
        ensures { result ≡ (get_or (records_in self.entry.words.now) i zero_dated).settings }
    {
        words::held(self.words, i)
    }
}
