// What stands outside the channels' own records.
//
// Promises: `first` is what stands before the first item; `with_continued` and `with_root` set what they name and keep all else.
// Read first: specs/Standing.antt.
#![tactic(auto)]

ghost use Rattle.std.specs.Prelude.{◌≡◌};
ghost use Rattle.standing.specs.Standing.{first_standing, with_continued, with_root};

use settings::Settings;

// What stands outside the channels' own records. `counted` 0: no channel count stands. `sequences` 0: by waveform length. `start` is
// the start pointer of a frame that came now, `continued` the one to which the previous frame leads.
#[derive(Clone, Copy)]
pub struct Standing {
    pub little: bool,
    pub counted: u32,
    pub sequences: u32,
    pub start: i64,
    pub continued: i64,
    pub root: Settings,
}

impl Standing {
    // Frames of a file.
    pub const FRAMES: u32 = 4096;

    // Octets of a file.
    pub const OCTETS: usize = 0x7FFF_FFFF;

    // Before the first item.
    pub fn first() -> Standing
        ensures { result ≡ first_standing }
    {
        let root = Settings::default();
        Standing {
            little: false,
            counted: 0,
            sequences: 0,
            start: 0,
            continued: 0,
            root,
        }
    }

    // A frame has led to this pointer, and the next frame goes on there.
    pub fn with_continued(mut self, z: i64) -> Standing
        ensures { result ≡ with_continued z self }
    {
        self.start = z;
        self.continued = z;
        self
    }

    pub fn with_root(mut self, root: Settings) -> Standing
        ensures { result ≡ with_root root self }
    {
        self.root = root;
        self
    }
}
