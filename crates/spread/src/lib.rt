// Where the samples of a channel lie.
//
// For whoever knows a frame: `Spread` is where the samples of one of its channels lie, `Sequences` what is the same for all of them.
// Promises, whatever numbers a spread holds: `count` is how many samples are declared, `there` how many of them are there, `readable` how many of those from a
// number on there is room for, `lies` whether the waveform lies in a file of so many octets. `smaller` is the smaller of two numbers.
// Read first: specs/Spread.antt.
#![tactic(auto)]

ghost use Rattle.std.specs.Prelude.{◌≡◌, ◌+◌, ◌-◌, ◌*◌, ◌/◌, ◌%◌, ◌<◌, min, leb};
ghost use Rattle.spread.specs.Spread.{count_spread, there_spread, lies_spread};

use standing::Standing;

// Where the samples of a channel lie: `place` is that of the waveform's first octet, `long` are its octets, `octets` those of a sequence, `below` those
// below the channel.
#[derive(Clone, Copy)]
pub struct Spread {
    pub sequences: u32,
    pub little: bool,
    pub place: usize,
    pub long: usize,
    pub octets: u64,
    pub below: u64,
    pub block: u32,
    pub datatype: u8,
}

// The sequences of a frame: how many, their byte order, the place of the waveform's first octet, its octets, and those of a sequence.
#[derive(Clone, Copy)]
pub struct Sequences {
    pub count: u32,
    pub little: bool,
    pub place: usize,
    pub long: usize,
    pub octets: u64,
}

// Whether a block behind so many octets ends by the end of a sequence.
fn block_inside(below: u64, block: u64, octets: u64) -> bool
    ensures { result ≡ leb (below + block) octets }
{
    block <= octets && below <= octets - block
}

// Whether a waveform from a place on ends by the end of a file.
fn waveform_inside(place: usize, long: usize, size: usize) -> bool
    ensures { result ≡ leb (place + long) size }
{
    place <= size && long <= size - place
}

// How often b octets are in a, and what is left of them; of no octets never, and all.
fn times(a: u64, b: u64) -> u64
    ensures { result ≡ a / b }
{
    a.checked_div(b).unwrap_or(0)
}

fn rest(a: u64, b: u64) -> u64
    ensures { result ≡ a % b }
{
    a.checked_rem(b).unwrap_or(a)
}

impl Spread {
    // How many samples of the channel are declared.
    pub fn count(self) -> u64
        ensures { result ≡ count_spread self }
    {
        u64::from(self.sequences) * u64::from(self.block)
    }

    // How many of them are there, where more sequences are declared than are in the waveform: those of whole sequences, and those of a part of the block in the
    // sequence that is cut off. The product is formed behind a division, and so it is small.
    fn cut(self) -> u64
        ensures { result ≡ there_spread self }
    {
        let sequences = u64::from(self.sequences);
        let block = u64::from(self.block);
        let whole = times(self.long as u64, self.octets);
        if sequences <= whole {
            return sequences * block;
        }
        let left = rest(self.long as u64, self.octets).saturating_sub(self.below);
        let some = times(left, values::width(self.datatype) as u64);
        whole * block + some.min(block)
    }

    // How many samples of the channel are there. Where its sequences all are in the waveform no division tells it.
    pub fn there(self) -> u64
        ensures { result ≡ there_spread self }
    {
        if 0 < self.octets
            && self.octets < octets::FOUR_OCTETS
            && u64::from(self.sequences) * self.octets <= self.long as u64
        {
            return self.count();
        }
        self.cut()
    }

    // How many samples from number `first` on are there, as far as there is room.
    pub fn readable(self, first: u64, room: usize) -> usize
        ensures { result ≡ min room (there_spread self - first) }
    {
        self.there().saturating_sub(first).min(room as u64) as usize
    }

    // Whether the waveform lies in a file of `size` octets, and the channel's blocks in their sequences.
    pub fn lies(self, size: usize) -> bool
        ensures { result ≡ lies_spread size self }
    {
        let w = values::width(self.datatype) as u64;
        size <= Standing::OCTETS
            && 0 < w
            && block_inside(self.below, u64::from(self.block) * w, self.octets)
            && waveform_inside(self.place, self.long, size)
    }
}

// The smaller of two.
pub fn smaller(a: usize, b: usize) -> usize
    ensures { result ≡ min a b }
{
    a.min(b)
}
