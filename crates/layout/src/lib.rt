// The layout of a frame: what one pass over its channels' settings tells.
//
// Promises: `Layout::more`, called for one channel after the other, sums up whether offsets and nulls have their sample widths, the octets of
// a sequence, those below a channel, and the octets that the channels' groups take in the canonical file.
// `offset_bits` answers a channel's offset, one that is not defined too, and `reported` its attributes with that offset.
// Read first: specs/Frame.antt (frames and the place of a sample), specs/Measure.antt.
#![tactic(auto)]

ghost use Rattle.std.specs.Prelude.{◌≡◌, ◌+◌, ◌%◌, ◌^◌, nat_lt};
ghost use Rattle.octets.specs.Pick.{pick, both};
ghost use Rattle.layout.specs.Frame.{offset_bits, width_agrees, reported};
ghost use Rattle.layout.specs.Measure.{no_layout, More};

use settings::{Change, Settings};
use values::Bits;

// What a pass over channels, from channel 0 on, tells.
#[derive(Clone, Copy)]
pub struct Layout {
    pub agree: bool,
    pub octets: u64,
    pub below: u64,
    pub groups: u64,
}

// Bits that are defined have the sample's width.
fn width_agrees(w: u8, b: Bits) -> bool
    ensures { result ≡ width_agrees w b }
{
    b.width == 0 || b.width == w
}

// A channel's offset and null have its sample width, where they are defined.
fn widths_agree(w: u8, offset: Bits, null: Bits) -> bool
    ensures { result ≡ both (width_agrees w offset) (width_agrees w null) }
{
    width_agrees(w, offset) && width_agrees(w, null)
}

// An offset not defined is zero bits of the sample's width.
pub fn offset_bits(c: Settings) -> Bits
    ensures { result ≡ offset_bits c }
{
    let offset = c.offset;
    if offset.width == 0 {
        return Bits {
            width: values::width(c.datatype) as u8,
            bits: 0,
        };
    }
    offset
}

// The attributes of a channel as they are reported and recorded.
pub fn reported(c: Settings) -> Settings
    ensures { result ≡ reported c }
{
    settings::apply(c, Change::Offset(offset_bits(c)))
}

// Octets of a channel that lies below another one are added.
fn added_below(i: usize, channel: u32, below: u64, octets: u64) -> u64
    ensures { result ≡ pick (nat_lt i channel) ((below + octets) % 2 ^ 64) below }
{
    if i < channel as usize {
        below.wrapping_add(octets)
    } else {
        below
    }
}

// A call, and no `&&`: so the compiler takes what is the same of all channels out of a loop over them, which takes a sixth of the instructions.
fn agree_both(a: bool, b: bool) -> bool
    ensures { result ≡ both a b }
{
    if a { b } else { false }
}

impl Layout {
    // Of no channel.
    pub fn none() -> Layout
        ensures { result ≡ no_layout }
    {
        Layout {
            agree: true,
            octets: 0,
            below: 0,
            groups: 0,
        }
    }

    // Of channel i too, where those below it are told; `below` counts what lies below `channel`. The sums of 256 channels are far
    // below 2^64, where they would start again at 0.
    pub fn more(self, i: usize, channel: u32, c: Settings) -> Layout
        ensures { More i channel c self result }
    {
        let w = values::width(c.datatype) as u8;
        let offset = c.offset;
        let null = c.null;
        let octets = u64::from(c.block) * u64::from(w);
        Layout {
            agree: agree_both(self.agree, widths_agree(w, offset, null)),
            octets: self.octets.wrapping_add(octets),
            below: added_below(i, channel, self.below, octets),
            groups: self
                .groups
                .wrapping_add(sizes::group_size(i, w, null) as u64),
        }
    }
}
