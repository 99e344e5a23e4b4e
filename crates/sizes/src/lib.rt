// The sizes of a frame's parts: how many octets each takes in the canonical file.
//
// Promises: `frame_size` answers how many octets a frame takes there, `head_size` and `group_size` its head and a group, `content_size` and
// `null_size` a group's items and a null's value; `holds` whether so many octets hold so many sequences. Nothing here knows of a channel's
// settings: a group goes by the channel's number, its sample width and its null.
// Read first: specs/Size.antt.
#![tactic(auto)]

ghost use Rattle.std.specs.Prelude.{◌≡◌, ◌*◌, ◌^◌, ◌<◌, leb};
ghost use Rattle.sizes.specs.Size.{channel_size, null_size, content_size, group_size, sequences_size, head_size, frame_size};

use values::Bits;

// A shortest channel number's octets.
fn channel_size(k: usize) -> usize
    ensures { result ≡ channel_size k }
{
    if k < 128 { 1 } else { 2 }
}

// The octets of a null's value, where samples have w octets.
pub fn null_size(w: u8, null: Bits) -> usize
    ensures { result ≡ null_size w null }
{
    if null.width == 0 { 0 } else { w as usize }
}

// The octets of the items of a channel's group.
pub fn content_size(w: u8, null: Bits) -> usize
    ensures { result ≡ content_size w null }
{
    37 + w as usize + null_size(w, null)
}

// The octets of channel k's group.
pub fn group_size(k: usize, w: u8, null: Bits) -> usize
    ensures { result ≡ group_size k w null }
{
    2 + channel_size(k) + content_size(w, null)
}

// The octets of 06.
fn sequences_size(sequences: u32) -> usize
    ensures { result ≡ sequences_size sequences }
{
    if sequences == 0 { 2 } else { 6 }
}

// The octets of 05, 06 and 07.
pub fn head_size(sequences: u32) -> usize
    ensures { result ≡ head_size sequences }
{
    12 + sequences_size(sequences)
}

// Whether `long` octets hold so many sequences of so many octets.
pub fn holds(long: u64, sequences: u32, octets: u64) -> bool
    ensures { result ≡ leb (sequences * octets) long }
{
    if octets < octets::FOUR_OCTETS {
        return sequences as u64 * octets <= long;
    }
    sequences as u64 <= long / octets
}

// The octets of a frame, whose channels' groups and whose samples take so many.
pub fn frame_size(sequences: u32, groups: u32, waveform: u32) -> u64
    ensures { (result ≡ frame_size sequences groups waveform) × (result < 2 ^ 34) }
{
    let head = head_size(sequences) as u64;
    let length = stores::length_octets(waveform) as u64;
    head + groups as u64 + (1 + length + waveform as u64)
}
