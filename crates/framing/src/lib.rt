// What a waveform gives.
//
// Promises, for any numbers at all: `frame_of` answers the sequences of a waveform and what stands after it, or 11 to 13, and 15 for
// numbers that no file has; `channels_of` answers how many channels a frame has, and `pointer_fits` whether a start pointer has signed 32 bits. Nothing is
// carried out here.
// Read first: specs/Framing.antt (the rule), then specs/AnyNumbers.antt; what stands is in crate standing.
#![tactic(auto)]

ghost use Rattle.std.specs.Prelude.{true, ◌≡◌, ◌*◌, ◌≤◌, ◌<◌, pos, ◌+ℤ◌};
ghost use Rattle.octets.specs.Number.{range};
ghost use Rattle.settings.specs.Settings.{block_limit};
ghost use Rattle.framing.specs.Framing.{channels_of, sequences_of, pointer_fits};
ghost use Rattle.framing.specs.AnyNumbers.{framed_by};

use heads::Fault;
use settings::Settings;
use standing::Standing;

// How many channels a frame has where this count stands.
pub fn channels_of(counted: u32) -> u32
    ensures { result ≡ channels_of counted }
{
    if counted == 0 { 1 } else { counted }
}

// Sequences as set, else as many as the waveform holds.
fn sequences_of(set: u32, long: usize, octets: u64) -> u64
    requires { 0 < octets }
    ensures { result ≡ sequences_of set long octets }
{
    if set != 0 {
        return set as u64;
    }
    long as u64 / octets
}

// Signed 32 bits.
pub fn pointer_fits(z: i64) -> bool
    ensures { result ≡ pointer_fits z }
{
    -2_147_483_648 <= z && z <= 2_147_483_647
}

// The pointer after a frame: its start plus root block length times its sequences.
fn pointer_after(start: i64, block: u32, sequences: u64) -> i64
    requires { (pointer_fits start ≡ true) × (block ≤ block_limit) × (sequences < range 4) }
    ensures { result ≡ start +ℤ pos (block * sequences) }
{
    start + (block as u64 * sequences) as i64
}

// A waveform of `long` octets after `frames` frames, where a sequence takes `octets` octets.
pub fn frame_of(
    frames: u32,
    st: Standing,
    agree: bool,
    octets: u64,
    long: usize,
) -> Result<(u32, Standing), Fault>
    ensures { result ≡ framed_by frames st agree octets long }
{
    if octets == 0 {
        return Err(Fault::LongFile);
    }
    if Standing::OCTETS < long {
        return Err(Fault::LongFile);
    }
    if Settings::BLOCK_LIMIT < st.root.block {
        return Err(Fault::LongFile);
    }
    if Standing::FRAMES <= frames {
        return Err(Fault::ManyFrames);
    }
    if !agree {
        return Err(Fault::SampleWidth);
    }
    let start = st.start;
    if !pointer_fits(start) {
        return Err(Fault::StartRange);
    }
    let sequences = sequences_of(st.sequences, long, octets);
    let z = pointer_after(start, st.root.block, sequences);
    Ok((sequences as u32, st.with_continued(z)))
}
