// A channel of a frame as it is kept for reading its samples.
//
// For whoever found a frame and wants samples of its channels with nothing read again.
// Promises, whatever numbers a view holds: `spread` is where its samples lie, and `find` where one of them lies in a file of so many octets, that it is not
// there, or a refusal. The view of a frame of an accepted file lies in that file (reader/proofs/Answers: located-lies).
// Read first: crate spread, then specs/View.antt.
#![tactic(auto)]

ghost use Rattle.std.specs.Prelude.{◌≡◌, ◌^◌, ◌<◌};
ghost use Rattle.heads.specs.Answer.{answer_of};
ghost use Rattle.spread.specs.Spread.{place_spread};
ghost use Rattle.view.specs.View.{spread_of, place_in};

use heads::{Fault, Refusal};
use settings::Settings;
use spread::Spread;

// What is kept of a frame and one of its channels: `place` is that of the waveform's first octet, `long` are its octets, `octets` those of a sequence,
// `below` those below the channel, and `settings` the channel's, the defaults where the frame lacks it.
#[derive(Clone, Copy)]
pub struct View {
    pub start: i64,
    pub channels: u32,
    pub sequences: u32,
    pub little: bool,
    pub place: usize,
    pub octets: u64,
    pub below: u64,
    pub long: usize,
    pub settings: Settings,
}

// The place of a sample.
fn place_of(x: Spread, number: u64) -> usize
    requires { (0 < x.block) × (place_spread x number < 2 ^ 63) }
    ensures { result ≡ place_spread x number }
{
    let w = values::width(x.datatype) as u64;
    let b = x.block as u64;
    let offset = number / b * x.octets + x.below + number % b * w;
    (x.place as u64 + offset) as usize
}

impl View {
    // Where the channel's samples lie.
    pub fn spread(self) -> Spread
        ensures { result ≡ spread_of self }
    {
        let c = self.settings;
        Spread {
            sequences: self.sequences,
            little: self.little,
            place: self.place,
            long: self.long,
            octets: self.octets,
            below: self.below,
            block: c.block,
            datatype: c.datatype,
        }
    }

    // Where a sample lies in a file of `size` octets: 22, then 20.
    pub fn find(self, size: usize, number: u64) -> Result<Option<usize>, Refusal>
        ensures { answer_of result ≡ place_in size self number }
    {
        let x = self.spread();
        if x.count() <= number {
            return Err(Refusal {
                fault: Fault::NoSample,
                place: 0,
            });
        }
        if x.lies(size) {
            if number < x.there() {
                return Ok(Some(place_of(x, number)));
            }
            return Ok(None);
        }
        Err(Refusal {
            fault: Fault::NoFrame,
            place: 0,
        })
    }
}
