// The reader: every attribute and sample found.
//
// Promises, for any octets at all: `check` counts the frames or answers the refusal of document 01 with its number and place;
// `describe` answers what stands for a channel in a frame, `place` where a sample lies, and `sample` where it lies, its bits and its value, that it is
// declared and not there, or a refusal. All are thin over `pass::scan_file`, which walks the file once.
// Read first: in crate pass specs/Verdict.antt (the file), then specs/Answer.antt (the questions).
#![tactic(auto)]

ghost use Rattle.std.specs.Prelude.{◌≡◌};
ghost use Rattle.heads.specs.Answer.{answer_of};
ghost use Rattle.verdict.specs.Verdict.{check_of};
ghost use Rattle.reader.specs.Answer.{sampled_says, placed_says, attributes_seen, attributes_of, placed_of, sample_of, seen_of};

use heads::{Fault, Refusal};
use pass::Asked;
use settings::Settings;
use values::Value;
use view::View;

// The attributes of a channel in a frame. The offset of its settings has the sample's width; a null of width 0 is none.
#[derive(Clone, Copy)]
pub struct Attributes {
    pub start: i64,
    pub channels: u32,
    pub sequences: u32,
    pub settings: Settings,
}

// A sample as it is read: its place, bits and value; no data at place 0 where it is declared and not there.
#[derive(Clone, Copy)]
pub struct Reading {
    pub place: usize,
    pub bits: u64,
    pub value: Value,
}

// Checks a file: the number of its frames, or its refusal.
pub fn check(s: &[u8]) -> Result<u32, Refusal>
    ensures { answer_of result ≡ check_of s.now }
{
    let pass = pass::scan_file(
        s,
        Asked {
            frame: 0,
            channel: 0,
        },
    );
    pass.checked
}

// The frame and channel that a question names: the file's refusal, then 20, then 21.
pub fn look_up(s: &[u8], frame: u32, channel: u32) -> Result<View, Refusal>
    ensures { answer_of result ≡ seen_of s.now frame channel }
{
    let pass = pass::scan_file(s, Asked { frame, channel });
    let checked = pass.checked;
    // By `let .. else` and not by `?`: document 01 names this form for this place.
    let Ok(n) = checked else {
        let Err(x) = checked else {
            return Err(Refusal {
                fault: Fault::NoFrame,
                place: 0,
            });
        };
        return Err(x);
    };
    if n <= frame {
        return Err(Refusal {
            fault: Fault::NoFrame,
            place: 0,
        });
    }
    let Some(view) = pass.found else {
        return Err(Refusal {
            fault: Fault::NoFrame,
            place: 0,
        });
    };
    if view.channels <= channel {
        return Err(Refusal {
            fault: Fault::NoChannel,
            place: 0,
        });
    }
    Ok(view)
}

// The attributes of the channel that is seen.
pub fn attributes_seen(v: View) -> Attributes
    ensures { result ≡ attributes_seen v }
{
    let settings = layout::reported(v.settings);
    Attributes {
        start: v.start,
        channels: v.channels,
        sequences: v.sequences,
        settings,
    }
}

// The attributes of a channel in a frame.
pub fn describe(s: &[u8], frame: u32, channel: u32) -> Result<Attributes, Refusal>
    ensures { answer_of result ≡ attributes_of s.now frame channel }
{
    let v = look_up(s, frame, channel)?;
    Ok(attributes_seen(v))
}

// The place of a sample and its channel, none where it is declared and not there: the file's refusal, then 20, 21, 22.
pub fn place(
    s: &[u8],
    frame: u32,
    channel: u32,
    number: u64,
) -> Result<Option<(usize, View)>, Refusal>
    ensures { placed_says result ≡ placed_of s.now frame channel number }
{
    let v = look_up(s, frame, channel)?;
    let found = v.find(s.len(), number)?;
    match found {
        Some(at) => Ok(Some((at, v))),
        None => Ok(None),
    }
}

// The place, bits and value of a sample.
pub fn sample(s: &[u8], frame: u32, channel: u32, number: u64) -> Result<Reading, Refusal>
    ensures { sampled_says result ≡ sample_of s.now frame channel number }
{
    match place(s, frame, channel, number)? {
        None => Ok(Reading {
            place: 0,
            bits: 0,
            value: Value::NoData,
        }),
        Some((at, v)) => {
            let c = v.settings;
            let null = c.null;
            let x = octets::part(s, at, values::width(c.datatype));
            let bits = octets::number(x, v.little);
            let value = values::sample_value(bits, c.datatype, null);
            Ok(Reading {
                place: at,
                bits,
                value,
            })
        }
    }
}
