// One item's head: tag, channel number and length; and `Fault` and `Refusal`, in which every reader and writer says no.
//
// Promises, for any octets at all: `item_form` answers what they say of the head of the item that begins with them, `item_head` where the value of the
// item at their front stands, or the first fault of form (refusals 1 to 5 of document 01). What a tag means is not looked at here.
// Read first: specs/Head.antt.
#![tactic(auto)]

ghost use Rattle.std.specs.Prelude.{◌≡◌, ◌+◌, ◌*◌, ◌^◌, ◌≤◌, length};
ghost use Rattle.octets.specs.Pick.{both};
ghost use Rattle.heads.specs.Faults.{number_of, fault_of};
ghost use Rattle.heads.specs.Head.{channel_of, length_of, unknown_context, root_only, primitive_form, group_length, group_form, form_of, head_of};

// Why a file, a question or what is handed over is refused: the rows of document 01's table, "What comes back when it is no", and those that requests add to
// it. A number that is retired keeps its name, so that no other takes it.
#[derive(Clone, Copy, PartialEq, Eq)]
pub enum Fault {
    // 1: context tag other than 3Fh
    ContextTag,
    // 2: length octet 85h to FFh, or 80h not on 3Fh
    LengthOctet,
    // 3: channel number, length or value runs past the file or definite group around it
    PastEnd,
    // 4: fourth channel octet has its top bit set
    LongChannel,
    // 5: tag 01, 05, 06, 07, 0E, 1E or 3F inside a group
    BarredTag,
    // 6: length of a tag in the table of attributes that isn't among those given there
    UnfitLength,
    // 7: value not in the table of attributes
    UnfitValue,
    // 8: channel number not below the channel count
    ChannelNumber,
    // 9: 0Eh of length above 0 (compressed data)
    Compressed,
    // 10: open group: file ends between two of its items
    UnendedGroup,
    // 11: a frame after 4,096 frames
    ManyFrames,
    // 12: a channel below the count whose defined offset or null hasn't its sample width
    SampleWidth,
    // 13: start pointer outside signed 32 bits
    StartRange,
    // 14: retired, no longer given: waveform shorter than sequences times G (the octets of a sequence)
    ShortWaveform,
    // 15: file above 2,147,483,647 octets
    LongFile,
    // 20: no such frame
    NoFrame,
    // 21: no such channel
    NoChannel,
    // 22: no such sample
    NoSample,
    // 23: what is written is longer than the output buffer, or the file than 15's limit (2,147,483,647 octets)
    NoRoom,
    // 24: a setting outside the table of attributes, or bits wider than the sample
    SettingRange,
    // 25: sample octets not exactly sequences times G (the octets of a sequence)
    SamplesLength,
}

impl Fault {
    // Its number in the table.
    pub fn number(self) -> u8
        ensures { result ≡ number_of self }
    {
        match self {
            Fault::ContextTag => 1,
            Fault::LengthOctet => 2,
            Fault::PastEnd => 3,
            Fault::LongChannel => 4,
            Fault::BarredTag => 5,
            Fault::UnfitLength => 6,
            Fault::UnfitValue => 7,
            Fault::ChannelNumber => 8,
            Fault::Compressed => 9,
            Fault::UnendedGroup => 10,
            Fault::ManyFrames => 11,
            Fault::SampleWidth => 12,
            Fault::StartRange => 13,
            Fault::ShortWaveform => 14,
            Fault::LongFile => 15,
            Fault::NoFrame => 20,
            Fault::NoChannel => 21,
            Fault::NoSample => 22,
            Fault::NoRoom => 23,
            Fault::SettingRange => 24,
            Fault::SamplesLength => 25,
        }
    }

    // The fault that has a number.
    pub fn with_number(number: u8) -> Option<Fault>
        ensures { result ≡ fault_of number }
    {
        match number {
            1 => Some(Fault::ContextTag),
            2 => Some(Fault::LengthOctet),
            3 => Some(Fault::PastEnd),
            4 => Some(Fault::LongChannel),
            5 => Some(Fault::BarredTag),
            6 => Some(Fault::UnfitLength),
            7 => Some(Fault::UnfitValue),
            8 => Some(Fault::ChannelNumber),
            9 => Some(Fault::Compressed),
            10 => Some(Fault::UnendedGroup),
            11 => Some(Fault::ManyFrames),
            12 => Some(Fault::SampleWidth),
            13 => Some(Fault::StartRange),
            14 => Some(Fault::ShortWaveform),
            15 => Some(Fault::LongFile),
            20 => Some(Fault::NoFrame),
            21 => Some(Fault::NoChannel),
            22 => Some(Fault::NoSample),
            23 => Some(Fault::NoRoom),
            24 => Some(Fault::SettingRange),
            25 => Some(Fault::SamplesLength),
            _ => None,
        }
    }
}

// A refusal: why, and the place in the file.
#[derive(Clone, Copy)]
pub struct Refusal {
    pub fault: Fault,
    pub place: usize,
}

// The channel number that goes on at the front of u, and how many octets it takes; none where more octets are wanted. `value` is what the octets before it
// say, `passed` of them, and `allowed` octets may still come.
fn channel_from(
    u: &[u8],
    passed: usize,
    allowed: u32,
    value: u32,
) -> Result<Option<(u32, usize)>, Fault>
    requires allowed_bound { passed + allowed ≤ 4 }
    requires allowed_bound_2 { (value + 1) * 128 ^ allowed ≤ 2 ^ 28 }
    ensures { result ≡ channel_of allowed passed value u.now }
{
    if allowed == 0 {
        return Err(Fault::LongChannel);
    }
    if u.len() == 0 {
        return Ok(None);
    }
    let b = u[0];
    let more = value * 128 + (b % 128) as u32;
    if b < 128 {
        return Ok(Some((more, passed + 1)));
    }
    // A name for the answer, so that the compiler copies it here only, and not where the octet is the last.
    let rest = channel_from(&u[1..], passed + 1, allowed - 1, more);
    rest
}

// A length, and how many octets its field takes.
#[derive(Clone, Copy)]
pub enum Length {
    Known { value: usize, octets: usize },
    Open { octets: usize },
}

// The length at the front of u; none where more octets are wanted. Lengths are always big-endian.
fn length_field(u: &[u8]) -> Result<Option<Length>, Fault>
    ensures { result ≡ length_of u.now }
{
    if u.len() == 0 {
        return Ok(None);
    }
    let b = u[0] as usize;
    if b < 128 {
        return Ok(Some(Length::Known {
            value: b,
            octets: 1,
        }));
    }
    let n = b - 128;
    if n == 0 {
        return Ok(Some(Length::Open { octets: 1 }));
    }
    if 4 < n {
        return Err(Fault::LengthOctet);
    }
    if u.len() - 1 < n {
        return Ok(None);
    }
    let value = octets::number(octets::part(u, 1, n), false) as usize;
    Ok(Some(Length::Known {
        value,
        octets: n + 1,
    }))
}

// Bit 6 of a tag marks a context tag, and only 3Fh is known.
fn unknown_context(tag: u8) -> bool
    ensures { result ≡ unknown_context tag }
{
    tag / 32 % 2 == 1 && tag != 0x3F
}

// A tag that may not stand inside a group.
fn root_only(tag: u8) -> bool
    ensures { result ≡ root_only tag }
{
    tag == 0x01
        || (tag == 0x05
            || (tag == 0x06 || (tag == 0x07 || (tag == 0x0E || (tag == 0x1E || tag == 0x3F)))))
}

// A tag that may not stand where it does.
fn barred(inside: bool, tag: u8) -> bool
    ensures { result ≡ both inside (root_only tag) }
{
    inside && root_only(tag)
}

// What stands before an item's value. `start` counts from the item's tag.
#[derive(Clone, Copy)]
pub enum ItemHead {
    Primitive {
        tag: u8,
        start: usize,
        len: usize,
    },
    Definite {
        channel: u32,
        start: usize,
        len: usize,
    },
    Open {
        channel: u32,
        start: usize,
    },
}

// The head of a primitive item; u is what follows its tag.
fn primitive_form(tag: u8, u: &[u8]) -> Result<Option<ItemHead>, Fault>
    ensures { result ≡ primitive_form tag (length_of u.now) }
{
    let Some(length) = length_field(u)? else {
        return Ok(None);
    };
    match length {
        Length::Known { value, octets } => Ok(Some(ItemHead::Primitive {
            tag,
            start: octets + 1,
            len: value,
        })),
        Length::Open { octets: _ } => Err(Fault::LengthOctet),
    }
}

// The head of a group whose channel number took k octets; v is what follows them.
fn group_length(channel: u32, k: usize, v: &[u8]) -> Result<Option<ItemHead>, Fault>
    requires { k ≤ 4 }
    ensures { result ≡ group_length channel k (length_of v.now) }
{
    let Some(length) = length_field(v)? else {
        return Ok(None);
    };
    match length {
        Length::Known { value, octets } => Ok(Some(ItemHead::Definite {
            channel,
            start: k + octets + 1,
            len: value,
        })),
        Length::Open { octets } => Ok(Some(ItemHead::Open {
            channel,
            start: k + octets + 1,
        })),
    }
}

// The head of a group; u is what follows its tag.
fn group_form(u: &[u8]) -> Result<Option<ItemHead>, Fault>
    ensures { result ≡ group_form u.now (channel_of 4 0 0 u.now) }
{
    match channel_from(u, 0, 4, 0)? {
        Some((channel, octets)) => group_length(channel, octets, &u[octets..]),
        None => Ok(None),
    }
}

// What the octets of u, from an item's tag on, say of its head; none where more octets are wanted.
pub fn item_form(inside: bool, u: &[u8]) -> Result<Option<ItemHead>, Fault>
    ensures { result ≡ form_of inside u.now }
{
    if u.len() == 0 {
        return Ok(None);
    }
    let tag = u[0];
    if unknown_context(tag) {
        return Err(Fault::ContextTag);
    }
    if barred(inside, tag) {
        return Err(Fault::BarredTag);
    }
    if tag == 0x3F {
        group_form(&u[1..])
    } else {
        primitive_form(tag, &u[1..])
    }
}

// The head of the item at the front of u, where u ends with the file or with the definite group around it.
pub fn item_head(inside: bool, u: &[u8]) -> Result<ItemHead, Fault>
    ensures { result ≡ head_of inside u.now }
{
    match item_form(inside, u)? {
        None => Err(Fault::PastEnd),
        Some(ItemHead::Primitive { tag, start, len }) => {
            if u.len() - start < len {
                return Err(Fault::PastEnd);
            }
            Ok(ItemHead::Primitive { tag, start, len })
        }
        Some(
            ItemHead::Definite {
                channel,
                start,
                len,
            },
        ) => {
            if u.len() - start < len {
                return Err(Fault::PastEnd);
            }
            Ok(ItemHead::Definite {
                channel,
                start,
                len,
            })
        }
        Some(ItemHead::Open { channel, start }) => Ok(ItemHead::Open { channel, start }),
    }
}
