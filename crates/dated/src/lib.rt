// What stands for a channel, kept as it stood at a time: a root definition and tag 05 note a time and change no channel's record.
//
// The time grows by one at each root definition and at each tag 05, and at nothing else. A record says what stood for its channel at its time;
// `Dates` has the times of the root's last definition of each attribute and of the last tag 05. A record is brought up to date when it is
// looked at: what the root has defined since is the root's.
// Promises, for any numbers: `Dates::first`, `defined` and `cleared` keep the times, `note` is a record of now, `Dated::table` has all records
// at the defaults, and `settle` answers what stands for a record's channel now. That this is document 01's rule is proved in proofs/Laws.antt.
// Read first: specs/Dated.antt.
#![tactic(auto)]

ghost use Rattle.std.specs.Prelude.{◌≡◌};
ghost use Rattle.octets.specs.Pick.{pick};
ghost use Rattle.dated.specs.Dated.{noted, dated_table, first_dates, timed, root_defined, all_cleared, settled_from, settled_at};

use settings::{Change, Settings};

// What stood for a channel at a time.
#[derive(Clone, Copy)]
pub struct Dated {
    pub settings: Settings,
    pub at: u32,
}

// When the root last defined each attribute; 0 is before the first item.
#[derive(Clone, Copy)]
pub struct Times {
    pub block: u32,
    pub class: u32,
    pub lead: u32,
    pub datatype: u32,
    pub interval: u32,
    pub resolution: u32,
    pub offset: u32,
    pub null: u32,
}

// The root's times, that of the last tag 05, and the time now.
#[derive(Clone, Copy)]
pub struct Dates {
    pub times: Times,
    pub cleared: u32,
    pub now: u32,
}

impl Dated {
    // All channel records at the defaults.
    pub fn table() -> [Dated; Settings::CHANNELS]
        ensures { result ≡ dated_table }
    {
        let settings = Settings::default();
        [Dated { settings, at: 0 }; Settings::CHANNELS]
    }
}

// The times, where the root defines an attribute now.
fn timed(t: Times, c: Change, now: u32) -> Times
    ensures { result ≡ timed c now t }
{
    let mut u = t;
    match c {
        Change::Block(_) => {
            u.block = now;
        }
        Change::Class(_) => {
            u.class = now;
        }
        Change::Lead(_) => {
            u.lead = now;
        }
        Change::DataType(_) => {
            u.datatype = now;
        }
        Change::Interval(_) => {
            u.interval = now;
        }
        Change::Resolution(_) => {
            u.resolution = now;
        }
        Change::Offset(_) => {
            u.offset = now;
        }
        Change::Null(_) => {
            u.null = now;
        }
    }
    u
}

impl Dates {
    // Before the first item.
    pub fn first() -> Dates
        ensures { result ≡ first_dates }
    {
        Dates {
            times: Times {
                block: 0,
                class: 0,
                lead: 0,
                datatype: 0,
                interval: 0,
                resolution: 0,
                offset: 0,
                null: 0,
            },
            cleared: 0,
            now: 1,
        }
    }

    // After a definition outside a group.
    pub fn defined(self, c: Change) -> Dates
        ensures { result ≡ root_defined c self }
    {
        let times = timed(self.times, c, self.now);
        Dates {
            times,
            cleared: self.cleared,
            now: self.now.wrapping_add(1),
        }
    }

    // After tag 05.
    pub fn cleared(self) -> Dates
        ensures { result ≡ all_cleared self }
    {
        let times = self.times;
        Dates {
            times,
            cleared: self.now,
            now: self.now.wrapping_add(1),
        }
    }

    // A record of now.
    pub fn note(self, s: Settings) -> Dated
        ensures { result ≡ noted self.now s }
    {
        Dated {
            settings: s,
            at: self.now,
        }
    }
}

// The first of two, or the second.
fn either<T: Copy>(first: bool, a: T, b: T) -> T
    ensures { result ≡ pick first a b }
{
    if first { a } else { b }
}

// What the root has defined since a record's time is the root's.
fn settled_from(root: Settings, t: Times, x: Dated) -> Settings
    ensures { result ≡ settled_from root t x }
{
    let s = x.settings;
    Settings {
        block: either(x.at <= t.block, root.block, s.block),
        class: either(x.at <= t.class, root.class, s.class),
        lead: either(x.at <= t.lead, root.lead, s.lead),
        datatype: either(x.at <= t.datatype, root.datatype, s.datatype),
        interval: either(x.at <= t.interval, root.interval, s.interval),
        resolution: either(x.at <= t.resolution, root.resolution, s.resolution),
        offset: either(x.at <= t.offset, root.offset, s.offset),
        null: either(x.at <= t.null, root.null, s.null),
    }
}

// What stands for a record's channel now.
pub fn settle(root: Settings, d: Dates, x: Dated) -> Settings
    ensures { result ≡ settled_at root d x }
{
    if x.at <= d.cleared {
        return root;
    }
    if x.at == d.now {
        return x.settings;
    }
    settled_from(root, d.times, x)
}
