// One call of the feed over a link that goes by value.
//
// Octets are taken as many at a time as may be: whole items of the piece (crate ahead), whole samples (crate rows), octets that only have to come (crate
// lasting); where none of these takes one, a single octet (crate arriving).
// Promises, for any numbers, octets, words and room: `feed` takes, leaves and gives out what the definition of a call says, and the buffer has the rows of
// what is given out at its front and is else as it was.
// Read first: specs/Feed.antt of crate link, then specs/Turns.antt.
#![tactic(auto)]

ghost use Rattle.std.specs.Prelude.{◌≡◌, ◌<◌, min, length};
ghost use Rattle.standing.specs.Standing.{octets_limit};
ghost use Rattle.link.specs.Link.{gives};
ghost use Rattle.arriving.specs.Arriving.{link_by};
ghost use Rattle.ahead.specs.Ahead.{told_behind};
ghost use Rattle.lasting.specs.Lasting.{Passes};
ghost use Rattle.turns.specs.Turns.{no_run, passed_of, Runs, RunsOn, AtSamples, GivesBy, sample_given_by, HeadIn, StopsIn, OctetOn, Open, Turns, Feeds};

use arriving::Link;
use held::{Core, Held, Stage};
use rows::{Row, Spot};
use standing::Standing;
use walk::Waveform;

// A link behind octets that were taken, the octets that it keeps, how many it took and how many rows it gave out.
#[derive(Clone, Copy)]
pub struct Ran {
    pub link: Link,
    pub octets: [u8; Held::ROOM],
    pub taken: usize,
    pub given: usize,
}

// The same, and whether the call stops there.
#[derive(Clone, Copy)]
struct Turned {
    ran: Ran,
    stops: bool,
}

// Nothing is taken.
fn none(x: Link, p: [u8; Held::ROOM]) -> Ran
    ensures { result ≡ no_run x p }
{
    Ran {
        link: x,
        octets: p,
        taken: 0,
        given: 0,
    }
}

// The frame that is told behind so many octets of items.
fn told_behind(taken: usize, v: Waveform) -> Waveform
    ensures { result ≡ told_behind taken v }
{
    if taken == 0 {
        return v;
    }
    walking::no_waveform()
}

// Whole items of the piece, between two items.
fn items_on(t: &mut [u64], x: Link, p: [u8; Held::ROOM], u: &[u8]) -> Ran
    requires { x.core.stage ≡ Stage.Head }
    ensures { RunsOn x p t.old u.now result t.new }
{
    let head = x.head;
    let c = head.cursor;
    if x.core.held != 0 {
        return none(x, p);
    }
    if c.at as u64 != x.core.count {
        return none(x, p);
    }
    let a = ahead::items(u, head, x.core.around, t);
    let after = a.head;
    let stands = after.cursor;
    let frame = told_behind(a.taken, x.frame);
    Ran {
        link: Link {
            core: Core {
                count: stands.at as u64,
                around: a.around,
                held: 0,
                stage: Stage::Head,
            },
            head: after,
            frame,
        },
        octets: p,
        taken: a.taken,
        given: 0,
    }
}

// Octets that only have to come.
fn pass_on(x: Link, p: [u8; Held::ROOM], u: &[u8]) -> Ran
    ensures { Passes x p u.now (passed_of result) × (result.given ≡ 0) }
{
    let a = lasting::pass(x, p, u);
    let link = a.link;
    let octets = a.octets;
    Ran {
        link,
        octets,
        taken: a.taken,
        given: 0,
    }
}

// The least of what is left and of how many there are.
fn least(left: u64, n: usize) -> usize
    ensures { result ≡ min left n }
{
    if left < n as u64 { left as usize } else { n }
}

// Whole samples of a waveform of which so many octets are left, from the one at hand on, of which nothing has come.
fn samples_on(
    t: &[u64],
    x: Link,
    p: [u8; Held::ROOM],
    left: u64,
    at: Spot,
    u: &[u8],
    out: &mut [u64],
) -> Ran
    requires { AtSamples x left at }
    ensures { Runs x p t.now u.now out.old result t.now out.new }
{
    let frame = x.frame;
    let part = octets::part(u, 0, least(left, u.len()));
    let l = rows::lay(t, frame, at, x.core.count, part, out);
    if l.given == 0 {
        return none(x, p);
    }
    let next = l.at;
    let y = arriving::further(x, l.taken, 0, Stage::Head);
    Ran {
        link: arriving::at_sample(y, left - l.taken as u64, next, 0),
        octets: p,
        taken: l.taken,
        given: l.given,
    }
}

// As many octets at once as may be; none where the next one wants to be looked at by itself.
fn many(t: &mut [u64], x: Link, p: [u8; Held::ROOM], u: &[u8], out: &mut [u64]) -> Ran
    ensures { Runs x p t.old u.now out.old result t.new out.new }
{
    let core = x.core;
    let stage = core.stage;
    match stage {
        Stage::Head => items_on(t, x, p, u),
        Stage::Waveform {
            left,
            sequence,
            channel,
            index,
        } => {
            if 0 < left && core.held == 0 && sequence < x.frame.sequences {
                let at = Spot {
                    sequence,
                    channel,
                    index,
                };
                return samples_on(t, x, p, left, at, u, out);
            }
            pass_on(x, p, u)
        }
        _ => pass_on(x, p, u),
    }
}

// What an octet gives out: nothing, a sample for which there is no room, or a row.
#[derive(Clone, Copy)]
enum Gave {
    Nothing,
    Full,
    Given,
}

// What an octet of the sample at hand gives out.
fn sample_given(t: &[u64], x: Link, p: [u8; Held::ROOM], b: u8, at: Spot, out: &mut [u64]) -> Gave
    requires { x.core.count < octets_limit }
    ensures { GivesBy (sample_given_by x p t.now b at) out.old result out.new }
{
    let n = spread::smaller(x.core.held, Held::KEPT);
    let c = words::sampling_at(t, at.channel as usize);
    if n + 1 < values::width(c.datatype) {
        return Gave::Nothing;
    }
    if out.len() < Row::WORDS {
        return Gave::Full;
    }
    let mut q = p;
    q[n] = b;
    rows::put_sample(
        t,
        x.frame.little,
        at,
        octets::part(&q, 0, n + 1),
        x.core.count + 1,
        out,
    );
    Gave::Given
}

// What an octet gives out.
fn gives(t: &[u64], x: Link, p: [u8; Held::ROOM], b: u8, out: &mut [u64]) -> Gave
    ensures { GivesBy (gives (link_by x p t.now) b) out.old result out.new }
{
    let core = x.core;
    let stage = core.stage;
    if Standing::OCTETS as u64 <= x.core.count {
        return Gave::Nothing;
    }
    match stage {
        Stage::Waveform {
            left: _,
            sequence,
            channel,
            index,
        } => {
            if x.frame.sequences <= sequence {
                return Gave::Nothing;
            }
            let at = Spot {
                sequence,
                channel,
                index,
            };
            sample_given(t, x, p, b, at, out)
        }
        Stage::Head => Gave::Nothing,
        Stage::Value { tag: _, left: _ } => Gave::Nothing,
        Stage::Waits {
            left: _,
            refusal: _,
        } => Gave::Nothing,
        Stage::Decided(_) => Gave::Nothing,
    }
}

// Whether a stage is that of a head.
fn is_head(stage: Stage) -> bool
    ensures { HeadIn stage result }
{
    match stage {
        Stage::Head => true,
        Stage::Value { tag: _, left: _ } => false,
        Stage::Waveform {
            left: _,
            sequence: _,
            channel: _,
            index: _,
        } => false,
        Stage::Waits {
            left: _,
            refusal: _,
        } => false,
        Stage::Decided(_) => false,
    }
}

// Whether a call stops behind an octet that led from a stage to a link: with the answer, or where settings are due.
fn stops_behind(stage: Stage, y: Link) -> bool
    ensures { StopsIn stage y result }
{
    let core = y.core;
    let after = core.stage;
    if arriving::is_decided(after) {
        return true;
    }
    is_head(stage) && 0 < y.frame.channels
}

// An octet by itself, which gives out so many rows.
fn octet_on(t: &mut [u64], x: Link, p: [u8; Held::ROOM], b: u8, given: usize) -> Turned
    ensures { OctetOn x p t.old b given result t.new }
{
    let core = x.core;
    let stage = core.stage;
    let a = arriving::octet(t, x, p, b);
    let link = a.link;
    let octets = a.octets;
    let stops = stops_behind(stage, link);
    Turned {
        ran: Ran {
            link,
            octets,
            taken: 1,
            given,
        },
        stops,
    }
}

// The octet at the front of u by itself.
fn single(t: &mut [u64], x: Link, p: [u8; Held::ROOM], u: &[u8], out: &mut [u64]) -> Turned
    requires { (0 < length u.now) × Open x p t.old }
    ensures { Turns x p t.old u.now out.old result t.new out.new }
{
    let b = u[0];
    match gives(t, x, p, b, out) {
        Gave::Nothing => octet_on(t, x, p, b, 0),
        Gave::Full => Turned {
            ran: none(x, p),
            stops: true,
        },
        Gave::Given => octet_on(t, x, p, b, 1),
    }
}

// As many octets at the front of u as may be taken at once, or else one.
fn turn(t: &mut [u64], x: Link, p: [u8; Held::ROOM], u: &[u8], out: &mut [u64]) -> Turned
    ensures { Turns x p t.old u.now out.old result t.new out.new }
{
    let core = x.core;
    let stage = core.stage;
    if u.len() == 0 {
        return Turned {
            ran: none(x, p),
            stops: true,
        };
    }
    if arriving::is_decided(stage) {
        return Turned {
            ran: none(x, p),
            stops: true,
        };
    }
    let ran = many(t, x, p, u, out);
    if 0 < ran.taken {
        return Turned { ran, stops: false };
    }
    let link = ran.link;
    let octets = ran.octets;
    single(t, link, octets, u, out)
}

// One call.
pub fn feed(t: &mut [u64], x: Link, p: [u8; Held::ROOM], s: &[u8], out: &mut [u64]) -> Ran
    ensures { Feeds x p t.old s.now out.old result t.new out.new }
{
    let mut link = x;
    let mut octets = p;
    let mut taken = 0usize;
    let mut given = 0usize;
    loop {
        let at = given * Row::WORDS;
        let r = turn(t, link, octets, &s[taken..], &mut out[at..]);
        let ran = r.ran;
        let after = ran.link;
        let kept = ran.octets;
        link = after;
        octets = kept;
        taken += ran.taken;
        given += ran.given;
        if r.stops {
            return Ran {
                link,
                octets,
                taken,
                given,
            };
        }
    }
}
