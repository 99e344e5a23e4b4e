// Octets that only have to come: those of a value before its last, of a refusal that waits, and of a waveform's surplus.
//
// For a reader that is fed in pieces: however many of them a piece has, they are taken at once.
// Promises, for any numbers and octets: `pass` answers how many octets it took, none where the next one does more, and the link behind them.
// Read first: crate arriving, then specs/Lasting.antt.
#![tactic(auto)]

ghost use Rattle.std.specs.Prelude.{◌≡◌, ◌-◌, ◌≤◌, length};
ghost use Rattle.link.specs.Link.{value, waveform, waits, kept_limit};
ghost use Rattle.held.specs.Words.{refusal_of};
ghost use Rattle.rows.specs.Rows.{coming_at};
ghost use Rattle.arriving.specs.Arriving.{kept_of};
ghost use Rattle.lasting.specs.Lasting.{Joined, Fits, Lasts, Ahead, Surplus, PassesIn, Passes};

use arriving::Link;
use held::{Held, Noted, Stage};
use rows::Spot;
use standing::Standing;

// A link behind octets that only had to come, the octets that it keeps, and how many it took.
#[derive(Clone, Copy)]
pub struct Passed {
    pub link: Link,
    pub octets: [u8; Held::ROOM],
    pub taken: usize,
}

// How many of n octets come before the limit.
fn within_limit(count: u64, n: usize) -> usize
    ensures { (result ≤ n) × Fits count result }
{
    let limit = Standing::OCTETS as u64;
    if limit <= count {
        return 0;
    }
    spread::smaller(n, (limit - count) as usize)
}

// How many of n octets come before the last of those that are left.
fn before_last(left: u64, n: usize) -> usize
    ensures { (result ≤ n) × (result ≤ left - 1) }
{
    if left == 0 {
        return 0;
    }
    if n as u64 <= left - 1 {
        n
    } else {
        (left - 1) as usize
    }
}

// The first n octets of p and those of u, as far as they are kept.
fn joined(p: [u8; Held::ROOM], n: usize, u: &[u8]) -> [u8; Held::ROOM]
    requires { n ≤ kept_limit }
    ensures { Joined p n u.now result }
{
    let mut r = p;
    let m = spread::smaller(u.len(), Held::KEPT - n);
    let mut a = 0;
    while a < m {
        r[n + a] = u[a];
        a += 1;
    }
    r
}

// How many of n octets only have to come.
fn most(x: Link, n: usize) -> usize
    ensures { (result ≤ n) × Lasts x.core.stage x.frame.sequences result }
{
    let core = x.core;
    let stage = core.stage;
    match stage {
        Stage::Value { tag: _, left } => before_last(left, n),
        Stage::Waits { left, refusal: _ } => before_last(left, n),
        Stage::Waveform {
            left,
            sequence,
            channel: _,
            index: _,
        } => {
            if sequence < x.frame.sequences {
                return 0;
            }
            if n as u64 <= left { n } else { left as usize }
        }
        Stage::Head => 0,
        Stage::Decided(_) => 0,
    }
}

// The first m octets of a value of which more are left.
fn value_on(x: Link, p: [u8; Held::ROOM], tag: u8, left: u64, u: &[u8], m: usize) -> Passed
    requires { Ahead x.core.count left (length u.now) m }
    ensures { PassesIn (value tag left (kept_of x p)) (Stage.Value tag left) x p u.now result }
{
    let n = spread::smaller(x.core.held, Held::KEPT);
    let octets = joined(p, n, octets::part(u, 0, m));
    let stage = Stage::Value {
        tag,
        left: left - m as u64,
    };
    Passed {
        link: arriving::further(x, m, spread::smaller(n + m, Held::KEPT), stage),
        octets,
        taken: m,
    }
}

// The first m octets that a refusal waits for.
fn waits_on(x: Link, p: [u8; Held::ROOM], left: u64, refusal: Noted, u: &[u8], m: usize) -> Passed
    requires { Ahead x.core.count left (length u.now) m }
    ensures { PassesIn (waits left (refusal_of refusal)) (Stage.Waits left refusal) x p u.now result }
{
    let stage = Stage::Waits {
        left: left - m as u64,
        refusal,
    };
    Passed {
        link: arriving::further(x, m, 0, stage),
        octets: p,
        taken: m,
    }
}

// The first m octets of a waveform's surplus.
fn surplus_on(x: Link, p: [u8; Held::ROOM], left: u64, at: Spot, u: &[u8], m: usize) -> Passed
    requires { Surplus x left at (length u.now) m }
    ensures { PassesIn (waveform left (coming_at at (kept_of x p))) (Stage.Waveform left at.sequence at.channel at.index) x p u.now result }
{
    let y = arriving::further(x, m, 0, Stage::Head);
    Passed {
        link: arriving::at_sample(y, left - m as u64, at, x.core.held),
        octets: p,
        taken: m,
    }
}

// Octets at the front of u that only have to come.
pub fn pass(x: Link, p: [u8; Held::ROOM], u: &[u8]) -> Passed
    ensures { Passes x p u.now result }
{
    let core = x.core;
    let stage = core.stage;
    let m = most(x, within_limit(x.core.count, u.len()));
    let none = Passed {
        link: x,
        octets: p,
        taken: 0,
    };
    if m == 0 {
        return none;
    }
    match stage {
        Stage::Value { tag, left } => value_on(x, p, tag, left, u, m),
        Stage::Waits { left, refusal } => waits_on(x, p, left, refusal, u, m),
        Stage::Waveform {
            left,
            sequence,
            channel,
            index,
        } => {
            let at = Spot {
                sequence,
                channel,
                index,
            };
            surplus_on(x, p, left, at, u, m)
        }
        Stage::Head => none,
        Stage::Decided(_) => none,
    }
}
