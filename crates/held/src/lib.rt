// A link kept in words that a caller lends.
//
// Its own numbers and the octets that it keeps stand first, its walk behind them (crate walking). A number is that of the lowest octets of its word, so that
// any words at all hold some link.
// Promises, for any words: `core_at` and `octets_at` answer what words hold, and `keep` stores it. Words too few stay as they are.
// Read first: crate link, then specs/Words.antt.
#![tactic(auto)]

ghost use Rattle.std.specs.Prelude.{◌≡◌, ◌++◌, ◌+◌, ◌-◌, ◌≤◌, ◌<◌, min, length, get_or, take};
ghost use Rattle.octets.specs.Number.{low_of};
ghost use Rattle.words.specs.Words.{words_at, Overlaid};
ghost use Rattle.link.specs.Link.{kept_limit};
ghost use Rattle.held.specs.Words.{kept_place, noted_of, refusal_by, stage_by, core_by, core_in, octets_in, with_held, Keeping};

use heads::Refusal;
use walking::Walking;

// The sizes of a link kept in words.
#[derive(Clone, Copy)]
pub struct Held {}

impl Held {
    // Words of a link's own.
    pub const OWN: usize = 64;

    // Words of a link.
    pub const WORDS: usize = Held::OWN + Walking::WORDS;

    // Octets of an item that are kept at most, and those with the one that comes next.
    pub const KEPT: usize = 35;

    pub const ROOM: usize = Held::KEPT + 1;

    // Their place, one a word. The numbers stand before it, in words 0 to 9.
    const PLACE: usize = 16;
}

// A refusal as words hold it: the number and the place. Words may hold a number that no fault has.
#[derive(Clone, Copy)]
pub struct Noted {
    pub number: u8,
    pub place: usize,
}

impl Noted {
    // A refusal as it is stored.
    pub fn of(refusal: Refusal) -> Noted
        ensures { result ≡ noted_of refusal }
    {
        Noted {
            number: refusal.fault.number(),
            place: refusal.place,
        }
    }
}

// Where in an item the octets have come to, besides the octets that are kept: in its head, in its value, in a waveform at a sample, before a refusal that is
// sure once so many octets have come, or at the answer.
#[derive(Clone, Copy)]
pub enum Stage {
    Head,
    Value {
        tag: u8,
        left: u64,
    },
    Waveform {
        left: u64,
        sequence: u32,
        channel: u32,
        index: u32,
    },
    Waits {
        left: u64,
        refusal: Noted,
    },
    Decided(Result<u32, Noted>),
}

// A link's own numbers; `held` octets are kept.
#[derive(Clone, Copy)]
pub struct Core {
    pub count: u64,
    pub around: u64,
    pub held: usize,
    pub stage: Stage,
}

// The number of a word's lowest octet.
fn one_at(w: &[u64], n: usize) -> u8
    ensures { result ≡ low_of 1 (get_or w.now n 0) }
{
    (kept::word(w, n) % octets::ONE_OCTET) as u8
}

// The refusal that words hold.
fn refusal_at(w: &[u64]) -> Noted
    ensures { result ≡ refusal_by (words_at w.now 0) }
{
    Noted {
        number: one_at(w, 5),
        place: kept::word(w, 6) as usize,
    }
}

// The stage that they hold. A kind that no stage has is a refusal's, so that any words are some link.
fn stage_at(w: &[u64]) -> Stage
    ensures { result ≡ stage_by (words_at w.now 0) }
{
    let kind = kept::word(w, 3);
    let left = kept::word(w, 4);
    match kind {
        0 => Stage::Head,
        1 => Stage::Value {
            tag: one_at(w, 5),
            left,
        },
        2 => Stage::Waveform {
            left,
            sequence: kept::four_at(w, 7),
            channel: kept::four_at(w, 8),
            index: kept::four_at(w, 9),
        },
        3 => Stage::Waits {
            left,
            refusal: refusal_at(w),
        },
        4 => Stage::Decided(Ok(kept::four_at(w, 6))),
        _ => Stage::Decided(Err(refusal_at(w))),
    }
}

// How many octets they keep: never more than there is room for, whatever the word says.
fn held_at(w: &[u64]) -> usize
    ensures { result ≡ (core_in w.now).held }
{
    spread::smaller(kept::word(w, 2) as usize, Held::KEPT)
}

// The numbers that words hold.
pub fn core_at(w: &[u64]) -> Core
    ensures { result ≡ core_in w.now }
{
    let stage = stage_at(w);
    Core {
        count: kept::word(w, 0),
        around: kept::word(w, 1),
        held: held_at(w),
        stage,
    }
}

// The octets that they keep, at the front.
pub fn octets_at(w: &[u64]) -> [u8; Held::KEPT]
    ensures { take (core_in w.now).held result ≡ octets_in w.now }
{
    let held = held_at(w);
    let mut r = [0u8; Held::KEPT];
    let mut a = 0;
    while a < held {
        r[a] = one_at(w, Held::PLACE + a);
        a += 1;
    }
    r
}

// The words of a stage, which stand from word 3 on.
fn stage_words(x: Stage) -> [u64; 7]
    ensures { stage_by (λ a. get_or result (a - 3) 0) ≡ x }
{
    match x {
        Stage::Head => [0, 0, 0, 0, 0, 0, 0],
        Stage::Value { tag, left } => [1, left, tag as u64, 0, 0, 0, 0],
        Stage::Waveform {
            left,
            sequence,
            channel,
            index,
        } => [2, left, 0, 0, sequence as u64, channel as u64, index as u64],
        Stage::Waits { left, refusal: r } => [3, left, r.number as u64, r.place as u64, 0, 0, 0],
        Stage::Decided(answer) => match answer {
            Ok(n) => [4, 0, 0, n as u64, 0, 0, 0],
            Err(r) => [5, 0, r.number as u64, r.place as u64, 0, 0, 0],
        },
    }
}

// The words before the octets: the numbers, with so many octets held. The last six are free.
fn numbers_of(c: Core, held: usize) -> [u64; Held::PLACE]
    ensures { core_by (λ a. get_or result a 0) ≡ with_held (min held kept_limit) c }
{
    let stage = c.stage;
    let x = stage_words(stage);
    [
        c.count,
        c.around,
        held as u64,
        x[0],
        x[1],
        x[2],
        x[3],
        x[4],
        x[5],
        x[6],
        0,
        0,
        0,
        0,
        0,
        0,
    ]
}

// Word n of words and of octets behind them.
fn word_of(x: &[u64], p: &[u8], n: usize) -> u64
    requires { n < length x.now + length p.now }
    ensures { result ≡ get_or (x.now ++ p.now) n 0 }
{
    if n < x.len() {
        x[n]
    } else {
        p[n - x.len()] as u64
    }
}

// Stores the first n of them, an octet a word.
fn store(w: &mut [u64], x: &[u64], p: &[u8], n: usize)
    requires { (n ≤ length w.old) × (n ≤ length x.now + length p.now) }
    ensures { Overlaid w.old 0 (x.now ++ p.now) n w.new }
{
    let mut a = 0;
    while a < n {
        w[a] = word_of(x, p, a);
        a += 1;
    }
}

// Numbers and octets stored.
pub fn keep(w: &mut [u64], c: Core, p: &[u8])
    ensures { Keeping w.old c p.now w.new }
{
    if w.len() < Held::OWN {
        return;
    }
    let held = spread::smaller(c.held, spread::smaller(Held::KEPT, p.len()));
    let numbers = numbers_of(c, held);
    store(w, &numbers, p, Held::PLACE + held);
}
