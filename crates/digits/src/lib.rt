// Digits: numbers of a set width: of the first octets of a part, and of the lowest octets of a number, unsigned or with a sign.
//
// For the crates that read attributes, samples and records: none of them narrows a number or carries up a sign by itself.
// Promises: each public function answers for every input and its whole answer is a definition of octets/specs/Number.antt. Octets
// that the width leaves out are not looked at, nor is any past the fourth of a signed number.
// Read first: octets/specs/Number.antt; then `span` and `extended`, on which the rest stands.
#![tactic(auto)]

ghost use Rattle.std.specs.Prelude.{◌≡◌, ◌<◌, ◌≤◌, min, take};
ghost use Rattle.octets.specs.Number.{range, low_of, number_of, twos, signed_of};

// The number of the first two octets.
pub fn two(s: &[u8], little: bool) -> u16
    ensures { result ≡ number_of «little» (take 2 s.now) }
{
    octets::number(octets::part(s, 0, 2), little) as u16
}

// The number of the first four octets.
pub fn four(s: &[u8], little: bool) -> u32
    ensures { result ≡ number_of «little» (take 4 s.now) }
{
    octets::number(octets::part(s, 0, 4), little) as u32
}

// How many numbers w octets tell apart.
fn span(w: usize) -> u64
    requires { w < 8 }
    ensures { result ≡ range w }
{
    1 << (8 * w)
}

// The number of the lowest w octets of a number.
pub fn lowest(n: u64, w: usize) -> u64
    ensures { result ≡ low_of w n }
{
    if 8 <= w {
        return n;
    }
    n % span(w)
}

// Two's complement at w octets: the sign is carried up from the top octet.
fn extended(n: u64, w: usize) -> i32
    requires { (w ≤ 4) × (n < range w) }
    ensures { result ≡ twos w n }
{
    let full = span(w);
    if 2 * n < full {
        n as i32
    } else {
        !((full - 1 - n) as i32)
    }
}

// Two's complement at the lowest w octets of a number, at most four.
pub fn lowest_signed(n: u64, w: usize) -> i32
    ensures { result ≡ twos (min w 4) (low_of (min w 4) n) }
{
    let k = w.min(4);
    extended(lowest(n, k), k)
}

// The signed number of the first four octets.
pub fn signed(s: &[u8], little: bool) -> i32
    ensures { result ≡ signed_of «little» (take 4 s.now) }
{
    let x = octets::part(s, 0, 4);
    extended(octets::number(x, little), x.len())
}

// The signed number of one octet.
pub fn signed_octet(b: u8) -> i8
    ensures { result ≡ twos 1 b }
{
    b.cast_signed()
}
