// Copying runs of octets, plain or with the octets of each sample turned round, into a buffer that the caller lends.
//
// Every public function is total, and promises `Putting` of stores/specs/Storing.antt as the functions of `stores` do. Read it
// first, and then the definition that each contract names.
#![tactic(auto)]

ghost use Rattle.std.specs.Prelude.{◌≡◌, ◌∷◌, [], reverse, ◌⊎◌, ◌+◌, ◌-◌, ◌*◌, ◌/◌, ◌≤◌, min, length, take, drop};
ghost use Rattle.std.proofs.lemmas.List.Edits.{sets};
ghost use Rattle.stores.specs.Storing.{Putting};
ghost use Rattle.runs.specs.Turned.{turned, turned_run};

// Copies n octets of src from `from` on, or as many as there are.
pub fn copy(src: &[u8], from: usize, n: usize, dst: &mut [u8], at: usize) -> usize
    ensures { Putting dst.old at (take n (drop from src.now)) result dst.new }
{
    let part = octets::part(src, from, n);
    if stores::overruns(dst.len(), at, part.len()) {
        return at;
    }
    let end = at + part.len();
    dst[at..end].copy_from_slice(part);
    end
}

// Stores one sample of w octets, the last octet first.
fn turn_sample(src: &[u8], from: usize, w: usize, dst: &mut [u8], at: usize)
    requires w_in_bounds { from + w ≤ length src.now }
    requires w_in_bounds_2 { at + w ≤ length dst.old }
    ensures { dst.new ≡ sets dst.old at (reverse (take w (drop from src.now))) }
{
    let end = at + w;
    for k in 0..w {
        dst[end - 1 - k] = src[from + k];
    }
}

// Turns n samples of w octets round, one at a time.
fn turn_each(src: &[u8], from: usize, n: usize, w: usize, dst: &mut [u8], at: usize)
    requires w_in_bounds { from + n * w ≤ length src.now }
    requires w_in_bounds_2 { at + n * w ≤ length dst.old }
    ensures { dst.new ≡ sets dst.old at (turned w n (drop from src.now)) }
{
    for k in 0..n {
        turn_sample(src, from + k * w, w, dst, at + k * w);
    }
}

// Turns the n samples of w octets round in their place.
fn turn_here(xs: &mut [u8], n: usize, w: usize)
    requires { length xs.old ≡ n * w }
    ensures { xs.new ≡ turned w n xs.old }
{
    for k in 0..n {
        xs[k * w..k * w + w].reverse();
    }
}

// Turns n samples of w octets round, 16 octets at a time and then the rest. A block is turned round in an array of its own, which lies apart from both slices, as the
// compiler knows: it makes one wide move of the block (docs/DECISIONS.md 124).
fn turn_blocks(src: &[u8], from: usize, n: usize, w: usize, dst: &mut [u8], at: usize)
    requires fact { (w ≡ 2) ⊎ ((w ≡ 4) ⊎ (w ≡ 8)) }
    requires w_in_bounds { from + n * w ≤ length src.now }
    requires w_in_bounds_2 { at + n * w ≤ length dst.old }
    ensures { dst.new ≡ sets dst.old at (turned w n (drop from src.now)) }
{
    let each = 16 / w;
    let blocks = n / each;
    for k in 0..blocks {
        let q = from + k * 16;
        let p = at + k * 16;
        let mut block = [0u8; 16];
        block.copy_from_slice(&src[q..q + 16]);
        turn_here(&mut block, each, w);
        dst[p..p + 16].copy_from_slice(&block);
    }
    turn_each(src, from + blocks * 16, n % each, w, dst, at + blocks * 16);
}

// Turns n samples round. A width that has a fast way is passed as a literal, so that the compiler makes a loop for it.
fn turn_run(src: &[u8], from: usize, n: usize, w: usize, dst: &mut [u8], at: usize)
    requires w_in_bounds { from + n * w ≤ length src.now }
    requires w_in_bounds_2 { at + n * w ≤ length dst.old }
    ensures { dst.new ≡ sets dst.old at (turned w n (drop from src.now)) }
{
    match w {
        1 => {
            copy(src, from, n, dst, at);
        }
        2 => turn_blocks(src, from, n, 2, dst, at),
        4 => turn_blocks(src, from, n, 4, dst, at),
        8 => turn_blocks(src, from, n, 8, dst, at),
        _ => turn_each(src, from, n, w, dst, at),
    }
}

// Stores n samples of w octets of src from `from` on, each with its octets turned round, where all of them are there.
pub fn turn(src: &[u8], from: usize, n: usize, w: usize, dst: &mut [u8], at: usize) -> usize
    ensures { Putting dst.old at (turned_run w n (drop from src.now)) result dst.new }
{
    if w == 0 {
        return at;
    }
    if src.len() < from {
        return at;
    }
    if (src.len() - from) / w < n {
        return at;
    }
    let size = n * w;
    if stores::overruns(dst.len(), at, size) {
        return at;
    }
    turn_run(src, from, n, w, dst, at);
    at + size
}
