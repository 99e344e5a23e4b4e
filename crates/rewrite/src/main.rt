// Writes the canonical file of the MFER file on standard input, of at most 60,000 octets, to standard output.
//
// For a file that is refused it writes one line there instead, `refused R at P`; for a longer file nothing, and `too long` to standard error.
// `refused 23 at 0` is also its line where the canonical file is longer than 120,000 octets.
// Promises, for any reader and any writers whose octets are known: what is written is that of the file that is read. That the streams of the system are such a reader
// and such writers is not claimed.
// Read first: specs/Rewritten.antt.
#![tactic(auto)]

ghost use Rattle.std.specs.Prelude.{OnOk, IfSome};
ghost use Rattle.std.specs.Io.KnownBytes.{Appends};
ghost use Rattle.heads.specs.Answer.{refused_by};
ghost use Rattle.line.specs.Line.{line_of};
ghost use Rattle.rewrite.specs.Rewritten.{rewritten, complaint};

use heads::Refusal;
use std::io;
use std::io::{Read, Write};

// The octets of a file at most.
const LIMIT: usize = 60_000;

// The octets of its canonical file at most.
const ROOM: usize = 120_000;

// Writes the line of a refusal.
fn say_refused<W: Write>(to: &mut W, x: Refusal) -> io::Result<()>
    ensures { OnOk result (Appends (W.contents to.old) (W.contents to.new) (line_of (refused_by x))) }
{
    let mut line = [0u8; line::BUFFER];
    let k = line::put_line(Err(x), &mut line);
    to.write_all(octets::part(&line, 0, k))
}

// Reads a file and writes its canonical file. One octet more than the limit is read, to see that a file is longer.
fn rewrite<R: Read, W: Write, E: Write>(from: &mut R, to: &mut W, errors: &mut E) -> io::Result<()>
    ensures written { OnOk result (IfSome (R.remaining from.old) (λ file. Appends (W.contents to.old) (W.contents to.new) (rewritten file))) }
    ensures complained { OnOk result (IfSome (R.remaining from.old) (λ file. Appends (E.contents errors.old) (E.contents errors.new) (complaint file))) }
{
    let mut file = [0u8; LIMIT + 1];
    let n = input::read_full(from, &mut file)?;
    if LIMIT < n {
        return errors.write_all(b"too long\n");
    }
    let mut out = [0u8; ROOM];
    match canonical::write_canonical(&file[..n], &mut out) {
        Ok(k) => to.write_all(octets::part(&out, 0, k)),
        Err(x) => say_refused(to, x),
    }
}

fn main(rt: HostRuntime) -> io::Result<()> {
    rewrite(&mut rt.stdin(), &mut rt.stdout(), &mut rt.stderr())
}
