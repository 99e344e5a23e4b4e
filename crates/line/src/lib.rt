// The line of an answer of the check, as document 01's program writes it: `frames N` or `refused R at P`.
//
// Promises, for any answer and any buffer of 64 octets: `put_line` answers the line's length, the line stands at the start of the buffer, and the
// octets past it are as they were. 64 octets hold the longest line, which has two numbers of 20 digits.
// Read first: specs/Line.antt.
#![tactic(auto)]

ghost use Rattle.stores.specs.Storing.{Putting};
ghost use Rattle.heads.specs.Answer.{answer_of};
ghost use Rattle.line.specs.Line.{decimal_of, Lined};

use heads::Refusal;

// The octets of a buffer that holds any line.
pub const BUFFER: usize = 64;

// Stores a text from `at` on, where it fits, and answers the place after it.
fn put_text(out: &mut [u8], at: usize, text: &[u8]) -> usize
    ensures { Putting out.old at text.now result out.new }
{
    runs::copy(text, 0, text.len(), out, at)
}

// Stores a number in decimal in the same way.
fn put_decimal(out: &mut [u8], at: usize, n: u64) -> usize
    ensures { Putting out.old at (decimal_of n) result out.new }
{
    let mut digits = [0u8; 20];
    let k = io::decimal(n, &mut digits);
    put_text(out, at, &digits[..k])
}

// Puts the line of an answer at the start of out, and answers how many octets it has.
pub fn put_line(answer: Result<u32, Refusal>, out: &mut [u8; BUFFER]) -> usize
    ensures { Lined (answer_of answer) out.old result out.new }
{
    match answer {
        Ok(n) => {
            let a = put_text(out, 0, b"frames ");
            let b = put_decimal(out, a, u64::from(n));
            put_text(out, b, b"\n")
        }
        Err(x) => {
            let a = put_text(out, 0, b"refused ");
            let b = put_decimal(out, a, u64::from(x.fault.number()));
            let c = put_text(out, b, b" at ");
            let d = put_decimal(out, c, x.place as u64);
            put_text(out, d, b"\n")
        }
    }
}
