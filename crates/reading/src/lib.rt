// Frames, one a line: what a line says, or why it is refused.
#![tactic(auto)]

mod samples;

ghost use Rattle.std.specs.Prelude.{◌≤◌, ◌≡◌, length};
ghost use Rattle.reading.specs.Frames.{well_formed_lem};
ghost use Rattle.reading.specs.Post.{ReadPost};

use characters::{are_digits, byte_at};
use rules::{Opening, Refusal};
use samples::fill;

// Open, so many samples, or close.
#[derive(Clone, Copy)]
pub enum Frame {
    Open(Opening),
    Samples(usize),
    Close,
}

// What a line is: a frame, or refused with 9 or 10.
pub type Line = Result<Frame, Refusal>;

// 9: empty, over 258 digits, odd, another character, or no final newline.
fn well_formed(line: &[u8]) -> bool
    ensures { result ≡ well_formed_lem line.now }
{
    let n = line.len();
    if n < 2 {
        return false;
    }
    if 259 < n {
        return false;
    }
    if n % 2 != 1 {
        return false;
    }
    if line[n - 1] != 10 {
        return false;
    }
    are_digits(line, n - 1)
}

// What a line says, its newline included. Samples, at most 64, land at the start of the two slices lent; nothing else is written.
pub fn read(line: &[u8], flags: &mut [u8], values: &mut [u8]) -> Line
    requires { (64 ≤ length flags.old) × (64 ≤ length values.old) }
    ensures { ReadPost line.now flags.old values.old result flags.new values.new }
{
    if !well_formed(line) {
        return Err(Refusal::Malformed);
    }
    let m = line.len() - 1;
    match byte_at(line, 0) {
        1 if m == 8 => {
            let high = byte_at(line, 4) as u16;
            let low = byte_at(line, 6) as u16;
            Ok(Frame::Open(Opening {
                mode: byte_at(line, 2),
                azimuth: 256 * high + low,
            }))
        }
        2 if m % 4 == 2 && 6 <= m => {
            let n = m / 4;
            fill(line, n, flags, values);
            Ok(Frame::Samples(n))
        }
        3 if m == 2 => Ok(Frame::Close),
        _ => Err(Refusal::NoFrame),
    }
}
