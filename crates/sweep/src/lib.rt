// Opening, taking and closing a sweep. A processor goes in by value and comes back by value; a refusal gives back the one that went in.
// No operation asks anything of its caller: any processor value, any slices and any buffer are safe.
#![tactic(auto)]

ghost use Rattle.std.specs.Prelude.{◌+◌, ◌≤◌, ◌≡◌, length};
ghost use Rattle.rules.specs.Samples.{lent, sweep_limit};
ghost use Rattle.calls.specs.Post.{open_of, TakePost, TakenPiece, ClosePost, ClosedOpen};

use calls::{Answered, Closed, closed_after, no_close, no_take, opened_with};
use front::values::{Values, keep};
use machine::work;
use pieces::drain;
use processor::{Processor, moved, progress_of};
use refusals::{close_refusal, open_refusal, take_refusal};
use rules::{Opening, RECORD};

// Opens a sweep. 1: mode not 1 to 3. 2: azimuth above 16,383. The processor of a refused opening is the idle one.
pub fn open(opening: Opening) -> Answered
    ensures { result ≡ open_of opening }
{
    match open_refusal(opening) {
        Err(refusal) => {
            let none = Opening {
                mode: 0,
                azimuth: 0,
            };
            opened_with(Err(refusal), none)
        }
        Ok(()) => opened_with(Ok(0), opening),
    }
}

// A take that is carried out. It asks for no more room than for the records that it writes.
fn take_piece(p: Processor, flags: &[u8], values: &[u8], out: &mut [u8]) -> Answered
    requires { p.taken + length flags.now ≤ sweep_limit }
    ensures { TakenPiece p (lent flags.now values.now) out.old result out.new }
{
    let mut recent = p.recent;
    let held = Values {
        recent: &recent,
        base: p.taken,
        piece: values,
    };
    let y = work(progress_of(p), flags, &held, out);
    keep(&mut recent, values);
    let taken = p.taken + flags.len() as u32;
    Answered {
        answer: Ok(y.at / RECORD),
        processor: moved(p, y, recent, taken),
    }
}

// Takes a piece of the sweep, and hands out the replies that are due. 3: no sweep open. 4: flag and value slices differ in length.
// 5: piece over 4,096. 6: sweep would pass 32,768. 7: reply buffer under 72 x ceil(n/206) bytes. 8: a bad flag byte.
pub fn take(p: Processor, flags: &[u8], values: &[u8], out: &mut [u8]) -> Answered
    ensures { TakePost p (lent flags.now values.now) out.old result out.new }
{
    match take_refusal(p.opening.mode, p.taken, flags, values, out.len()) {
        Err(refusal) => no_take(p, refusal),
        Ok(()) => take_piece(p, flags, values, out),
    }
}

// A close that is carried out. It asks for no more room than for the records that it writes.
pub fn close_open(p: Processor, out: &mut [u8]) -> Closed
    ensures { ClosedOpen p out.old result out.new }
{
    let recent = p.recent;
    let base = p.taken % 32769;
    let y = drain(progress_of(p), &recent, base, out);
    closed_after(y)
}

// Closes the sweep: hands out what is left, and returns the totals and the idle processor. 3: no sweep open. 7: reply buffer under 144 bytes.
pub fn close(p: Processor, out: &mut [u8]) -> Closed
    ensures { ClosePost p out.old result out.new }
{
    match close_refusal(p.opening.mode, out.len()) {
        Err(refusal) => no_close(p, refusal),
        Ok(()) => close_open(p, out),
    }
}
