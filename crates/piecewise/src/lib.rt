// A sweep by calls: opened, taken piece by piece and closed, each by its operation. What it answers is proved by the theorem over lists of calls
// (crates/calls/specs/Whole.antt), for the list of the calls that it makes.
#![tactic(auto)]

ghost use Rattle.std.specs.Prelude.{◌≡◌, Err, length};
ghost use Rattle.rules.specs.Calls.{accepted};
ghost use Rattle.rules.specs.Records.{totals_size};
ghost use Rattle.rules.specs.Samples.{lent};
ghost use Rattle.calls.specs.Post.{no_totals_lem};
ghost use Rattle.whole_refusals.specs.Whole.{whole_answer};
ghost use Rattle.piecewise.specs.Post.{Calls, ByCallsPost};

use calls::Answer;
use rules::{Opening, RECORD, Refusal, TOTALS, Totals};
use sweep::{close, open, take};
use takes::Reached;
use whole_refusals::whole_refusal;

// How many replies were handed out in all, or the refusal; and the totals.
#[derive(Clone, Copy)]
pub struct Swept {
    pub answer: Answer,
    pub totals: Totals,
}

// A sweep that is turned down.
fn turned_down(refusal: Refusal) -> Swept
    ensures { result ≡ record { answer = Err refusal; totals = no_totals_lem } }
{
    Swept {
        answer: Err(refusal),
        totals: Totals {
            found: 0,
            replies: 0,
            sidelobe: 0,
            garbled: 0,
            lost: 0,
            phantoms: 0,
        },
    }
}

// Opens a sweep that nothing turns down, and takes all its pieces, each into the rest of the buffer.
fn take_each(opening: Opening, flags: &[u8], values: &[u8], piece: usize, out: &mut [u8]) -> Reached
    requires { whole_answer opening (lent flags.now values.now) piece (length out.old) totals_size ≡ accepted }
    ensures { Calls opening (lent flags.now values.now) out.old result.processor result.at out.new }
{
    let n = flags.len();
    let o = open(opening);
    let mut p = o.processor;
    let mut at: usize = 0;
    for k in 0..n.div_ceil(piece) {
        let i = k * piece;
        let end = i + piece.min(n - i);
        let t = take(p, &flags[i..end], &values[i..end], &mut out[at..]);
        at = at + RECORD * t.answer.unwrap_or(0);
        p = t.processor;
    }
    Reached { processor: p, at }
}

// A sweep that nothing turns down. The close goes into the rest of the buffer.
fn accepted_sweep(
    opening: Opening,
    flags: &[u8],
    values: &[u8],
    piece: usize,
    out: &mut [u8],
) -> Swept
    requires { whole_answer opening (lent flags.now values.now) piece (length out.old) totals_size ≡ accepted }
    ensures { ByCallsPost opening (lent flags.now values.now) piece out.old result out.new }
{
    let t = take_each(opening, flags, values, piece, out);
    let at = t.at;
    let c = close(t.processor, &mut out[at..]);
    let count = at / RECORD + c.answer.unwrap_or(0);
    Swept {
        answer: Ok(count),
        totals: c.totals,
    }
}

// Opens a sweep, takes it in pieces of `piece` ticks, and closes it, each by a call of its operation. The records of all replies land at the start of
// `out`; or the answer is the refusal of a whole sweep, and nothing is written.
pub fn sweep_by_calls(
    opening: Opening,
    flags: &[u8],
    values: &[u8],
    piece: usize,
    out: &mut [u8],
) -> Swept
    ensures { ByCallsPost opening (lent flags.now values.now) piece out.old result out.new }
{
    let totals = [0u8; TOTALS];
    match whole_refusal(opening, flags, values, piece, out, &totals) {
        Err(refusal) => turned_down(refusal),
        Ok(()) => accepted_sweep(opening, flags, values, piece, out),
    }
}
