// A whole sweep in one call, on numbers and byte buffers, for a program in C: opened, taken in pieces, closed.
#![tactic(auto)]

ghost use Rattle.std.specs.Prelude.{◌-◌, ◌^◌, ◌≤◌, ◌≡◌, length};
ghost use Rattle.rules.specs.Records.{totals_size};
ghost use Rattle.whole_refusals.specs.Whole.{whole_answer};
ghost use Rattle.rules.specs.Samples.{lent};
ghost use Rattle.whole.specs.Post.{CloseAtPost, WholePost, WholeByNumbers};
ghost use Rattle.rules.specs.Calls.{accepted, number_of};
ghost use Rattle.calls.specs.Post.{open_of};
ghost use Rattle.rules.specs.Buffers.{over};
ghost use Rattle.frames.specs.Writing.{totals_bytes_lem};

use frames::totals_bytes;
use processor::Processor;
use rules::{MOST_LEFT, Opening, RECORD, Refusal, TOTALS, Totals};
use sweep::{close_open, open};
use takes::take_all;
use whole_refusals::whole_refusal;

// The close, whose records land behind those of the pieces, and the totals. Answers how many records there are in all.
fn close_at(p: Processor, out: &mut [u8], at: usize, totals: &mut [u8]) -> usize
    requires { (at ≤ length out.old) × (totals_size ≤ length totals.old) }
    ensures { CloseAtPost p at out.old totals.old result out.new totals.new }
{
    let c = close_open(p, &mut out[at..]);
    put_totals(c.totals, totals);
    match c.answer {
        Err(_) => at / RECORD,
        Ok(count) => at / RECORD + count.min(MOST_LEFT),
    }
}

// The six totals, 2 bytes each, at the start of the buffer.
fn put_totals(t: Totals, totals: &mut [u8])
    requires { totals_size ≤ length totals.old }
    ensures { totals.new ≡ over (totals_bytes_lem t) totals.old }
{
    totals[..TOTALS].copy_from_slice(&totals_bytes(t));
}

// The processor of an opening.
fn opened(opening: Opening) -> Processor
    ensures { result ≡ (open_of opening).processor }
{
    let o = open(opening);
    o.processor
}

// A whole sweep that nothing turns down. Answers how many records there are.
fn swept(
    opening: Opening,
    flags: &[u8],
    values: &[u8],
    piece: usize,
    out: &mut [u8],
    totals: &mut [u8],
) -> u32
    requires { whole_answer opening (lent flags.now values.now) piece (length out.old) (length totals.old) ≡ accepted }
    ensures { WholePost opening (lent flags.now values.now) piece out.old totals.old result out.new totals.new }
{
    let t = take_all(opened(opening), flags, values, piece, out);
    let count = close_at(t.processor, out, t.at, totals);
    (count % 65536) as u32
}

// Minus the number of a refusal, in 32 bits.
fn minus(refusal: Refusal) -> u32
    ensures { result ≡ 2 ^ 32 - number_of refusal }
{
    u32::from(u8::from(refusal)).wrapping_neg()
}

// Opens a sweep, takes it in pieces of `piece` ticks, and closes it. The records of all replies land at the start of `out`, the totals at the start
// of `totals`, and the answer is the count of records; or, read as an int32_t,
// minus the number of a refusal, and nothing is written. 1: mode not 1 to 3. 2: azimuth
// above 16,383. 4: flag and value slices differ in length. 5: pieces of 0 or over 4,096. 6: over 32,768 ticks. 7: `out` under
// 72 x ceil(n/206) + 144 bytes, or `totals` under 12. 8: a bad flag byte.
#[unsafe(no_mangle)]
pub extern "C" fn whole_sweep(
    mode: u8,
    azimuth: u16,
    flags: &[u8],
    values: &[u8],
    piece: usize,
    out: &mut [u8],
    totals: &mut [u8],
) -> u32
    ensures { WholeByNumbers mode azimuth (lent flags.now values.now) piece out.old totals.old result out.new totals.new }
{
    let opening = Opening { mode, azimuth };
    match whole_refusal(opening, flags, values, piece, out, totals) {
        Err(refusal) => minus(refusal),
        Ok(()) => swept(opening, flags, values, piece, out, totals),
    }
}
