// All pieces of a sweep whose trace is lent whole, one after the other.
#![tactic(auto)]

ghost use Rattle.std.specs.Prelude.{◌+◌, ◌-◌, ◌*◌, ◌/◌, ◌≤◌, ◌<◌, min, ◌≡◌, length, get_or};
ghost use Rattle.rules.specs.Records.{record_size};
ghost use Rattle.places.specs.Places.{idle};
ghost use Rattle.front.specs.Post.{KeepPost};
ghost use Rattle.rules.specs.Samples.{lent};
ghost use Rattle.takes.specs.Post.{part, arrived_at, TakeAllPost};

use blocks::is_quiet;
use front::values::{Values, keep};
use machine::work;
use processor::{Processor, Progress, moved, progress_of};
use rules::{Place, RECORD};

// The processor after some pieces, and the place in the buffer behind the last record.
#[derive(Clone, Copy)]
pub struct Reached {
    pub processor: Processor,
    pub at: usize,
}

// The place in a buffer of n bytes behind the records up to `at` and those that `more` bytes hold.
fn behind(at: usize, more: usize, n: usize) -> usize
    requires { at ≤ n }
    ensures { result ≡ at + record_size * min (more / record_size) ((n - at) / record_size) }
{
    at + RECORD * (more / RECORD).min((n - at) / RECORD)
}

// The first of the four decoders.
fn first_place(y: Progress) -> Place
    ensures { result ≡ get_or y.places 0 idle }
{
    let p = y.places;
    p[0]
}

// The processor after n ticks, from how far the pieces have come, and the place in the buffer behind the last record.
fn arrived(p: Processor, y: Progress, recent: [u8; 256], n: u32, at: usize) -> Reached
    ensures { result ≡ arrived_at p y recent n at }
{
    Reached {
        processor: moved(p, y, recent, n),
        at,
    }
}

// Makes the kept values those up to tick `to`, from those up to tick `from`.
fn keep_part(recent: &mut [u8; 256], values: &[u8], from: usize, to: usize)
    requires { (from ≤ to) × (to ≤ length values.now) }
    ensures { KeepPost recent.old (part from to values.now) recent.new }
{
    if from < to {
        keep(recent, &values[from..to]);
    }
}

// All pieces, of `piece` ticks each but for the last. One that finds nothing is passed over: `recent` has the values up to tick `kept`, and those
// behind it are kept once a piece needs them.
pub fn take_all(p: Processor, flags: &[u8], values: &[u8], piece: usize, out: &mut [u8]) -> Reached
    requires { (length flags.now ≡ length values.now) × (1 ≤ piece) × (length flags.now ≤ 32768) }
    ensures { TakeAllPost p (lent flags.now values.now) out.old result out.new }
{
    let n = flags.len();
    let mut y = progress_of(p);
    let mut recent = p.recent;
    let mut kept: usize = 0;
    let mut at: usize = 0;
    let mut i: usize = 0;
    // Stays: with `for k in 0..n.div_ceil(piece)` a quiet sweep in pieces of 64 took 0.100 ns a tick, with this loop 0.087 (0.089 before both).
    while i < n {
        let end = i + piece.min(n - i);
        let front = y.front;
        let first = first_place(y);
        if is_quiet(front, first, i as u32, &flags[i..end]) {
            i = end;
            continue;
        }
        keep_part(&mut recent, values, kept, i);
        let held = Values {
            recent: &recent,
            base: i as u32,
            piece: &values[i..end],
        };
        y = work(y, &flags[i..end], &held, &mut out[at..]);
        keep_part(&mut recent, values, i, end);
        kept = end;
        at = behind(at, y.at, out.len());
        y.at = 0;
        i = end;
    }
    keep_part(&mut recent, values, kept, n);
    arrived(p, y, recent, n as u32, at)
}
