// What an edge makes of a place that covers it: a position is settled.
#![tactic(auto)]

ghost use Rattle.std.specs.Prelude.{◌≡◌, ◌<◌, if◌then◌else◌, nat_eq};
ghost use Rattle.rules.specs.Replies.{verdict, average as average'};
ghost use Rattle.replies.specs.Sums.{wrapped};
ghost use Rattle.settling.specs.Hearing.{position_number, goes_to, place_of, fresh_in, kind_of, estimate_of_lem, hear_by};
ghost use Rattle.settling.specs.Deals.{heard_by};

use replies::{average, choose, code_of, level_of, settle_bit, sure_of};
use rules::{Estimate, Place, Pulse, Reference, Reply, Slot, Tick};

// The position of a reply with F1 at q that covers u, where one does; else a number up to 21.
fn position_of(q: Tick, u: Tick) -> u32
    ensures { result ≡ position_number q.0 u.0 }
{
    u.0.wrapping_add(1).wrapping_sub(q.0) % 256 / 12
}

// The number of the bit of position k; 15 for position 0, which no edge settles.
fn place(k: u32) -> u32
    ensures is { result ≡ place_of k }
    ensures below { result < 16 }
{
    (k % 32 + 15 - 2 * (k % 32 / 16)) % 16
}

// 1 where bit p is not among the settled, else 0; 0 for bit 15.
fn fresh(settled: u16, p: u32) -> u16
    requires { p < 16 }
    ensures is { result ≡ fresh_in settled p }
    ensures below { result < 2 }
{
    ((32767 - settled % 32768) >> p) % 2
}

// Stays: numbers for the kind and for yes or no, by which `choose` goes without a branch (docs/DECISIONS.md, "No branch on what an edge settles").
fn kind_of(e: Estimate) -> u16
    ensures { result ≡ kind_of e }
{
    match e {
        Estimate::Lone(_) => 0,
        Estimate::Average(_) => 1,
    }
}

fn estimate_of(kind: u16, x: f64) -> Estimate
    ensures { result ≡ estimate_of_lem kind x }
{
    if kind == 0 {
        return Estimate::Lone(x);
    }
    Estimate::Average(x)
}

// The reference with the value v if h is 1, as it is if h is 0. No branch: which of both is not to be foreseen.
fn taken_in(f: Reference, h: u16, v: u8) -> Reference
    requires { h < 2 }
    ensures { result ≡ (if nat_eq h 1 then average' wrapped f v else f) }
{
    let g = average(f, v);
    let levels = [level_of(f.estimate), level_of(g.estimate)];
    let kind = choose(h, kind_of(g.estimate), kind_of(f.estimate));
    Reference {
        estimate: estimate_of(kind, levels[usize::from(h)]),
        n: choose(h, g.n, f.n),
        s: choose(h, g.s, f.s),
    }
}

// The reply after the edge e goes to it; by whether it agrees, and another does.
fn hear(r: Reply, e: Pulse, own: bool, other: bool) -> Reply
    ensures { result ≡ hear_by (goes_to r.f1.0 e.tick.0) e (verdict e.main own other) r }
{
    let p = place(position_of(r.f1, e.tick));
    let h = fresh(r.word.settled, p);
    let b = h << p;
    let code = code_of(e.main, own, other);
    let sure = sure_of(e.main, own, other);
    let ones = if code { b } else { 0 };
    let unsure = if sure { 0 } else { b };
    let taken = if sure { h } else { 0 };
    Reply {
        word: settle_bit(r.word, b, ones, unsure),
        reference: taken_in(r.reference, taken, e.value),
        ..r
    }
}

// The place after the edge e goes to it.
pub fn heard(p: Place, e: Pulse, own: bool, other: bool) -> Place
    ensures { result ≡ heard_by e own other p }
{
    match p.slot {
        Slot::Idle => Place { slot: Slot::Idle },
        Slot::Open(r) => Place {
            slot: Slot::Open(hear(r, e, own, other)),
        },
    }
}
