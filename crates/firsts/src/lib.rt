// The ticks of F1 of the four places: which replies are over, which of them cover a tick or make one military, and the reply that opens beside them.
#![tactic(auto)]

ghost use Rattle.std.specs.Prelude.{◌≡◌, ◌<◌};
ghost use Rattle.rules.specs.Replies.{ended as ended', military as military'};
ghost use Rattle.places.specs.Places.{test};
ghost use Rattle.firsts.specs.Ticks.{first_of, firsts_of_lem, Tells, AnyTells, NonePost, HidesPost, AnyHidesPost, InsidePost, AnyInsidePost, FreePost, BusyPost, OpenedPost};

use marking::{Words, any_word};
use places::opened_by;
use plane::{Nth, marked};
use replies::{ended, military};
use rules::{Place, Pulse, Reply, Slot, Tick};

// The tick of F1; the highest number where the place is idle: no reply of a sweep has it.
// Stays: NonePost, HidesPost and Tells (specs/Ticks.antt) speak of one tick for each place, and a test by it has no branch.
fn first_of(p: Place) -> Tick
    ensures { result ≡ first_of p }
{
    match p.slot {
        Slot::Idle => Tick(u32::MAX),
        Slot::Open(r) => r.f1,
    }
}

// The place has a reply that is no longer open at u.
pub fn is_over(p: Place, u: Tick) -> bool
    ensures { result ≡ test (ended' u.0) p }
{
    ended(first_of(p), u)
}

// The ticks of F1 of the four places; the highest number for an idle one.
// Stays: four fields, as in Words and Places: each is read by its own name, none by a number that is found out, and f[3] is no plainer than f.d.
#[derive(Clone, Copy)]
pub struct Firsts {
    pub a: Tick,
    pub b: Tick,
    pub c: Tick,
    pub d: Tick,
}

pub fn firsts_of(p: [Place; 4]) -> Firsts
    ensures { result ≡ firsts_of_lem p }
{
    Firsts {
        a: first_of(p[0]),
        b: first_of(p[1]),
        c: first_of(p[2]),
        d: first_of(p[3]),
    }
}

// No place has F1 at q.
fn is_none(q: Tick) -> bool
    ensures { NonePost q result }
{
    q.0 == u32::MAX
}

// A reply with F1 at q covers w, where an F2 of a later bracket stands: at position 14 or 17.
fn hides(q: Tick, w: Tick) -> bool
    ensures { HidesPost q w.0 result }
{
    let d = std::num::wrapping_sub_u64(w.0 as u64, q.0 as u64 + 167);
    (d < 3) | (std::num::wrapping_sub_u64(d, 36) < 3)
}

pub fn any_hides(f: Firsts, w: Tick) -> bool
    ensures { AnyHidesPost f w.0 result }
{
    hides(f.a, w) | hides(f.b, w) | hides(f.c, w) | hides(f.d, w)
}

// A reply that opens at u is military by one with F1 at q.
fn makes_military(q: Tick, u: Tick) -> bool
    ensures { Tells (military' u.0) q result }
{
    military(q, u)
}

fn any_military(f: Firsts, u: Tick) -> bool
    ensures { AnyTells (military' u.0) f result }
{
    makes_military(f.a, u)
        | makes_military(f.b, u)
        | makes_military(f.c, u)
        | makes_military(f.d, u)
}

// A reply with F1 at q covers u at position 1 to 14, where c says that it covers u.
fn inside(c: bool, q: Tick, u: Tick) -> bool
    ensures { InsidePost c q u.0 result }
{
    c & (std::num::wrapping_sub_u64(u.0 as u64, q.0 as u64 + 2) < 201)
}

fn any_inside(f: Firsts, on: Words, i: Nth, u: Tick) -> bool
    ensures { AnyInsidePost f on i.n u.0 result }
{
    inside(marked(on.a, i), f.a, u)
        | inside(marked(on.b, i), f.b, u)
        | inside(marked(on.c, i), f.c, u)
        | inside(marked(on.d, i), f.d, u)
}

// The first idle place, or the last.
// Stays: a number and no Option, by FreePost; it is asked where BusyPost has said that a place is idle.
pub fn free(f: Firsts) -> usize
    ensures is { FreePost f result }
    ensures below { result < 4 }
{
    if is_none(f.a) {
        return 0;
    }
    if is_none(f.b) {
        return 1;
    }
    if is_none(f.c) {
        return 2;
    }
    3
}

// No place is idle.
pub fn is_busy(f: Firsts) -> bool
    ensures { BusyPost f result }
{
    !is_none(f.d)
}

// The reply that opens.
pub fn opened(f: Firsts, on: Words, i: Nth, e: Pulse, f2: Pulse) -> Reply
    ensures { OpenedPost f on i.n e f2 result }
{
    let u = e.tick;
    opened_by(
        marked(any_word(on), i),
        any_inside(f, on, i, u),
        any_military(f, u),
        e,
        f2,
    )
}
