// One reply: tests by ticks, what it agrees with, and what an edge settles. Numbers in, numbers out.
#![tactic(auto)]

ghost use Rattle.std.specs.Prelude.{◌≡◌, ◌<◌, if◌then◌else◌, nat_eq};
ghost use Rattle.replies.specs.Sums.{wrapped, word_plus};
ghost use Rattle.rules.specs.declared.Reply.{Reply};
ghost use Rattle.rules.specs.Settings.{standard};
ghost use Rattle.rules.specs.Replies.{ended as ended', military as military', level, near as near', averaged as averaged', average as average', verdict};

use rules::{Estimate, Reference, Reply, Tick, Word};

// At tick u a reply with F1 at q is no longer open.
pub fn ended(q: Tick, u: Tick) -> bool
    ensures { (r : Reply) → r.f1 ≡ q → result ≡ ended' u.0 r }
{
    u64::from(q.0) + 205 < u64::from(u.0)
}

// A reply that opens at u is military by an open one with F1 at q.
pub fn military(q: Tick, u: Tick) -> bool
    ensures { (r : Reply) → r.f1 ≡ q → result ≡ military' u.0 r }
{
    let f1 = u64::from(q.0);
    let at = u64::from(u.0);
    (f1 + 203 <= at) & (at <= f1 + 205)
}

pub fn level_of(e: Estimate) -> f64
    ensures { result ≡ level e }
{
    match e {
        Estimate::Lone(x) => x,
        Estimate::Average(x) => x,
    }
}

// The value v agrees with the reference x.
pub fn near(x: f64, v: u8) -> bool
    ensures { result ≡ near' standard.window x v }
{
    let y = f64::from(v);
    (x - y <= 8.0) & (y - x <= 8.0)
}

// The estimate x with one more value.
fn averaged(x: f64, v: u8) -> f64
    ensures { result ≡ averaged' x v }
{
    (x + f64::from(v)) * 0.5
}

// The reference with one more value.
pub fn average(f: Reference, v: u8) -> Reference
    ensures { result ≡ average' wrapped f v }
{
    let x = averaged(level_of(f.estimate), v);
    Reference {
        estimate: Estimate::Average(x),
        n: f.n.wrapping_add(1),
        s: f.s.wrapping_add(u16::from(v)),
    }
}

// The code of a position, by whether the edge has M, agrees with the reply's own reference, and with another's.
pub fn code_of(main: bool, own: bool, other: bool) -> bool
    ensures { result ≡ (verdict main own other).code }
{
    main & (own | !other)
}

// And its confidence.
pub fn sure_of(main: bool, own: bool, other: bool) -> bool
    ensures { result ≡ (verdict main own other).confidence }
{
    main & (own & !other)
}

// a if h is 1, b if it is 0: by arithmetic, which has no branch.
pub fn choose(h: u16, a: u16, b: u16) -> u16
    requires { h < 2 }
    ensures { result ≡ (if nat_eq h 1 then a else b) }
{
    b.wrapping_add(h * a.wrapping_sub(b))
}

// The word with a position settled whose bit is b, with c for the code and n for unsure; with 0 for all three the word as it is.
pub fn settle_bit(w: Word, b: u16, c: u16, n: u16) -> Word
    ensures { result ≡ word_plus w b c n }
{
    Word {
        settled: w.settled.wrapping_add(b),
        code: w.code.wrapping_add(c),
        unsure: w.unsure.wrapping_add(n),
    }
}
