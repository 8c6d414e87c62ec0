// The machine's view of 64 ticks u: words of the edges at u and at the three places of an F2, and of the M of each.
#![tactic(auto)]

ghost use Rattle.std.specs.Prelude.{◌+◌, ◌-◌, ◌<◌, ◌≤◌, ◌≡◌, cond};
ghost use Rattle.plane.specs.Words.{bit};
ghost use Rattle.span.specs.Spans.{SpanPost, TopPost, AbovePost, has_bracket_lem, sooner_in, later_in};

use brackets::{at167, at168, due};
use front::words::Front;
use plane::{Nth, marked, slide};
use rules::Tick;

// The 64 ticks u that the machine can work, as words: edges at u, at u+168, at u+167 and at u+169, and the M of each.
#[derive(Clone, Copy)]
pub struct Span {
    pub due: u64,
    pub at168: u64,
    pub at167: u64,
    pub at169: u64,
    pub main: u64,
    pub main168: u64,
    pub main167: u64,
    pub main169: u64,
}

pub fn span_of(f: Front) -> Span
    ensures { SpanPost f result }
{
    Span {
        due: due(f.e2, f.e3),
        at168: at168(f.e, f.e1),
        at167: at167(f.e, f.e1),
        at169: f.e,
        main: slide(f.m3, f.m2, 15),
        main168: slide(f.m1, f.m, 55),
        main167: slide(f.m1, f.m, 54),
        main169: slide(f.m1, f.m, 56),
    }
}

// The bits of the last r ticks.
pub fn top(x: u64, r: u32) -> u64
    requires { (0 < r) × (r ≤ 64) }
    ensures { TopPost x r result }
{
    (x >> (64 - r)) << (64 - r)
}

// The bits above bit i.
pub fn above(x: u64, i: Nth) -> u64
    ensures { AbovePost x i.n result }
{
    (((x >> i.n) >> 1) << 1) << i.n
}

// A bracket stands at the i-th tick of the span, if an edge does.
pub fn has_bracket(s: Span, i: Nth) -> bool
    ensures { result ≡ has_bracket_lem s i.n }
{
    marked(s.at168 | s.at167 | s.at169, i)
}

// The ticks whose F2 stands 167 ticks behind, for want of an edge at 168.
fn sooner(s: Span) -> u64
    ensures { result ≡ sooner_in s }
{
    s.at167 & !s.at168
}

// Those whose F2 can only stand 169 ticks behind.
fn later(s: Span) -> u64
    ensures { result ≡ later_in s }
{
    !(s.at168 | s.at167)
}

// How far behind an edge its F2 stands: 168 ticks, else 167, else 169.
pub fn apart(s: Span, i: Nth) -> u32
    ensures is { result ≡ cond (bit s.at168 i.n) 168 (cond (bit s.at167 i.n) 167 169) }
    ensures most { result ≤ 169 }
{
    168 + u32::from(marked(later(s), i)) - u32::from(marked(sooner(s), i))
}

// M of the F2 there.
pub fn second_main(s: Span, i: Nth) -> bool
    ensures { result ≡ cond (bit s.at168 i.n) (bit s.main168 i.n) (cond (bit s.at167 i.n) (bit s.main167 i.n) (bit s.main169 i.n)) }
{
    let x = s.at168 & s.main168;
    let y = sooner(s) & s.main167;
    let z = later(s) & s.main169;
    marked(x | (y | z), i)
}

// The tick of the i-th place of the span, once t ticks are taken; 0 for a place before the sweep.
pub fn tick_of(t: Tick, i: Nth) -> Tick
    requires { t.0 < 65000 }
    ensures below { result.0 < 65536 }
    ensures is { result.0 ≡ t.0 + i.n - 242 }
{
    Tick((t.0 + i.n).saturating_sub(242))
}
