// Words of a block's 64 ticks: those that a reply covers, and those at which a bracket removes it.
#![tactic(auto)]

ghost use Rattle.std.specs.Prelude.{ℕ, ◌+◌, ◌<◌, ◌≡◌, get_or};
ghost use Rattle.masks.specs.Masks.{Across, Shown, CoverMask, PhantomMask};

use plane::{Nth, slide};
use rules::Tick;

// Words of ticks in a row, from 65 ticks before F1 on: those that a reply covers.
static COVERED: [u64; 5] = [
    0,
    0x7007007007007007,
    0x0700700700700700,
    0x0000070070070070,
    0x0000000000007000,
];

// The same: those at which a bracket removes it, if it is a potential phantom.
static REMOVED: [u64; 4] = [
    0,
    0xf80f80f80f80f800,
    0x0f80f80f80f80f80,
    0x00000f80f80f80f8,
];

// The k-th of words in a row; behind the last no tick is marked.
fn nth(words: &[u64], k: u32) -> u64
    ensures { result ≡ get_or words.now k 0 }
{
    words.get(k as usize).copied().unwrap_or(0)
}

// The 64 bits from bit r of `first` on, with `second` behind it.
fn across(first: u64, second: u64, r: u32) -> u64
    requires { r < 64 }
    ensures { Across first second r result }
{
    if r == 0 {
        return first;
    }
    slide(first, second, r)
}

// The ticks u from t-242 on that words mark whose first tick is 65 before q.
// Stays: Tick is a form that document 01 names, one number, so the limit of t stands in the clauses here and in covering, span and visits.
fn shown(words: &[u64], q: Tick, t: Tick) -> u64
    requires below { t.0 < 65000 }
    requires first { get_or words.now 0 0 ≡ 0 }
    ensures { Shown words.now q.0 t.0 result }
{
    if 65535 < q.0 {
        return 0;
    }
    if t.0 < q.0 + 177 {
        return 0;
    }
    let g = t.0 - q.0 - 177;
    let a = nth(words, g / 64);
    let b = nth(words, g / 64 + 1);
    across(a, b, g % 64)
}

// The ticks u from t-242 on that a reply with F1 at q covers.
pub fn cover_mask(q: Tick, t: Tick) -> u64
    requires { t.0 < 65000 }
    ensures { CoverMask q.0 t.0 result }
{
    shown(&COVERED, q, t)
}

// The ticks u from t-242 on at which a bracket removes a reply with F1 at q.
pub fn phantom_mask(q: Tick, suspect: bool, t: Tick) -> u64
    requires { t.0 < 65000 }
    ensures { PhantomMask q.0 suspect t.0 result }
{
    if !suspect {
        return 0;
    }
    shown(&REMOVED, q, t)
}

// The ticks of a block that a reply covers whose F1 is the i-th of them.
pub fn open_cover(i: Nth) -> u64
    ensures { (q t : ℕ) → t + i.n ≡ q + 242 → CoverMask q t result }
{
    (0x3803803803803803 << i.n) | ((1 << i.n) >> 1)
}

// Those at which a bracket removes it.
pub fn open_phantom(i: Nth, suspect: bool) -> u64
    ensures { (q t : ℕ) → t + i.n ≡ q + 242 → PhantomMask q suspect t result }
{
    if !suspect {
        return 0;
    }
    0x7c07c07c07c07c00 << i.n
}
