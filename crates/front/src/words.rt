// The words of a sweep's ticks that edges and brackets are found from. All of them move on together, by 1 to 64 ticks.
ghost use Rattle.std.specs.Prelude.{◌<◌, ◌≤◌, ◌≡◌, []};
ghost use Rattle.front.specs.Words.{front_of};
ghost use Rattle.front.specs.Post.{AdvancePost, blank};

use edges::{Past, detect_or_skip};
use packing::Planes;
use plane::slide;

// Words of 64 ticks, bit i for the i-th tick of the word; a 1 behind a name: the 64 ticks before.
// Stays: a field for each word, since the definition `front_of` says what each field holds.
#[derive(Clone, Copy, PartialEq, Default)]
pub struct Front {
    // A, P and N of the ticks taken last
    pub a: u64,
    pub a1: u64,
    pub p: u64,
    pub p1: u64,
    pub n: u64,
    pub n1: u64,
    // leads, calm ticks and the ticks s+4j of runs, up to two ticks before the last
    pub l: u64,
    pub l1: u64,
    pub k: u64,
    pub k1: u64,
    pub h: u64,
    pub h1: u64,
    // edges up to nine ticks before the last
    pub e: u64,
    pub e1: u64,
    pub e2: u64,
    pub e3: u64,
    // M of the ticks taken last
    pub m: u64,
    pub m1: u64,
    pub m2: u64,
    pub m3: u64,
}

// The words after r ticks more, whose flags are the r low bits of x.
pub fn advance(f: Front, x: Planes, r: u32) -> Front
    requires { (0 < r) × (r ≤ 64) }
    ensures { AdvancePost f x r result }
{
    let a = slide(f.a, x.a, r);
    let a1 = slide(f.a1, f.a, r);
    let p = slide(f.p, x.p, r);
    let p1 = slide(f.p1, f.p, r);
    let n = slide(f.n, x.n, r);
    let n1 = slide(f.n1, f.n, r);
    let l1 = slide(f.l1, f.l, r);
    let k1 = slide(f.k1, f.k, r);
    let h1 = slide(f.h1, f.h, r);
    let e1 = slide(f.e1, f.e, r);
    let e2 = slide(f.e2, f.e1, r);
    let e3 = slide(f.e3, f.e2, r);
    let m = slide(f.m, x.m, r);
    let m1 = slide(f.m1, f.m, r);
    let m2 = slide(f.m2, f.m1, r);
    let m3 = slide(f.m3, f.m2, r);
    let past = Past {
        a: a1,
        p: p1,
        n: n1,
        lead: l1,
        calm: k1,
        chain: h1,
    };
    let d = detect_or_skip(past, a, p, n);
    Front {
        a,
        a1,
        p,
        p1,
        n,
        n1,
        l: d.lead,
        l1,
        k: d.calm,
        k1,
        h: d.chain,
        h1,
        e: d.edge,
        e1,
        e2,
        e3,
        m,
        m1,
        m2,
        m3,
    }
}

// Whether all words are 0: no flag in the last 128 ticks, and neither an edge nor an M in the last 256.
pub fn is_blank(f: Front) -> bool
    ensures { result ≡ blank f }
{
    f == Front::default()
}

// The words before the first tick.
pub fn no_front() -> Front
    ensures { result ≡ front_of [] }
{
    Front::default()
}
