// Planes, facts of each tick, in words of 64 ticks: bit i of a word is the fact of tick b+i, where b is the word's first tick.
// Moving a word on, and going through its set bits.
#![tactic(auto)]

ghost use Rattle.std.specs.Prelude.{◌-◌, ◌<◌, ◌≤◌, ◌≡◌};
ghost use Rattle.plane.specs.Words.{bit, Slid, Lowest, WithoutLowest};

// A word of 64 ticks, with the word of the 64 ticks before them.
#[derive(Clone, Copy)]
pub struct Stretch {
    pub word: u64,
    pub before: u64,
}

impl Stretch {
    pub fn new(before: u64, word: u64) -> Stretch
        ensures { result ≡ record { word = word; before = before } }
    {
        Stretch { word, before }
    }

    // The word of the 64 ticks that start k before those of `word`.
    pub fn back(self, k: u32) -> u64
        requires { k < 64 }
        ensures { Slid self.before self.word (64 - k) result }
    {
        slide(self.before, self.word, 64 - k)
    }
}

// The word r ticks on, 1 to 64: the r low bits of `now` come after the 64 ticks of `before`, whose first r drop out.
pub fn slide(before: u64, now: u64, r: u32) -> u64
    requires { (0 < r) × (r ≤ 64) }
    ensures { Slid before now r result }
{
    if r == 64 {
        return now;
    }
    (now << (64 - r)) | ((before >> 1) >> (r - 1))
}

// The number of a bit within its word, which is that of a tick within its block.
#[derive(Clone, Copy)]
pub struct Nth {
    pub n: u32,
    ghost below: { n < 64 },
}

// The number of the lowest set bit.
pub fn lowest(x: u64) -> Nth
    requires { 0 < x }
    ensures { Lowest x result.n }
{
    Nth {
        n: u64::trailing_zeros(x),
    }
}

// The word without its lowest set bit.
pub fn without_lowest(x: u64) -> u64
    requires { 0 < x }
    ensures { WithoutLowest x result }
{
    x & (x - 1)
}

// Bit i of a word.
pub fn marked(x: u64, i: Nth) -> bool
    ensures { result ≡ bit x i.n }
{
    (x >> i.n) % 2 == 1
}
