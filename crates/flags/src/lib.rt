// Tests of many flag bytes at once.
#![tactic(auto)]

ghost use Rattle.std.specs.Prelude.{◌+◌, ◌≤◌, ◌≡◌, length};
ghost use Rattle.rules.specs.Lists.{any};
ghost use Rattle.rules.specs.Samples.{bad};
ghost use Rattle.flags.specs.Flags.{GatheredBy, FlaglessBlock, no_flags};

use packing::eight;

// Whether a flag byte is bad.
pub fn has_bad(flags: &[u8]) -> bool
    ensures { result ≡ any bad flags.now }
{
    let (blocks, rest) = flags.as_chunks::<64>();
    blocks.iter().any(|block| bad_block(block)) || bad_byte(rest)
}

// Whether one of 64 flag bytes is bad. The bits of all bytes, and the P with N of each, are gathered and tested once.
fn bad_block(flags: &[u8; 64]) -> bool
    ensures { result ≡ any bad flags.now }
{
    let bits = gather(flags, 0, |x| x);
    if bits == 0 {
        return false;
    }
    let pairs = gather(flags, 0, |x| x & (x >> 1));
    ((bits & 0xf0f0_f0f0_f0f0_f0f0) | (pairs & 0x0202_0202_0202_0202)) != 0
}

// The 64 flag bytes from o on, as words of eight bytes: what `part` makes of each word, or-ed.
fn gather<F: Fn(u64) -> u64>(flags: &[u8], o: usize, part: F) -> u64
    requires room { o + 64 ≤ length flags.now }
    requires called { F.IsAlwaysCallable part }
    ensures { GatheredBy (F.post part) flags.now o 7 result }
{
    part(eight(flags, o))
        | part(eight(flags, o + 8))
        | part(eight(flags, o + 16))
        | part(eight(flags, o + 24))
        | part(eight(flags, o + 32))
        | part(eight(flags, o + 40))
        | part(eight(flags, o + 48))
        | part(eight(flags, o + 56))
}

// Whether one of some flag bytes is bad, by the or of all, byte by byte.
fn bad_byte(flags: &[u8]) -> bool
    ensures { result ≡ any bad flags.now }
{
    let mut bits = 0u8;
    let mut pairs = 0u8;
    for x in flags {
        bits = bits | *x;
        pairs = pairs | (*x & (*x >> 1));
    }
    (15 < bits) | (pairs / 2 % 2 == 1)
}

// Whether no flag byte has a bit.
pub fn has_no_flag(flags: &[u8]) -> bool
    ensures { result ≡ no_flags flags.now }
{
    let (blocks, rest) = flags.as_chunks::<64>();
    blocks.iter().all(|block| is_flagless(block)) && rest.iter().all(|x| *x == 0)
}

// Whether none of 64 flag bytes has a bit.
fn is_flagless(flags: &[u8; 64]) -> bool
    ensures { result ≡ no_flags flags.now }
{
    flagless_block(flags, 0)
}

// Whether none of the 64 flag bytes from o on has a bit.
pub fn flagless_block(flags: &[u8], o: usize) -> bool
    requires { o + 64 ≤ length flags.now }
    ensures { FlaglessBlock flags.now o result }
{
    gather(flags, o, |x| x) == 0
}
