// A block of up to 64 ticks: its planes, how long it is, and when it changes nothing.
#![tactic(auto)]

ghost use Rattle.std.specs.Prelude.{◌+◌, ◌≤◌, ◌<◌, ◌≡◌, ◌&&◌, length};
ghost use Rattle.packing.specs.Packing.{PackedPart};
ghost use Rattle.front.specs.Post.{blank};
ghost use Rattle.blocks.specs.Steps.{block_length_lem, flagless, none_due_lem, quiet};

use firsts::is_over;
use flags::{flagless_block, has_no_flag};
use front::words::{Front, is_blank};
use packing::{Planes, pack, pack_part};
use rules::{Place, Tick};

// The planes of r ticks from o on.
pub fn packed(flags: &[u8], o: usize, r: usize) -> Planes
    requires { (o + r ≤ length flags.now) × (r ≤ 64) }
    ensures { PackedPart flags.now o r result }
{
    if r == 64 {
        if flagless_block(flags, o) {
            return Planes::default();
        }
        return pack(flags, o);
    }
    pack_part(flags, o, r)
}

// How many of the n ticks left the next block takes.
pub fn block_length(n: usize) -> usize
    ensures is { result ≡ block_length_lem n }
    ensures most { result ≤ 64 }
    ensures within { result ≤ n }
    ensures some { 0 < n → 0 < result }
{
    n.min(64)
}

// Whether none of the planes has a flag.
fn is_flagless(x: Planes) -> bool
    ensures { result ≡ flagless x }
{
    x == Planes::default()
}

// Whether the reply of the first place, if there is one, is not due once t ticks are taken.
pub fn none_due(first: Place, t: Tick) -> bool
    ensures { result ≡ none_due_lem first t.0 }
{
    if t.0 < 179 {
        return true;
    }
    !is_over(first, Tick(t.0 - 179))
}

// Whether a block of these planes leaves words and places as they are, once t ticks are taken.
pub fn stays(f: Front, first: Place, x: Planes, t: Tick) -> bool
    ensures { result ≡ (flagless x && (blank f && none_due_lem first t.0)) }
{
    if !is_flagless(x) {
        return false;
    }
    if !is_blank(f) {
        return false;
    }
    none_due(first, t)
}

// Whether these flags, behind `base` ticks, change nothing but the count of ticks and the kept values: no flag is set, no word has a bit, no reply becomes due.
pub fn is_quiet(f: Front, first: Place, base: u32, flags: &[u8]) -> bool
    ensures { result ≡ quiet f first base flags.now }
{
    let more = flags.len();
    if 4096 < more {
        return false;
    }
    let t = base as usize + more;
    if 32768 < t {
        return false;
    }
    if !has_no_flag(flags) {
        return false;
    }
    if !is_blank(f) {
        return false;
    }
    let taken = t as u32;
    none_due(first, Tick(taken))
}
