// The words of ticks of the four places at a block's start: those that each reply covers, and those at which a bracket removes it.
#![tactic(auto)]

ghost use Rattle.std.specs.Prelude.{◌<◌};
ghost use Rattle.rules.specs.Replies.{covers, is_phantom};
ghost use Rattle.covering.specs.Starts.{OfSlot, OfSlots, AllTell};

use marking::Words;
use masks::{cover_mask, phantom_mask};
use rules::{Place, Reply, Slot, Tick};

// The ticks of the block that each place covers.
pub fn covers_of(p: [Place; 4], t: Tick) -> Words
    requires { t.0 < 65000 }
    ensures { AllTell covers t.0 result p }
{
    words_of(p, |r| cover_mask(r.f1, t))
}

// Those at which a bracket removes its reply.
pub fn risks_of(p: [Place; 4], t: Tick) -> Words
    requires { t.0 < 65000 }
    ensures { AllTell is_phantom t.0 result p }
{
    words_of(p, |r| phantom_mask(r.f1, r.marks.suspect, t))
}

// What `word` makes of the reply of each place.
fn words_of<F: Fn(Reply) -> u64>(p: [Place; 4], word: F) -> Words
    requires { F.IsAlwaysCallable word }
    ensures { OfSlots (F.post word) result p }
{
    Words {
        a: word_of(p[0], &word),
        b: word_of(p[1], &word),
        c: word_of(p[2], &word),
        d: word_of(p[3], &word),
    }
}

// What `word` makes of the place's reply; no tick where it is idle.
fn word_of<F: Fn(Reply) -> u64>(p: Place, word: &F) -> u64
    requires { F.IsAlwaysCallable word.now }
    ensures { OfSlot (F.post word.now) p.slot result }
{
    match p.slot {
        Slot::Idle => 0,
        Slot::Open(r) => word(r),
    }
}
