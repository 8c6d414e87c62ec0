// The four places in order of F1, the idle ones last, and the counts.
#![tactic(auto)]

ghost use Rattle.std.specs.Prelude.{◌≡◌, replicate};
ghost use Rattle.replies.specs.Sums.{wrapped};
ghost use Rattle.rules.specs.Machine.{opened_by_lem, tally};
ghost use Rattle.places.specs.Places.{idle};

use rules::{Counts, Estimate, Fate, Marks, Place, Pulse, Reference, Reply, Slot, Word};

// ---- the four places

// Four idle places.
pub fn no_places() -> [Place; 4]
    ensures { result ≡ replicate 4 idle }
{
    let none = Place { slot: Slot::Idle };
    [none; 4]
}

// ---- brackets

pub fn opened_by(covered: bool, suspect: bool, military: bool, e: Pulse, f2: Pulse) -> Reply
    ensures { result ≡ opened_by_lem covered suspect military e f2 }
{
    let p = if covered { f2 } else { e };
    let settled = if covered { 8192 } else { 0 };
    let unsure = if covered & !f2.main { 8192 } else { 0 };
    Reply {
        f1: e.tick,
        marks: Marks {
            suspect,
            military,
            second: covered,
            main: p.main,
        },
        word: Word {
            settled,
            code: settled,
            unsure,
        },
        reference: Reference {
            estimate: Estimate::Lone(f64::from(p.value)),
            n: 1,
            s: u16::from(p.value),
        },
    }
}

pub fn tallied(fate: Fate, p: u16, c: Counts) -> Counts
    ensures { result ≡ tally wrapped fate p c }
{
    let found = c.found.wrapping_add(1);
    let phantoms = c.phantoms.wrapping_add(p);
    match fate {
        Fate::Sidelobe => Counts {
            found,
            sidelobe: c.sidelobe.wrapping_add(1),
            ..c
        },
        Fate::Garbled => Counts {
            found,
            garbled: c.garbled.wrapping_add(1),
            phantoms,
            ..c
        },
        Fate::Lost => Counts {
            found,
            lost: c.lost.wrapping_add(1),
            phantoms,
            ..c
        },
        Fate::Opens => Counts {
            found,
            opened: c.opened.wrapping_add(1),
            phantoms,
            ..c
        },
    }
}
