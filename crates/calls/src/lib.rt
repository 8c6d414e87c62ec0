// What the operations return. `specs/Post.antt` has their contracts, `specs/Whole.antt` the theorem over all lists of calls.
#![tactic(auto)]

ghost use Rattle.std.specs.Prelude.{◌/◌, ◌≡◌, Ok, Err};
ghost use Rattle.rules.specs.Samples.{nothing};
ghost use Rattle.rules.specs.Records.{record_size};
ghost use Rattle.processor.specs.State.{idle_processor, running_processor};
ghost use Rattle.calls.specs.Post.{no_totals_lem, totals_from};

use processor::{Processor, Progress, begun, idle};
use rules::{Counts, Opening, RECORD, Refusal, Totals};

// A call was carried out, with so many records written, or turned down.
pub type Answer = Result<usize, Refusal>;

// The answer of an opening or a take, and the processor after it.
#[derive(Clone, Copy)]
pub struct Answered {
    pub answer: Answer,
    pub processor: Processor,
}

// The answer of a close, with the totals.
#[derive(Clone, Copy)]
pub struct Closed {
    pub answer: Answer,
    pub totals: Totals,
    pub processor: Processor,
}

// An answer beside the processor of a sweep with no tick taken.
pub fn opened_with(answer: Answer, opening: Opening) -> Answered
    ensures { result ≡ record { answer = answer; processor = running_processor opening nothing } }
{
    Answered {
        answer,
        processor: begun(opening),
    }
}

// A take that is turned down.
pub fn no_take(p: Processor, refusal: Refusal) -> Answered
    ensures { result ≡ record { answer = Err refusal; processor = p } }
{
    Answered {
        answer: Err(refusal),
        processor: p,
    }
}

// The totals, from the machine's counts.
fn totals_of(c: Counts) -> Totals
    ensures { result ≡ totals_from c }
{
    if c.opened < c.phantoms {
        return Totals {
            found: c.found,
            replies: 0,
            sidelobe: c.sidelobe,
            garbled: c.garbled,
            lost: c.lost,
            phantoms: c.phantoms,
        };
    }
    Totals {
        found: c.found,
        replies: c.opened - c.phantoms,
        sidelobe: c.sidelobe,
        garbled: c.garbled,
        lost: c.lost,
        phantoms: c.phantoms,
    }
}

// A close that is turned down.
pub fn no_close(p: Processor, refusal: Refusal) -> Closed
    ensures { result ≡ record { answer = Err refusal; totals = no_totals_lem; processor = p } }
{
    Closed {
        answer: Err(refusal),
        totals: Totals {
            found: 0,
            replies: 0,
            sidelobe: 0,
            garbled: 0,
            lost: 0,
            phantoms: 0,
        },
        processor: p,
    }
}

// What a close answers after the zeros past the end.
pub fn closed_after(y: Progress) -> Closed
    ensures { result ≡ record { answer = Ok (y.at / record_size); totals = totals_from y.counts; processor = idle_processor } }
{
    let counts = y.counts;
    Closed {
        answer: Ok(y.at / RECORD),
        totals: totals_of(counts),
        processor: idle(),
    }
}
