// The processor between calls, and a piece on its way through it.
#![tactic(auto)]

ghost use Rattle.std.specs.Prelude.{◌≡◌};
ghost use Rattle.rules.specs.Samples.{nothing};
ghost use Rattle.processor.specs.State.{idle_processor, running_processor};
ghost use Rattle.processor.specs.Arrays.{progress_of_lem, processor_at};

use front::words::{Front, no_front};
use places::no_places;
use rules::{Counts, Opening, Place};

// With mode 0 no sweep is open. `recent` holds the values of the last 256 ticks, the newest last. The open replies stand in the four places in order of F1, then
// come the idle places.
#[derive(Clone, Copy)]
pub struct Processor {
    pub opening: Opening,
    pub taken: u32,
    pub front: Front,
    pub recent: [u8; 256],
    pub places: [Place; 4],
    pub counts: Counts,
}

// The processor of a sweep with no tick taken.
pub fn begun(opening: Opening) -> Processor
    ensures { result ≡ running_processor opening nothing }
{
    Processor {
        opening,
        taken: 0,
        front: no_front(),
        recent: [0u8; 256],
        places: no_places(),
        counts: Counts::default(),
    }
}

// The processor with no sweep open.
pub fn idle() -> Processor
    ensures { result ≡ idle_processor }
{
    begun(Opening {
        mode: 0,
        azimuth: 0,
    })
}

// How far a piece has come: the words, the four places and the counts so far, and the place in the buffer behind the last record.
#[derive(Clone, Copy)]
pub struct Progress {
    pub front: Front,
    pub places: [Place; 4],
    pub counts: Counts,
    pub at: usize,
}

// Where a piece, or the zeros past the end, begin: at the start of a buffer.
pub fn progress_of(p: Processor) -> Progress
    ensures { result ≡ progress_of_lem p }
{
    let places = p.places;
    Progress {
        front: p.front,
        places,
        counts: p.counts,
        at: 0,
    }
}

// The processor that p has become after `taken` ticks, from how far the pieces came.
pub fn moved(p: Processor, y: Progress, recent: [u8; 256], taken: u32) -> Processor
    ensures { result ≡ processor_at p y recent taken }
{
    let places = y.places;
    Processor {
        opening: p.opening,
        taken,
        front: y.front,
        recent,
        places,
        counts: y.counts,
    }
}
