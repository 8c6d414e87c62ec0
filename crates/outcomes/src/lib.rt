// What becomes of a bracket, by the ticks of the four places' F1 and their words of ticks.
#![tactic(auto)]

ghost use Rattle.std.specs.Prelude.{◌<◌, ◌≡◌};
ghost use Rattle.outcomes.specs.Outcomes.{OutcomePost, phantom_more_lem, counted_by};

use firsts::{Firsts, any_hides};
use marking::{Words, any_word, last_marked};
use places::tallied;
use plane::{Nth, marked};
use rules::{Counts, Fate, Pulse, Tick};

// What becomes of a bracket. A phantom that it removes, with its place, is removed first, and the bracket tried again.
// Stays: beside Fate, which is what becomes of it at last; with a case that holds a Fate, Outcome::Lost would be Outcome::Is(Fate::Lost).
#[derive(Clone, Copy)]
pub enum Outcome {
    Sidelobe,
    Removes(usize),
    Garbled,
    Lost,
    Opens,
}

// What becomes of the bracket with F1 at e, which is tick i of the block, and F2 at w, with M if `main`. `busy`: there is no place for a reply.
pub fn outcome_of(
    f: Firsts,
    on: Words,
    risk: Words,
    i: Nth,
    e: Pulse,
    w: Tick,
    main: bool,
    busy: bool,
) -> Outcome
    ensures { OutcomePost f on risk i.n e w.0 main busy result }
{
    // 1. Neither framing pulse has M.
    if !(e.main | main) {
        return Outcome::Sidelobe;
    }
    // 2. Potential phantoms at this bracket go.
    if let Some(k) = last_marked(risk, i) {
        return Outcome::Removes(k);
    }
    // 3. No framing pulse both has M and is uncovered.
    let clear = (e.main & !marked(any_word(on), i)) | (main & !any_hides(f, w));
    if !clear {
        return Outcome::Garbled;
    }
    // 4. No place is idle.
    if busy {
        return Outcome::Lost;
    }
    // 5. A reply opens.
    Outcome::Opens
}

// The counts with the outcome.
pub fn counted(y: Outcome, c: Counts) -> Counts
    ensures { result ≡ counted_by y c }
{
    match y {
        Outcome::Sidelobe => tallied(Fate::Sidelobe, 0, c),
        Outcome::Removes(_) => phantom_more(c),
        Outcome::Garbled => tallied(Fate::Garbled, 0, c),
        Outcome::Lost => tallied(Fate::Lost, 0, c),
        Outcome::Opens => tallied(Fate::Opens, 0, c),
    }
}

// One phantom more.
fn phantom_more(c: Counts) -> Counts
    ensures { result ≡ phantom_more_lem c }
{
    Counts {
        phantoms: c.phantoms.wrapping_add(1),
        ..c
    }
}
