// Of the places that cover an edge: whose reference the edge's value agrees with.
#![tactic(auto)]

ghost use Rattle.std.specs.Prelude.{◌<◌, ◌≡◌, ◌&&◌};
ghost use Rattle.rules.specs.Replies.{agrees};
ghost use Rattle.rules.specs.Settings.{standard};
ghost use Rattle.places.specs.Places.{test};
ghost use Rattle.agreement.specs.Voices.{covers_in, agreement_by};

use marking::Words;
use plane::{Nth, marked};
use replies::{level_of, near};
use rules::{Place, Slot};

// The value agrees with the reference of the place's reply, if c.
pub fn speaks(c: bool, p: Place, v: u8) -> bool
    ensures { result ≡ (c && test (agrees standard v) p) }
{
    match p.slot {
        Slot::Idle => false,
        Slot::Open(r) => c & near(level_of(r.reference.estimate), v),
    }
}

// Which places cover an edge; of these, whose reference its value agrees with, and beside whom it agrees with another's.
#[derive(Clone, Copy)]
pub struct Agreement {
    pub covers: [bool; 4],
    pub own: [bool; 4],
    pub other: [bool; 4],
}

pub fn agreement_of(p: [Place; 4], on: Words, i: Nth, v: u8) -> Agreement
    ensures { result ≡ agreement_by v (covers_in on i.n) p }
{
    let covers = [
        marked(on.a, i),
        marked(on.b, i),
        marked(on.c, i),
        marked(on.d, i),
    ];
    let own = [
        speaks(covers[0], p[0], v),
        speaks(covers[1], p[1], v),
        speaks(covers[2], p[2], v),
        speaks(covers[3], p[3], v),
    ];
    let other = [
        own[1] | own[2] | own[3],
        own[0] | own[2] | own[3],
        own[0] | own[1] | own[3],
        own[0] | own[1] | own[2],
    ];
    Agreement { covers, own, other }
}
