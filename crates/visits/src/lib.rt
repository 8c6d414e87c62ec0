// Which edges of a block the machine visits, and the edges themselves.
#![tactic(auto)]

ghost use Rattle.std.specs.Prelude.{◌+◌, ◌≤◌, ◌<◌, ◌≡◌};
ghost use Rattle.visits.specs.Visits.{Wanted, edge_in, apart_in, second_in};

use front::values::Values;
use marking::{Words, any_word};
use plane::{Nth, marked};
use rules::{Pulse, Tick};
use span::{Span, apart, second_main};

// Of the ticks x of the span, those to visit: where a bracket stands, or an open reply covers them.
pub fn wanted(s: Span, on: Words, x: u64) -> u64
    ensures { Wanted s on x result }
{
    x & (s.at168 | (s.at167 | (s.at169 | any_word(on))))
}

// The edge at u, which is tick i of the span: its value is that of the next tick.
pub fn edge_at(s: Span, i: Nth, u: Tick, values: &Values<'_>) -> Pulse
    requires { u.0 < 65536 }
    ensures { result ≡ edge_in s i.n u.0 values.now.recent.now values.now.base values.now.piece.now }
{
    Pulse {
        tick: u,
        main: marked(s.main, i),
        value: values.at(u.0 + 1),
    }
}

// The tick of the F2 of the bracket at u, where one stands.
pub fn second_tick(s: Span, i: Nth, u: Tick) -> Tick
    requires { u.0 < 65536 }
    ensures is { result.0 ≡ u.0 + apart_in s i.n }
    ensures most { result.0 ≤ u.0 + 169 }
{
    Tick(u.0 + apart(s, i))
}

// The F2 of the bracket at u, where one stands.
pub fn second_at(s: Span, i: Nth, u: Tick, values: &Values<'_>) -> Pulse
    requires { u.0 < 65536 }
    ensures { result ≡ second_in s i.n u.0 values.now.recent.now values.now.base values.now.piece.now }
{
    let w = second_tick(s, i, u);
    Pulse {
        tick: w,
        main: second_main(s, i),
        value: values.at(w.0 + 1),
    }
}
