// The machine at work: the flags of a piece go through it block by block, and of each block the edges at which something is to be done.
// The array of the four places is changed where it stands; one place goes by value into a function and comes back.
#![tactic(auto)]

ghost use Rattle.std.specs.Prelude.{◌+◌, ◌<◌, length};
ghost use Rattle.blocks.specs.Feeding.{BlocksPost};

use agreement::{agreement_of, speaks};
use blocks::{block_length, none_due, packed, stays};
use covering::{covers_of, risks_of};
use firsts::{firsts_of, free, is_busy, is_over, opened};
use front::values::Values;
use front::words::advance;
use handing::hand_one;
use marking::{any_word, behind, twice, which, with_word, without_word};
use masks::{open_cover, open_phantom};
use outcomes::{Outcome, counted, outcome_of};
use plane::{lowest, marked, without_lowest};
use processor::Progress;
use rules::{Place, Slot, Tick};
use settling::heard;
use span::{above, has_bracket, second_main, span_of, tick_of, top};
use visits::{edge_at, second_at, second_tick, wanted};

// The progress after the flags of a piece, with the values at hand. At each visit replies that are over are handed out, then the bracket is tried, if one
// stands there, then the edge goes to the places that cover it. Only a bracket opens a reply or removes one; behind it the ticks to visit are found anew.
// `from` shows that the visits end: the edges before tick `from` of the span are taken.
pub fn work(o: Progress, flags: &[u8], values: &Values<'_>, out: &mut [u8]) -> Progress
    requires { values.now.base + length flags.now < 65000 }
    ensures { BlocksPost o values.now.recent.now values.now.base flags.now values.now.piece.now out.old result out.new }
{
    let n = flags.len();
    let mut front = o.front;
    let mut places = o.places;
    let mut counts = o.counts;
    let mut at = o.at;
    let mut done: usize = 0;
    // Stays: a block is a place and a length in the flags (PackedPart), and t counts by the same number; beside a chunk both would be counted anew.
    while done < n {
        let r = block_length(n - done);
        let x = packed(flags, done, r);
        done += r;
        let taken = values.base + done as u32;
        let t = Tick(taken);
        if stays(front, places[0], x, t) {
            continue;
        }
        front = advance(front, x, r as u32);
        let s = span_of(front);
        let due = top(s.due, r as u32);
        if (due == 0) & none_due(places[0], t) {
            continue;
        }
        let mut on = covers_of(places, t);
        let mut both = twice(on);
        let mut risk = risks_of(places, t);
        let mut todo = wanted(s, on, due);
        let mut from = 64 - r as u32;
        while todo != 0 {
            let i = lowest(todo);
            let u = tick_of(t, i);
            if is_over(places[0], u) {
                at = hand_one(places[0], u, out, at);
                places = [places[1], places[2], places[3], Place { slot: Slot::Idle }];
                on = without_word(on, 0);
                both = twice(on);
                risk = without_word(risk, 0);
                continue;
            }
            let e = edge_at(s, i, u, values);
            if has_bracket(s, i) {
                let w = second_tick(s, i, u);
                let f = firsts_of(places);
                let y = outcome_of(f, on, risk, i, e, w, second_main(s, i), is_busy(f));
                counts = counted(y, counts);
                match y {
                    Outcome::Removes(k) => {
                        places = [
                            places[behind(0, k)],
                            places[behind(1, k)],
                            places[behind(2, k)],
                            Place { slot: Slot::Idle },
                        ];
                        on = without_word(on, k);
                        both = twice(on);
                        risk = without_word(risk, k);
                        continue;
                    }
                    Outcome::Opens => {
                        let f2 = second_at(s, i, u, values);
                        let reply = opened(f, on, i, e, f2);
                        let j = free(f);
                        places[j] = Place {
                            slot: Slot::Open(reply),
                        };
                        on = with_word(on, j, open_cover(i));
                        both = twice(on);
                        risk = with_word(risk, j, open_phantom(i, reply.marks.suspect));
                    }
                    Outcome::Sidelobe | Outcome::Garbled | Outcome::Lost => {}
                }
                todo = wanted(s, on, above(due, i));
            } else {
                todo = without_lowest(todo);
            }
            if marked(both, i) {
                let v = agreement_of(places, on, i, e.value);
                for k in 0..4 {
                    if v.covers[k] {
                        places[k] = heard(places[k], e, v.own[k], v.other[k]);
                    }
                }
            } else {
                if marked(any_word(on), i) {
                    let j = which(on, i);
                    let q = places[j];
                    places[j] = heard(q, e, speaks(true, q, e.value), false);
                }
            }
            from = i.n + 1;
        }
        while !none_due(places[0], t) {
            let last = t.0 - 179;
            at = hand_one(places[0], Tick(last), out, at);
            places = [places[1], places[2], places[3], Place { slot: Slot::Idle }];
        }
    }
    Progress {
        front,
        places,
        counts,
        at,
    }
}
