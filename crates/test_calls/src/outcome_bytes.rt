// The outcome of a call, as main.rt lays it down.
ghost use Rattle.std.specs.Prelude.{◌≤◌, length};

use calls::Answer;
use fields::{bits_of, is_average};
use front::words::Front;
use processor::Processor;
use replies::level_of;
use rules::{Counts, Opening, Place, Reply, Slot, Totals};

// Numbers, one behind the other, 8 bytes each.
fn put_all(out: &mut [u8], numbers: &[u64]) {
    let (words, _) = out.as_chunks_mut::<8>();
    for (word, number) in words.iter_mut().zip(numbers) {
        *word = number.to_be_bytes();
    }
}

fn put_answer(out: &mut [u8], answer: Answer) {
    let numbers = match answer {
        Ok(count) => [1, count as u64],
        Err(refusal) => [2, u64::from(u8::from(refusal))],
    };
    put_all(out, &numbers);
}

// The six totals, or zeros.
fn put_totals(out: &mut [u8], totals: Option<Totals>) {
    let numbers = match totals {
        None => [0; 6],
        Some(t) => [
            u64::from(t.found),
            u64::from(t.replies),
            u64::from(t.sidelobe),
            u64::from(t.garbled),
            u64::from(t.lost),
            u64::from(t.phantoms),
        ],
    };
    put_all(out, &numbers);
}

fn put_settings(out: &mut [u8], opening: Opening, taken: u32) {
    let numbers = [
        u64::from(opening.mode),
        u64::from(opening.azimuth),
        u64::from(taken),
    ];
    put_all(out, &numbers);
}

fn put_front(out: &mut [u8], f: Front) {
    let words = [
        f.a, f.a1, f.p, f.p1, f.n, f.n1, f.l, f.l1, f.k, f.k1, f.h, f.h1, f.e, f.e1, f.e2, f.e3,
        f.m, f.m1, f.m2, f.m3,
    ];
    put_all(out, &words);
}

fn put_reply(out: &mut [u8], r: Reply) {
    let m = r.marks;
    let w = r.word;
    let f = r.reference;
    let numbers = [
        1,
        u64::from(r.f1.0),
        u64::from(m.suspect),
        u64::from(m.military),
        u64::from(m.second),
        u64::from(m.main),
        u64::from(w.settled),
        u64::from(w.code),
        u64::from(w.unsure),
        u64::from(is_average(f.estimate)),
        bits_of(level_of(f.estimate)),
        u64::from(f.n),
        u64::from(f.s),
    ];
    put_all(out, &numbers);
}

fn put_place(out: &mut [u8], p: Place) {
    match p.slot {
        Slot::Idle => put_all(out, &[0; 13]),
        Slot::Open(r) => put_reply(out, r),
    }
}

// The places, 104 bytes each.
fn put_places(out: &mut [u8], places: [Place; 4]) {
    for (bytes, p) in out.chunks_exact_mut(104).zip(places) {
        put_place(bytes, p);
    }
}

fn put_counts(out: &mut [u8], c: Counts) {
    let numbers = [
        u64::from(c.found),
        u64::from(c.opened),
        u64::from(c.sidelobe),
        u64::from(c.garbled),
        u64::from(c.lost),
        u64::from(c.phantoms),
    ];
    put_all(out, &numbers);
}

// Puts the outcome at the start of a buffer, with the processor if one is shown.
pub fn put_outcome(out: &mut [u8], answer: Answer, totals: Option<Totals>, shown: Option<Processor>)
    requires { 968 ≤ length out.old }
{
    put_answer(&mut out[0..16], answer);
    put_totals(&mut out[16..64], totals);
    let Some(p) = shown else {
        return;
    };
    put_settings(&mut out[64..88], p.opening, p.taken);
    put_front(&mut out[88..248], p.front);
    out[248..504].copy_from_slice(&p.recent);
    put_places(&mut out[504..920], p.places);
    put_counts(&mut out[920..968], p.counts);
}
