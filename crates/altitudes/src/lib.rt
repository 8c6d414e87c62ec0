// The altitude of a mode C reply, and what a reply says by its mode.
// Every 16-bit word has an answer: nothing is asked of the caller.
#![tactic(auto)]

ghost use Rattle.std.specs.Prelude.{◌≡◌, ◌≤◌, ◌<◌, if◌then◌else◌, eqb};
ghost use Rattle.codes.specs.Gray.{with_digit};
ghost use Rattle.codes.specs.Altitude.{five_hundreds_lem, hundreds, group, turned, steps, feet_at_lem, has_none, altitude};
ghost use Rattle.codes.specs.Meaning.{meaning};

use codes::pulses::*;
use codes::{Meaning, Unread, identity};

// The binary digits n, with the two behind them that two Gray digits stand for.
fn with_two(n: u16, first: u16, second: u16) -> u16
    requires { (n < 64) × (first < 2) × (second < 2) }
    ensures { result ≡ with_digit (with_digit n first) second }
{
    let m = 2 * n + (n + first) % 2;
    2 * m + (m + second) % 2
}

// How many whole 500 ft a code counts, in Gray code.
#[tactic(auto, unfolding(codes::specs::Altitude::five_hundreds_lem))]
fn five_hundreds(code: u16) -> u16
    ensures { result ≡ five_hundreds_lem code }
{
    let n2 = with_two(0, code / D2 % 2, code / D4 % 2);
    let n4 = with_two(n2, code / A1 % 2, code / A2 % 2);
    let n6 = with_two(n4, code / A4 % 2, code / B1 % 2);
    with_two(n6, code / B2 % 2, code / B4 % 2)
}

// How many 100 ft the group C1 C2 C4 of a code counts, 1 to 5; none for another group.
fn hundreds_of(code: u16) -> Option<u16>
    ensures { result ≡ (if eqb (hundreds (group code)) 0 then None else Some (hundreds (group code))) }
{
    match weighted(code, C1, C2, C4) {
        0b001 => Some(1),
        0b011 => Some(2),
        0b010 => Some(3),
        0b110 => Some(4),
        0b100 => Some(5),
        _ => None,
    }
}

// For an odd number of 500 ft the hundreds are counted the other way.
pub fn turned_at(n: u16, h: u16) -> u16
    requires { h ≤ 5 }
    ensures { result ≡ turned n h }
{
    if n % 2 == 1 {
        return 6 - h;
    }
    h
}

// How many 100 ft from -1,300 ft on a code counts; none where it is no altitude: for another group, for D1 and below -1,000 ft (3 steps).
#[tactic(auto, using(crate::proofs::AltitudeLaws::counts), unfolding(codes::specs::Altitude::steps))]
fn steps_of(code: u16) -> Option<u16>
    ensures { result ≡ (if has_none code then None else Some (steps code)) }
{
    let h = hundreds_of(code)?;
    let n = five_hundreds(code);
    let s = 5 * n + turned_at(n, h);
    if code / D1 % 2 == 1 || s < 3 {
        return None;
    }
    Some(s)
}

// 100 (s - 13) ft.
#[tactic(auto, using(std::proofs::lemmas::Int::ints))]
fn feet_at(s: u16) -> i32
    ensures { result ≡ feet_at_lem s }
{
    100 * (i32::from(s) - 13)
}

// The altitude that a code gives, in feet. Unsure wins over no altitude.
#[tactic(auto, using(codes::proofs::PulseLaws::masks), unfolding(codes::specs::Altitude::altitude))]
pub fn altitude(code: u16, confidence: u16) -> Result<i32, Unread>
    ensures { result ≡ altitude code confidence }
{
    if is_unsure(confidence, ELEVEN) {
        return Err(Unread::Unsure);
    }
    steps_of(code).map(feet_at).ok_or(Unread::NoAltitude)
}

// What a reply says: the altitude in mode 3, the identity in modes 1 and 2; none where the number is no mode.
// Stays: a mode is a number here, for C hands on any (meaning_number), and each has its answer.
#[tactic(auto, unfolding(codes::specs::Meaning::meaning))]
pub fn meaning_of(mode: u8, code: u16, confidence: u16) -> Option<Meaning>
    ensures { result ≡ meaning mode code confidence }
{
    match mode {
        1 | 2 => Some(Meaning::Identity(identity(code, confidence))),
        3 => Some(Meaning::Altitude(altitude(code, confidence))),
        _ => None,
    }
}
