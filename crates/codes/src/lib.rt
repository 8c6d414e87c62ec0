// What a reply's code says: the types of the answers, the pulses, and the identity of modes A and 2. The definitions are in specs/.
// Every 16-bit word has an answer: nothing is asked of the caller.
#![tactic(auto)]

ghost use Rattle.std.specs.Prelude.{◌≡◌};
ghost use Rattle.codes.specs.Identity.{identity};

use pulses::*;

pub mod pulses;

// Why a mode C reply gives no feet: one of the code's eleven pulses has confidence 0; or the code is no altitude.
#[derive(Clone, Copy, Debug, PartialEq, Eq)]
pub enum Unread {
    Unsure,
    NoAltitude,
}

// The identity of a reply of mode A or 2: four octal digits.
#[derive(Clone, Copy, Debug, PartialEq, Eq)]
pub struct Squawk {
    pub a: u8,
    pub b: u8,
    pub c: u8,
    pub d: u8,
}

// What a reply says, by the mode of its sweep: feet; or an identity, where it is sure.
#[derive(Clone, Copy, Debug, PartialEq, Eq)]
pub enum Meaning {
    Altitude(Result<i32, Unread>),
    Identity(Option<Squawk>),
}

// The identity that a code gives; none where one of its twelve pulses has confidence 0.
// Stays: code and confidence are two numbers, as C hands them on (identity_number); so too in altitude and meaning_of.
#[tactic(auto, using(crate::proofs::PulseLaws::masks), unfolding(crate::specs::Identity::identity))]
pub fn identity(code: u16, confidence: u16) -> Option<Squawk>
    ensures { result ≡ identity code confidence }
{
    if is_unsure(confidence, TWELVE) {
        return None;
    }
    let a = weighted(code, A4, A2, A1);
    let b = weighted(code, B4, B2, B1);
    let c = weighted(code, C4, C2, C1);
    let d = weighted(code, D4, D2, D1);
    Some(Squawk { a, b, c, d })
}
