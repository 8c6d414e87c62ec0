// The answers as numbers, for programs in other languages.
// Stays: C has no Option and no Result, so in the four exported functions a number stands for each case (specs/Numbers.antt).
#![tactic(auto)]

ghost use Rattle.std.specs.Prelude.{◌≡◌};
ghost use Rattle.codes.specs.Altitude.{altitude};
ghost use Rattle.codes.specs.Identity.{identity};
ghost use Rattle.codes.specs.Meaning.{meaning};
ghost use Rattle.codes.specs.Writing.{code_of};
ghost use Rattle.exports.specs.Numbers.{altitude_number_lem, identity_number_lem, meaning_number_lem, code_number_lem};

use altitudes::{altitude, meaning_of};
use codes::{Meaning, Squawk, Unread, identity};
use encoder::code_of;

// Feet; 1 for unsure, 2 for no altitude.
// Stays: an impl of From would stand in the crate of a type, and these numbers are for C alone; so too in of_identity.
fn of_altitude(x: Result<i32, Unread>) -> i32
    ensures { result ≡ altitude_number_lem x }
{
    match x {
        Ok(feet) => feet,
        Err(Unread::Unsure) => 1,
        Err(Unread::NoAltitude) => 2,
    }
}

// The number that the four digits write in octal; 4,096 for unsure.
fn of_identity(x: Option<Squawk>) -> i32
    ensures { result ≡ identity_number_lem x }
{
    match x {
        Some(s) => 512 * i32::from(s.a) + 64 * i32::from(s.b) + 8 * i32::from(s.c) + i32::from(s.d),
        None => 4096,
    }
}

// The altitude of a code, as a number.
#[unsafe(no_mangle)]
pub extern "C" fn altitude_number(code: u16, confidence: u16) -> i32
    ensures { result ≡ altitude_number_lem (altitude code confidence) }
{
    of_altitude(altitude(code, confidence))
}

// The identity of a code, as a number.
#[unsafe(no_mangle)]
pub extern "C" fn identity_number(code: u16, confidence: u16) -> i32
    ensures { result ≡ identity_number_lem (identity code confidence) }
{
    of_identity(identity(code, confidence))
}

// The number of the altitude or of the identity; -1 for no mode.
#[unsafe(no_mangle)]
pub extern "C" fn meaning_number(mode: u8, code: u16, confidence: u16) -> i32
    ensures { result ≡ meaning_number_lem (meaning mode code confidence) }
{
    match meaning_of(mode, code, confidence) {
        Some(Meaning::Altitude(x)) => of_altitude(x),
        Some(Meaning::Identity(x)) => of_identity(x),
        None => -1,
    }
}

// The code of a number of feet; -1 for none.
#[unsafe(no_mangle)]
pub extern "C" fn code_number(feet: i32) -> i32
    ensures { result ≡ code_number_lem (code_of feet) }
{
    code_of(feet).map_or(-1, i32::from)
}
