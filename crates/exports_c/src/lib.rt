// The functions of `exports` for programs in C and Rust: the answers as numbers.
// Stays: a crate is a library or a static library, and not both (docs/DECISIONS.md, "A thin crate for C"), so the four stand here once more.
#![tactic(auto)]

ghost use Rattle.std.specs.Prelude.{◌≡◌};
ghost use Rattle.codes.specs.Altitude.{altitude};
ghost use Rattle.codes.specs.Identity.{identity};
ghost use Rattle.codes.specs.Meaning.{meaning};
ghost use Rattle.codes.specs.Writing.{code_of};
ghost use Rattle.exports.specs.Numbers.{altitude_number_lem, identity_number_lem, meaning_number_lem, code_number_lem};

// The altitude of a code, as a number.
#[unsafe(no_mangle)]
pub extern "C" fn altitude_number(code: u16, confidence: u16) -> i32
    ensures { result ≡ altitude_number_lem (altitude code confidence) }
{
    exports::altitude_number(code, confidence)
}

// The identity of a code, as a number.
#[unsafe(no_mangle)]
pub extern "C" fn identity_number(code: u16, confidence: u16) -> i32
    ensures { result ≡ identity_number_lem (identity code confidence) }
{
    exports::identity_number(code, confidence)
}

// The number of the altitude or of the identity; -1 for no mode.
#[unsafe(no_mangle)]
pub extern "C" fn meaning_number(mode: u8, code: u16, confidence: u16) -> i32
    ensures { result ≡ meaning_number_lem (meaning mode code confidence) }
{
    exports::meaning_number(mode, code, confidence)
}

// The code of a number of feet; -1 for none.
#[unsafe(no_mangle)]
pub extern "C" fn code_number(feet: i32) -> i32
    ensures { result ≡ code_number_lem (code_of feet) }
{
    exports::code_number(feet)
}
