// The pulses of a code: the weight that each has in a code word and in a confidence word, in order of time. (Between A4 and B1 stands X, 64.)
ghost use Rattle.std.specs.Prelude.{◌≡◌, ◌+◌, ◌*◌, ◌/◌, ◌%◌, ◌<◌, not, eqb, bit_and};

pub const C1: u16 = 1;

pub const A1: u16 = 2;

pub const C2: u16 = 4;

pub const A2: u16 = 8;

pub const C4: u16 = 16;

pub const A4: u16 = 32;

pub const B1: u16 = 128;

pub const D1: u16 = 256;

pub const B2: u16 = 512;

pub const D2: u16 = 1024;

pub const B4: u16 = 2048;

pub const D4: u16 = 4096;

// The eleven pulses of an altitude, and the twelve of an identity.
pub const ELEVEN: u16 = 0x1ebf;

pub(crate) const TWELVE: u16 = 0x1fbf;

// Three pulses as a number: the first counts 4, the second 2, the third 1.
pub fn weighted(word: u16, four: u16, two: u16, one: u16) -> u8
    requires { (0 < four) × (0 < two) × (0 < one) }
    ensures { result ≡ 4 * (word / four % 2) + 2 * (word / two % 2) + word / one % 2 }
{
    // Stays: From widens alone, and u8::try_from(..).unwrap() is no plainer than a cast that is proved to fit.
    (4 * (word / four % 2) + 2 * (word / two % 2) + word / one % 2) as u8
}

// Whether one of a mask's pulses has confidence 0.
pub fn is_unsure(confidence: u16, pulses: u16) -> bool
    ensures { result ≡ not (eqb (bit_and confidence pulses) pulses) }
{
    confidence & pulses != pulses
}
