// The types of the domain. The rules themselves are in specs/, their laws in proofs/.
#![tactic(auto)]

ghost use Rattle.std.specs.Prelude.{◌≡◌};
ghost use Rattle.rules.specs.Calls.{number_of};

// A clock tick of 1.45 us / 12, counted from 0 at the opening of the sweep.
#[derive(Clone, Copy)]
pub struct Tick(pub u32);

// A range in counts of 60.4 ns: twice a tick number.
#[derive(Clone, Copy)]
pub struct Range(pub u32);

// What a sweep is opened with: mode 1 (A), 2 (2) or 3 (C), and an azimuth from 0 to 16,383 for the whole sweep.
#[derive(Clone, Copy)]
pub struct Opening {
    // Stays: a number and no enum, since `open` (crates/sweep) answers for every number: refusal 1 where it names no mode.
    pub mode: u8,
    pub azimuth: u16,
}

// The reference of a lone pulse (N = 1), or an average (N of 2 or more).
// Stays: a form that document 01 names (docs/DECISIONS.md, "The forms that document 01 names").
#[derive(Clone, Copy)]
pub enum Estimate {
    Lone(f64),
    Average(f64),
}

// The reference, the number N of the values that went into it, and their sum S.
#[derive(Clone, Copy)]
pub struct Reference {
    pub estimate: Estimate,
    pub n: u16,
    pub s: u16,
}

// A bit for each position of a reply: it is settled; it has code 1; it has confidence 0.
// Bits 0 to 13 are positions 1 to 14, bit 14 is position 17.
#[derive(Clone, Copy)]
pub struct Word {
    pub settled: u16,
    pub code: u16,
    pub unsure: u16,
}

// What is fixed when a reply opens: it is a potential phantom; it is military; its reference is F2; its reference pulse has M.
#[derive(Clone, Copy)]
pub struct Marks {
    pub suspect: bool,
    pub military: bool,
    pub second: bool,
    pub main: bool,
}

#[derive(Clone, Copy)]
pub struct Reply {
    pub f1: Tick,
    pub marks: Marks,
    pub word: Word,
    pub reference: Reference,
}

// Stays: of the shape of an Option, but document 01 names this form, an enum of idle, or open with a reply.
#[derive(Clone, Copy)]
pub enum Slot {
    Idle,
    Open(Reply),
}

// One of the four decoders.
// Stays: a struct of one field, since document 01 names four place structs, each with such an enum.
#[derive(Clone, Copy)]
pub struct Place {
    pub slot: Slot,
}

// Brackets found, and what became of them: replies opened, sidelobe, garbled, lost. Of the replies opened, phantoms were removed.
#[derive(Clone, Copy, Default)]
pub struct Counts {
    pub found: u16,
    pub opened: u16,
    pub sidelobe: u16,
    pub garbled: u16,
    pub lost: u16,
    pub phantoms: u16,
}

// An edge as the machine takes it: its tick, its M and its value.
#[derive(Clone, Copy)]
pub struct Pulse {
    pub tick: Tick,
    pub main: bool,
    pub value: u8,
}

// What becomes of a bracket.
#[derive(Clone, Copy)]
pub enum Fate {
    Sidelobe,
    Garbled,
    Lost,
    Opens,
}

// The bytes of a reply record, of the six totals, and of the buffer for the most replies that a close hands out.
pub const RECORD: usize = 18;

pub const TOTALS: usize = 12;

pub const MOST_LEFT: usize = 8;

pub const CLOSE_ROOM: usize = RECORD * MOST_LEFT;

// The six totals of a sweep. Replies are those opened and not removed.
#[derive(Clone, Copy)]
pub struct Totals {
    pub found: u16,
    pub replies: u16,
    pub sidelobe: u16,
    pub garbled: u16,
    pub lost: u16,
    pub phantoms: u16,
}

// Why a call or a line is turned down.
#[derive(Clone, Copy, Debug)]
pub enum Refusal {
    Mode,
    Azimuth,
    NotOpen,
    Unequal,
    PieceLength,
    SweepLength,
    NoRoom,
    BadFlag,
    Malformed,
    NoFrame,
}

// The number of a refusal.
impl From<Refusal> for u8 {
    ghost from_gives = { λ refusal n. n ≡ number_of refusal };

    fn from(refusal: Refusal) -> u8 {
        match refusal {
            Refusal::Mode => 1,
            Refusal::Azimuth => 2,
            Refusal::NotOpen => 3,
            Refusal::Unequal => 4,
            Refusal::PieceLength => 5,
            Refusal::SweepLength => 6,
            Refusal::NoRoom => 7,
            Refusal::BadFlag => 8,
            Refusal::Malformed => 9,
            Refusal::NoFrame => 10,
        }
    }
}
