// Which refusal turns a call down: the first of its list that holds, if one does. A function for each call, of numbers and slices alone.
// Asks nothing of its caller.
#![tactic(auto)]

ghost use Rattle.std.specs.Prelude.{◌≡◌, ltb};
ghost use Rattle.rules.specs.Samples.{lent};
ghost use Rattle.rules.specs.Calls.{answer_from, open_answer, take_answer, close_answer, take_room};

use flags::has_bad;
use rules::{CLOSE_ROOM, Opening, RECORD, Refusal};

// Open. 1: mode not 1 to 3. 2: azimuth above 16,383.
pub fn open_refusal(opening: Opening) -> Result<(), Refusal>
    ensures { answer_from result ≡ open_answer opening }
{
    if opening.mode < 1 {
        return Err(Refusal::Mode);
    }
    if 3 < opening.mode {
        return Err(Refusal::Mode);
    }
    if 16383 < opening.azimuth {
        return Err(Refusal::Azimuth);
    }
    Ok(())
}

// The bytes that a reply buffer must have for n ticks: 4 replies in each 206 ticks.
fn room_for(n: u16) -> usize
    ensures { result ≡ take_room n }
{
    RECORD * (4 * ((n as usize + 205) / 206))
}

// Take, where `taken` ticks were taken, with a reply buffer of `room` bytes. 3: no sweep open. 4: flag and value slices differ in length.
// 5: piece over 4,096. 6: sweep would pass 32,768. 7: reply buffer under 72 x ceil(n/206) bytes. 8: a bad flag byte.
pub fn take_refusal(
    mode: u8,
    taken: u32,
    flags: &[u8],
    values: &[u8],
    room: usize,
) -> Result<(), Refusal>
    ensures { answer_from result ≡ take_answer (ltb 0 mode) taken (lent flags.now values.now) room }
{
    let n = flags.len();
    if mode == 0 {
        return Err(Refusal::NotOpen);
    }
    if n != values.len() {
        return Err(Refusal::Unequal);
    }
    if 4096 < n {
        return Err(Refusal::PieceLength);
    }
    if 32768 < taken as usize + n {
        return Err(Refusal::SweepLength);
    }
    if room < room_for(n as u16) {
        return Err(Refusal::NoRoom);
    }
    if has_bad(flags) {
        return Err(Refusal::BadFlag);
    }
    Ok(())
}

// Close, with a reply buffer of `room` bytes. 3: no sweep open. 7: reply buffer under 144 bytes.
pub fn close_refusal(mode: u8, room: usize) -> Result<(), Refusal>
    ensures { answer_from result ≡ close_answer (ltb 0 mode) room }
{
    if mode == 0 {
        return Err(Refusal::NotOpen);
    }
    if room < CLOSE_ROOM {
        return Err(Refusal::NoRoom);
    }
    Ok(())
}
