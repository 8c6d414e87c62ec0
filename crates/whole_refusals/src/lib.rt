// Which refusal turns a whole sweep in one call down: the first of its list that holds, if one does. A function of numbers and slices alone; asks nothing of
// its caller.
#![tactic(auto)]

ghost use Rattle.std.specs.Prelude.{◌≤◌, ◌≡◌, length};
ghost use Rattle.rules.specs.Samples.{lent};
ghost use Rattle.rules.specs.Calls.{answer_from};
ghost use Rattle.whole_refusals.specs.Whole.{whole_room_lem, whole_answer};

use flags::has_bad;
use refusals::open_refusal;
use rules::{CLOSE_ROOM, Opening, RECORD, Refusal, TOTALS};

// The bytes that the reply buffer of a whole sweep must have for n ticks.
fn whole_room(n: usize) -> usize
    requires { n ≤ 32768 }
    ensures { result ≡ whole_room_lem n }
{
    RECORD * (4 * ((n + 205) / 206)) + CLOSE_ROOM
}

// A whole sweep in one call. 1 and 2: as for open. 4: flag and value slices differ in length. 5: pieces of 0 or over 4,096. 6: over 32,768 ticks.
// 7: `out` under 72 x ceil(n/206) + 144 bytes, or `totals` under 12. 8: a bad flag byte.
pub fn whole_refusal(
    opening: Opening,
    flags: &[u8],
    values: &[u8],
    piece: usize,
    out: &[u8],
    totals: &[u8],
) -> Result<(), Refusal>
    ensures { answer_from result ≡ whole_answer opening (lent flags.now values.now) piece (length out.now) (length totals.now) }
{
    open_refusal(opening)?;
    let n = flags.len();
    if n != values.len() {
        return Err(Refusal::Unequal);
    }
    if piece < 1 {
        return Err(Refusal::PieceLength);
    }
    if 4096 < piece {
        return Err(Refusal::PieceLength);
    }
    if 32768 < n {
        return Err(Refusal::SweepLength);
    }
    if out.len() < whole_room(n) {
        return Err(Refusal::NoRoom);
    }
    if totals.len() < TOTALS {
        return Err(Refusal::NoRoom);
    }
    if has_bad(flags) {
        return Err(Refusal::BadFlag);
    }
    Ok(())
}
