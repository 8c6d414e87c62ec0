// The reply of a place, handed out once it is no longer open.
#![tactic(auto)]

ghost use Rattle.handing.specs.Post.{due_slot, HandedPost};

use records::write_record;
use replies::ended;
use rules::{Place, RECORD, Slot, Tick};

// Writes the place's reply if it is no longer open at u and there is room, else nothing. The place in the buffer behind what is written.
pub fn hand_one(p: Place, u: Tick, out: &mut [u8], at: usize) -> usize
    ensures { HandedPost 1 (due_slot u.0 p.slot) at out.old result out.new }
{
    let Slot::Open(r) = p.slot else {
        return at;
    };
    if !ended(r.f1, u) || out.len().saturating_sub(at) < RECORD {
        return at;
    }
    write_record(out, at, r);
    at + RECORD
}
