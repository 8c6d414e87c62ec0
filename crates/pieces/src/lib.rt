// The ticks past the end of a sweep, which count as zero, on their way through the machine. What a piece of a sweep makes of it is a law, in proofs/Pieces.antt.
#![tactic(auto)]

ghost use Rattle.std.specs.Prelude.{◌<◌};
ghost use Rattle.pieces.specs.Feeding.{DrainPost};

use front::values::Values;
use machine::work;
use processor::Progress;

// The progress after 448 ticks of zeros past the end, which complete every reply.
pub fn drain(o: Progress, recent: &[u8; 256], base: u32, out: &mut [u8]) -> Progress
    requires { base < 64000 }
    ensures { DrainPost o recent.now base out.old result out.new }
{
    let zeros = [0u8; 448];
    let values = Values {
        recent,
        base,
        piece: &zeros,
    };
    work(o, &zeros, &values, out)
}
