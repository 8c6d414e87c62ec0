// The call of `whole` for programs in C; `bench/sweeps.h` has its declaration.
#![tactic(auto)]

ghost use Rattle.rules.specs.Samples.{lent};
ghost use Rattle.whole.specs.Post.{WholeByNumbers};

// A whole sweep, as `whole::whole_sweep` says.
#[unsafe(no_mangle)]
pub extern "C" fn whole_sweep(
    mode: u8,
    azimuth: u16,
    flags: &[u8],
    values: &[u8],
    piece: usize,
    out: &mut [u8],
    totals: &mut [u8],
) -> u32
    ensures { WholeByNumbers mode azimuth (lent flags.now values.now) piece out.old totals.old result out.new totals.new }
{
    whole::whole_sweep(mode, azimuth, flags, values, piece, out, totals)
}
