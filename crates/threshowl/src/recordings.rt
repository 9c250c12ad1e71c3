// Mending a cut IVF recording, for C. A refused call leaves the output as it was, and sets the three numbers to 0.
ghost use Rattle.ivf.specs.Mending.{Mends};

use ivf::mend::mend;

#[unsafe(no_mangle)]
pub extern "C" fn threshowl_ivf_mend(
    file: &[u8],
    out: &mut [u8],
    old_count: &mut u64,
    new_count: &mut u64,
    dropped: &mut u64,
) -> u32
    ensures { Mends file.now out.old (record { number = result; old_count = old_count.new; new_count = new_count.new; dropped = dropped.new }) out.new }
{
    match mend(file, out) {
        Ok(m) => {
            *old_count = m.old_count;
            *new_count = m.new_count;
            *dropped = m.dropped;
            0
        }
        Err(refusal) => {
            *old_count = 0;
            *new_count = 0;
            *dropped = 0;
            u32::from(refusal)
        }
    }
}
