// Refusals 2, 5 and 6: what list, map and modify ask of a region. verify_region of paging.rs (aarch64-paging 0.12.3).
#![tactic(auto)]

ghost use Rattle.std.specs.Prelude.{◌≡◌};
ghost use Rattle.region_verify.specs.Verify.{end_fits, in_range, verify};

use pool::{Handle, Refusal, VaRange};
use region::MemoryRegion;

// Whether an end can be rounded and is no 0.
pub fn end_fits(end: u64) -> bool
    ensures { result ≡ end_fits end }
{
    if end == 0 {
        return false;
    }
    end <= 0xFFFF_FFFF_FFFF_F000
}

// Whether the region lies in the root's span.
fn in_range(range: VaRange, level: usize, region: MemoryRegion) -> Result<(), Refusal>
    ensures { result ≡ in_range range level region }
{
    let span = 512 * address::granularity_at_level(level);
    match range {
        VaRange::Lower => {
            if 0x8000_0000_0000_0000 <= region.start.0 {
                return Err(Refusal::AddressRange(region.start));
            }
            if span < region.end.0 {
                return Err(Refusal::AddressRange(region.end));
            }
            Ok(())
        }
        VaRange::Upper => {
            if region.start.0 <= 0xFFFF_FFFF_FFFF_FFFF - span {
                return Err(Refusal::AddressRange(region.start));
            }
            Ok(())
        }
    }
}

// Whether a rounded region can be asked for at all.
pub fn verify_region(handle: Handle, region: MemoryRegion) -> Result<(), Refusal>
    ensures { result ≡ verify handle region }
{
    if region.end.0 < region.start.0 {
        return Err(Refusal::RegionBackwards(region));
    }
    let range = handle.range;
    in_range(range, handle.level, region)
}
