// What map asks of its arguments: refusals 2 to 7, in their order.
#![tactic(auto)]

ghost use Rattle.std.specs.Prelude.{◌≡◌};
ghost use Rattle.map_verify.specs.Verify.{frames_fit, frame_asked, verify_map};

use address::PhysicalAddress;
use map_rules::Map;
use pool::{Handle, Refusal};

// Whether frames of this length can begin there: the bound on the length comes before the difference is formed.
fn has_frames(frame: PhysicalAddress, length: u64) -> bool
    ensures { result ≡ frames_fit frame.0 length }
{
    if frame.0 % 4096 != 0 {
        return false;
    }
    if 0x1_0000_0000_0000 < length {
        return false;
    }
    frame.0 <= 0x1_0000_0000_0000 - length
}

// Refusal 7.
fn verify_frame(frame: PhysicalAddress, length: u64) -> Result<(), Refusal>
    ensures { result ≡ frame_asked frame.0 length }
{
    if !has_frames(frame, length) {
        return Err(Refusal::Frame(frame));
    }
    Ok(())
}

// Whether the map can be asked for at all; `end` is the caller's, before it is rounded.
pub fn verify_map(handle: Handle, end: u64, map: Map) -> Result<(), Refusal>
    ensures { result ≡ verify_map handle end map }
{
    if !region_verify::end_fits(end) {
        return Err(Refusal::End(end));
    }
    if map.flags / 2 % 2 == 1 {
        return Err(Refusal::InvalidFlags(map.flags));
    }
    if !entry::are_from(map.flags, pool_handle::flag_set(handle)) {
        return Err(Refusal::FlagSet(map.flags));
    }
    let region = map.region;
    region_verify::verify_region(handle, region)?;
    verify_frame(map.frame, region.len())
}
