// What modify asks: of its arguments, refusals 2 to 6, and of what it would do, refusals 9 to 11, in their order.
#![tactic(auto)]

ghost use Rattle.std.specs.Prelude.{◌≡◌};
ghost use Rattle.modify_verify.specs.Verify.{settable, verify_bits, verify_edit, verify_survey};

use modify_entry::Edit;
use modify_survey::Survey;
use pool::{Handle, Refusal};

// Whether these bits may be set: all from the flags, bit 0 not among them, none that is cleared too.
#[tactic(auto, unfolding(crate::specs::Verify::settable))]
fn are_settable(flags: u64, set: u64, clear: u64) -> bool
    ensures { result ≡ settable flags set clear }
{
    if !entry::are_from(set, flags) {
        return false;
    }
    if set % 2 == 1 {
        return false;
    }
    set & clear == 0
}

// Refusals 3 and 4: the bits to set come before the bits to clear.
#[tactic(auto, unfolding(crate::specs::Verify::verify_bits))]
fn verify_bits(handle: Handle, set: u64, clear: u64) -> Result<(), Refusal>
    ensures { result ≡ verify_bits handle set clear }
{
    if set / 2 % 2 == 1 {
        return Err(Refusal::InvalidFlags(set));
    }
    if clear / 2 % 2 == 1 {
        return Err(Refusal::InvalidFlags(clear));
    }
    let flags = pool_handle::flag_set(handle);
    if !are_settable(flags, set, clear) {
        return Err(Refusal::FlagSet(set));
    }
    if !entry::are_from(clear, flags) {
        return Err(Refusal::FlagSet(clear));
    }
    Ok(())
}

// Whether the edit can be asked for at all; `end` is the caller's, before it is rounded.
#[tactic(auto, unfolding(crate::specs::Verify::verify_edit, pool::specs::Refuse::first_refused))]
pub fn verify_edit(handle: Handle, end: u64, edit: Edit) -> Result<(), Refusal>
    ensures { result ≡ verify_edit handle end edit }
{
    if !region_verify::end_fits(end) {
        return Err(Refusal::End(end));
    }
    verify_bits(handle, edit.set, edit.clear)?;
    let region = edit.region;
    region_verify::verify_region(handle, region)
}

// Refusal 9, and those of a live edit: 10 and 11.
#[tactic(auto, unfolding(crate::specs::Verify::verify_survey))]
pub fn verify_survey(free: u64, room: u64, live: bool, found: Survey) -> Result<(), Refusal>
    ensures { result ≡ verify_survey free room live found }
{
    if free < found.splits {
        return Err(Refusal::WantOfRoom(found.splits, free));
    }
    if !live {
        return Ok(());
    }
    if let Some(word) = found.broken {
        return Err(Refusal::HouseRule(word));
    }
    if room < found.numbers {
        return Err(Refusal::Short(found.numbers));
    }
    Ok(())
}
