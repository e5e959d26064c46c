// What the walk reads of an address and of a word: slot numbers, frame, flags.
#![tactic(auto)]

ghost use Rattle.std.specs.Prelude.{◌≡◌};
ghost use Rattle.arm.specs.Arm.{frame_of, flags_in, index};
ghost use Rattle.arm.specs.Walk.{slots_of};

use address::{PhysicalAddress, VirtualAddress};

// The slot number of an address at a level.
#[tactic(auto, using(arm::specs::Walk::index_is), unfolding(address_slot::specs::Slot::entry_index))]
fn slot_at(level: usize, va: VirtualAddress) -> u16
    ensures { result ≡ index level va.0 }
{
    address_slot::entry_index(level, va.0) as u16
}

// The slot numbers of an address, by level.
#[tactic(auto, unfolding(arm::specs::Walk::slots_of))]
pub fn slots_of(va: VirtualAddress) -> [u16; 4]
    ensures { result ≡ slots_of va.0 }
{
    [0, 1, 2, 3].map(|level| slot_at(level, va))
}

// The frame of the address's page in an entry: the entry's address, cleared below the entry's size, plus the page's offset.
pub fn frame(level: usize, word: u64, va: VirtualAddress) -> PhysicalAddress
    ensures { result.0 ≡ frame_of level word va.0 }
{
    let below = address::granularity_at_level(level) - 1;
    let at = word & entry::ADDRESS_BITS;
    PhysicalAddress(at - (at & below) + ((va.0 & below) - va.0 % 4096))
}

// The flags without bit 1.
pub fn plain_flags(word: u64) -> u64
    ensures { result ≡ flags_in word }
{
    let flags = entry::flags(word);
    flags / 4 * 4 + flags % 2
}
