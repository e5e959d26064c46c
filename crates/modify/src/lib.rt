// Modify: bits set and cleared in the valid blocks and pages of a region. modify_range of paging.rs (aarch64-paging 0.12.3), on a pool of
// tables.
#![tactic(auto)]

ghost use Rattle.std.specs.Prelude.{◌≡◌, Ok, ◌-◌, ◌≤◌, ◌^◌};
ghost use Rattle.pool.specs.State.{st};
ghost use Rattle.pool.specs.Lent.{lent, KeepsLent};
ghost use Rattle.pool.specs.Refuse.{Shaped};
ghost use Rattle.modify.specs.Call.{modifying, edit_tables, modify_sound, modify_call};

use address::VirtualAddress;
use modify_entry::Edit;
use modify_survey::Survey;
use pool::{Handle, PoolMut, Refusal};
use region::MemoryRegion;

// What modify answers: the tables in use afterwards, counted off the ledger, and, live, how many numbers it listed.
#[derive(Clone, Copy)]
pub enum Modified {
    Tables(usize),
    Live(usize, usize),
}

// The edit from the root down.
#[tactic(auto, unfolding(crate::specs::Call::edit_tables, crate::specs::Call::answer_of, pool::specs::Refuse::max_tables))]
fn edit_tables(pool: &mut PoolMut<'_>, edit: Edit, list: &mut [u64]) -> Modified
    requires { Shaped pool.old.handle (lent pool.old) }
    ensures keeps { KeepsLent pool.old pool.new }
    ensures leaves { modifying (Ok result) (lent pool.new) list.new
        ≡ edit_tables pool.old.handle edit (lent pool.old) list.old }
{
    let numbers = modify_range::modify_range(pool, 0, pool.handle.level, edit, list, 0);
    let tables = pool_ledger::count_used(pool.read().ledger);
    if edit.live {
        return Modified::Live(tables, numbers);
    }
    Modified::Tables(tables)
}

// Refusals 8 to 11, then the edit.
#[tactic(auto, unfolding(crate::specs::Call::modify_sound, pool::specs::Refuse::first_refused, pool::specs::Refuse::max_tables))]
fn modify_sound(pool: &mut PoolMut<'_>, edit: Edit, list: &mut [u64]) -> Result<Modified, Refusal>
    requires { Shaped pool.old.handle (lent pool.old) × (edit.region.end.0 - edit.region.start.0 ≤ 2 ^ 48) }
    ensures keeps { KeepsLent pool.old pool.new }
    ensures leaves { modifying result (lent pool.new) list.new
        ≡ modify_sound pool.old.handle edit (lent pool.old) list.old }
{
    let seen = pool.read();
    if !checker::is_sound(&seen) {
        return Err(Refusal::Unsound);
    }
    let free = (seen.ledger.len() - pool_ledger::count_used(seen.ledger)) as u64;
    let none = Survey {
        splits: 0,
        numbers: 0,
        broken: None,
    };
    let found = modify_survey::survey_range(&seen, 0, seen.handle.level, edit, none);
    modify_verify::verify_survey(free, list.len() as u64, edit.live, found)?;
    Ok(edit_tables(pool, edit, list))
}

// Sets and clears bits in the valid blocks and pages of the region; live, lists the page number of each whose word changed. `live` stands
// beside the list, as the call promises: not live, a list of any length stays as it is. Words, ledger and
// handle come one by one, as they are lent: the pool is made of them once it is shaped.
#[tactic(auto, unfolding(crate::specs::Call::modify_call, pool::specs::Refuse::first_refused))]
pub fn modify(
    words: &mut [u64],
    ledger: &mut [u32],
    handle: Handle,
    start: VirtualAddress,
    end: VirtualAddress,
    set: u64,
    clear: u64,
    live: bool,
    list: &mut [u64],
) -> Result<Modified, Refusal>
    ensures { modifying result (st words.new ledger.new) list.new
        ≡ modify_call handle start.0 end.0 set clear live (st words.old ledger.old) list.old }
{
    if !pool_handle::is_shaped(words, ledger, handle) {
        return Err(Refusal::Shape);
    }
    let asked = Edit {
        region: MemoryRegion::new(start.0, end.0),
        set,
        clear,
        live,
    };
    modify_verify::verify_edit(handle, end.0, asked)?;
    let mut pool = PoolMut {
        words,
        ledger,
        handle,
    };
    modify_sound(&mut pool, asked, list)
}
