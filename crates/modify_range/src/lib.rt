// Modify in the tables of a pool: entries split, each table's own entries edited. modify_range of paging.rs (aarch64-paging 0.12.3).
#![tactic(auto)]

ghost use Rattle.std.specs.Prelude.{◌≡◌, ◌-◌, ◌≤◌, ◌<◌, length};
ghost use Rattle.pool.specs.Lent.{lent, KeepsLent};
ghost use Rattle.pool.specs.Refuse.{Shaped};
ghost use Rattle.modify_range.specs.Range.{own, work, modify_range};

use modify_entry::Edit;
use pool::PoolMut;
use region::MemoryRegion;

// Whether a chunk's entry is one of the table's own: a whole entry that is no table.
#[tactic(auto, unfolding(crate::specs::Range::own, map_rules::specs::Rules::table_word))]
fn is_own(level: usize, region: MemoryRegion, word: u64) -> bool
    ensures { result ≡ own level region word }
{
    if word % 4 == 3 {
        return false;
    }
    region.is_block(level)
}

// Every chunk of the edit in table k: first what lies in lower tables, then the table's own entries. Answers with how many numbers the list
// has, which is lent whole: its clause speaks of it so.
#[tactic(auto, unfolding(address_slot::specs::Slot::entry_index))]
pub fn modify_range(
    pool: &mut PoolMut<'_>,
    k: usize,
    level: usize,
    edit: Edit,
    list: &mut [u64],
    before: usize,
) -> usize
    requires { Shaped pool.old.handle (lent pool.old) × (k < length pool.old.ledger.now) × (level ≤ 3) }
    ensures keeps { KeepsLent pool.old pool.new }
    ensures leaves { work (lent pool.new) list.new result
        ≡ modify_range (3 - level) pool.old.handle k edit (work (lent pool.old) list.old before) }
{
    if address::LEAF_LEVEL <= level {
        return modify_entry::edit_own(pool.words, k, level, edit, list, before);
    }
    let mut count = before;
    for chunk in edit.region.split(level) {
        let i = address_slot::entry_index(level, chunk.start.0);
        if is_own(level, chunk, pool.words[512 * k + i]) {
            continue;
        }
        let Some(j) = map_split::descend(pool, k, level, i) else {
            continue;
        };
        let part = modify_entry::chunk_edit(edit, chunk);
        count = modify_range(pool, j, level + 1, part, list, count);
    }
    modify_entry::edit_own(pool.words, k, level, edit, list, count)
}
