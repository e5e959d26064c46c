// An edit: one word of it, its part for a chunk, and a table's own entries, words edited and numbers listed.
#![tactic(auto)]

ghost use Rattle.std.specs.Prelude.{◌≡◌, ◌+◌, ◌*◌, ◌≤◌, length};
ghost use Rattle.modify_entry.specs.Word.{chunk_edit, edit_word};
ghost use Rattle.modify_entry.specs.Own.{numbered, put_number, noted, own_range};

use entry::Kind;
use region::MemoryRegion;

// What to do: the region, the bits to set and to clear, and whether the tables are in use meanwhile. Any may be asked for: refusals 3 to 6
// are given of those that can't be, so what is asked of its region stands in contracts, and `live` beside it, as modify is asked.
#[derive(Clone, Copy)]
pub struct Edit {
    pub region: MemoryRegion,
    pub set: u64,
    pub clear: u64,
    pub live: bool,
}

// A word after the edit: only a valid block or page is touched.
#[tactic(auto, unfolding(crate::specs::Word::edit_word, crate::specs::Word::of_kind, entry::specs::Word::edited))]
pub fn edit_word(level: usize, edit: Edit, word: u64) -> u64
    ensures { result ≡ edit_word level edit word }
{
    let new = (word | edit.set) & !edit.clear;
    match entry::kind_of(level, word) {
        Kind::Table => word,
        Kind::Block => new,
        Kind::Page => new,
        Kind::Hole => word,
    }
}

// The same edit of one chunk.
pub fn chunk_edit(edit: Edit, region: MemoryRegion) -> Edit
    ensures { result ≡ chunk_edit edit region }
{
    Edit { region, ..edit }
}

// Live, a number goes after the others in the list, which is lent whole, with its count beside it; answers with how many there are.
#[tactic(auto, unfolding(crate::specs::Own::put_number))]
fn put_number(live: bool, list: &mut [u64], count: usize, number: u64) -> usize
    ensures { numbered result list.new ≡ put_number live number count list.old }
{
    if !live {
        return count;
    }
    if list.len() <= count {
        return count;
    }
    list[count] = number;
    count + 1
}

// A table's own entries, ascending: each word that changes is written and, live, listed.
#[tactic(auto, unfolding(address_slot::specs::Slot::entry_index))]
pub fn edit_own(
    words: &mut [u64],
    k: usize,
    level: usize,
    edit: Edit,
    list: &mut [u64],
    before: usize,
) -> usize
    requires { 512 * k + 512 ≤ length words.old }
    ensures { noted words.new list.new result
        ≡ own_range k level edit (noted words.old list.old before) }
{
    let mut count = before;
    for chunk in edit.region.split(level) {
        let i = address_slot::entry_index(level, chunk.start.0);
        let number = address::tlbi_address(chunk.start);
        let word = words[512 * k + i];
        let new = edit_word(level, edit, word);
        if new == word {
            continue;
        }
        words[512 * k + i] = new;
        count = put_number(edit.live, list, count, number);
    }
    count
}
