// What an edit would do, found before anything is written: the splits, the first word that breaks the house rule, and how many words
// change.
#![tactic(auto)]

ghost use Rattle.std.specs.Prelude.{◌≡◌, ◌+◌, ◌*◌, ◌-◌, ◌≤◌, ◌<◌, ◌^◌, length};
ghost use Rattle.pool.specs.Lent.{read_state};
ghost use Rattle.modify_survey.specs.House.{house_rule, may_change};
ghost use Rattle.modify_survey.specs.Survey.{splits_in, breach, survey_part, survey_whole, survey_entry, survey_range};
ghost use Rattle.modify_survey.specs.Room.{Room};

use entry::{Kind, Sub};
use modify_entry::Edit;
use pool::{Handle, Pool};
use region::MemoryRegion;

// What was found: the tables that the splits take, the numbers that a list would get, and the first word that breaks the house rule.
#[derive(Clone, Copy)]
pub struct Survey {
    pub splits: u64,
    pub numbers: u64,
    pub broken: Option<u64>,
}

// Bits 0, 7, 10, 11, 51 and 53 to 58.
pub const HOUSE_RULE: u64 = 0x07E8_0000_0000_0C81;

// The bits of a valid entry that may change while the tables of this handle are in use.
#[tactic(auto, unfolding(crate::specs::House::house_rule))]
fn house_rule(handle: Handle) -> u64
    ensures { result ≡ house_rule handle }
{
    HOUSE_RULE
}

// Whether a valid entry may change from one word to the other while its table is in use.
#[tactic(auto, unfolding(crate::specs::House::may_change))]
fn may_change(handle: Handle, old: u64, new: u64) -> bool
    ensures { result ≡ may_change handle old new }
{
    entry::are_from(old ^ new, house_rule(handle))
}

// The splits that a chunk of an entry needs which is no table: none if it is the whole entry, else its own and those in the new table.
fn count_splits(level: usize, region: MemoryRegion) -> u64
    requires { region.end.0 - region.start.0 ≤ 2 ^ 48 }
    ensures { result ≡ splits_in (3 - level) region }
{
    if address::LEAF_LEVEL <= level {
        return 0;
    }
    if region.is_block(level) {
        return 0;
    }
    let mut count = 1;
    for chunk in region.split(level + 1) {
        count += count_splits(level + 1, chunk);
    }
    count
}

// A breach of the house rule: the first one stays.
#[tactic(auto, unfolding(crate::specs::Survey::breach))]
fn add_breach(found: Survey, word: u64) -> Survey
    ensures { result ≡ breach word found }
{
    Survey {
        broken: found.broken.or(Some(word)),
        ..found
    }
}

// A part of an entry: it is split, and no valid entry may be.
#[tactic(auto, using(crate::specs::Room::splits_most), unfolding(crate::specs::Survey::survey_part, crate::specs::Survey::if_block))]
fn survey_part(level: usize, region: MemoryRegion, word: u64, seen: Survey) -> Survey
    requires { (region.start.0 < region.end.0) × Room region seen }
    ensures { result ≡ survey_part level region word seen }
{
    let more = Survey {
        splits: seen.splits + count_splits(level, region),
        ..seen
    };
    let Kind::Block = entry::kind_of(level, word) else {
        return more;
    };
    add_breach(more, word)
}

// A whole entry: its word may change.
#[tactic(auto, unfolding(crate::specs::Survey::survey_whole))]
fn survey_whole(handle: Handle, level: usize, edit: Edit, word: u64, seen: Survey) -> Survey
    requires { (edit.region.start.0 < edit.region.end.0) × Room edit.region seen }
    ensures { result ≡ survey_whole handle level edit word seen }
{
    let new = modify_entry::edit_word(level, edit, word);
    if new == word {
        return seen;
    }
    let changed = Survey {
        numbers: seen.numbers + 1,
        ..seen
    };
    if may_change(handle, word, new) {
        return changed;
    }
    add_breach(changed, word)
}

// A chunk of an entry that is no table.
#[tactic(auto, unfolding(crate::specs::Survey::survey_entry))]
fn survey_entry(handle: Handle, level: usize, edit: Edit, word: u64, seen: Survey) -> Survey
    requires { (edit.region.start.0 < edit.region.end.0) × Room edit.region seen }
    ensures { result ≡ survey_entry handle level edit word seen }
{
    let region = edit.region;
    if region.is_block(level) {
        return survey_whole(handle, level, edit, word, seen);
    }
    survey_part(level, region, word, seen)
}

// Every chunk of the edit in table k, ascending: only entries that exist are visited.
#[tactic(auto, unfolding(address_slot::specs::Slot::entry_index))]
pub fn survey_range(pool: &Pool<'_>, k: usize, level: usize, edit: Edit, before: Survey) -> Survey
    requires { (k < length pool.now.ledger.now) × (level ≤ 3) × Room edit.region before }
    ensures { result ≡ survey_range (3 - level) pool.now.handle (read_state pool.now) k edit before }
{
    let mut seen = before;
    for chunk in edit.region.split(level) {
        let i = address_slot::entry_index(level, chunk.start.0);
        let part = modify_entry::chunk_edit(edit, chunk);
        let word = pool.words[512 * k + i];
        seen = match entry::subtable(pool.handle.base, pool.ledger.len(), level, word) {
            Sub::Table(j) => survey_range(pool, j, level + 1, part, seen),
            Sub::Leaf => survey_entry(pool.handle, level, part, word, seen),
            Sub::Outside => seen,
        };
    }
    seen
}
