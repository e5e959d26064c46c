// Every entry that a region meets, four numbers a line: visit_range of paging.rs (aarch64-paging 0.12.3).
#![tactic(auto)]

ghost use Rattle.std.specs.Prelude.{◌≡◌, [], ◌∷◌, ◌+◌, ◌*◌, ◌-◌, ◌^◌, ◌≤◌, ◌<◌, length};
ghost use Rattle.laws.specs.Part.{put_part};
ghost use Rattle.arm.specs.Arm.{fetch};
ghost use Rattle.list_lines.specs.Lines.{line, numbers, lines_from, written, write_lines};

use address::VirtualAddress;
use entry::Sub;
use pool::Handle;
use region::MemoryRegion;

// The word of table k that the address lies in.
fn get_entry(words: &[u64], tables: usize, k: usize, level: usize, va: VirtualAddress) -> u64
    requires { (length words.now ≡ 512 * tables) × (k < tables) }
    ensures { result ≡ fetch words.now va.0 k level }
{
    let slot = address_slot::entry_index(level, va.0);
    words[512 * k + slot]
}

// How many lines the region gives in table k. A table of pages is not read for it. No pool is asked for: a ledger is not read.
pub fn count_lines(
    words: &[u64],
    tables: usize,
    handle: Handle,
    k: usize,
    level: usize,
    region: MemoryRegion,
) -> usize
    requires { (length words.now ≡ 512 * tables) × (k < tables) × (level ≤ 3)
        × (length (lines_from handle.base.0 tables words.now (3 - level) k region) < 2 ^ 64) }
    ensures { result ≡ length (lines_from handle.base.0 tables words.now (3 - level) k region) }
{
    if address::LEAF_LEVEL <= level {
        return region.entries_met(address::LEAF_LEVEL) as usize;
    }
    let mut count = 0;
    for chunk in region.split(level) {
        let word = get_entry(words, tables, k, level, chunk.start);
        let kind = entry::subtable(handle.base, tables, level, word);
        let Sub::Table(j) = kind else {
            count += 1;
            continue;
        };
        count += count_lines(words, tables, handle, j, level + 1, chunk);
    }
    count
}

// One line.
fn put_line(list: &mut [u64], to: usize, chunk: MemoryRegion, word: u64, level: usize)
    requires { to + 4 ≤ length list.old }
    ensures { list.new ≡ put_part to (numbers (line chunk word level ∷ [])) list.old }
{
    list[to] = chunk.start.0;
    list[to + 1] = chunk.end.0;
    list[to + 2] = word;
    list[to + 3] = level as u64;
}

// Writes the lines that the region gives in table k, from a place of the list on, and answers with the place after them: the list is lent
// whole, and its clause speaks of it so.
pub fn visit_range(
    words: &[u64],
    tables: usize,
    handle: Handle,
    k: usize,
    level: usize,
    region: MemoryRegion,
    list: &mut [u64],
    from: usize,
) -> usize
    requires { (length words.now ≡ 512 * tables) × (k < tables) × (level ≤ 3)
        × (from + 4 * length (lines_from handle.base.0 tables words.now (3 - level) k region) ≤ length list.old) }
    ensures { written result list.new
        ≡ write_lines from (lines_from handle.base.0 tables words.now (3 - level) k region) list.old }
{
    let mut to = from;
    for chunk in region.split(level) {
        let word = get_entry(words, tables, k, level, chunk.start);
        let kind = entry::subtable(handle.base, tables, level, word);
        let Sub::Table(j) = kind else {
            put_line(list, to, chunk, word, level);
            to += 4;
            continue;
        };
        to = visit_range(words, tables, handle, j, level + 1, chunk, list, to);
    }
    to
}
