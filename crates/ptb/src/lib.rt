// The face for other languages: each call by its C name, with numbers alone (include/ptb.h says what each is; ptb_c exports them).
#![tactic(auto)]

ghost use Rattle.std.specs.Prelude.{◌≡◌};
ghost use Rattle.pool.specs.State.{st};
ghost use Rattle.pool.specs.Refuse.{out};
ghost use Rattle.ptb_answer.specs.Answer.{slip};
ghost use Rattle.ptb_spec.specs.Calls.{ptb_make, ptb_check, ptb_look_up, filled, ptb_list, ptb_map, changed, ptb_modify, ptb_compact};
ghost use Rattle.ptb_spec.specs.Calls.{ptb_image};

use address::{PhysicalAddress, VirtualAddress};
use map::Constraints;

// Zeroes all words and the ledger, then enters the root as table 0.
pub fn ptb_make(
    words: &mut [u64],
    ledger: &mut [u32],
    base: u64,
    level: u64,
    range: u64,
    answer: &mut [u64; 4],
) -> u64
    ensures { out (slip result answer.new) (st words.new ledger.new)
        ≡ ptb_make base level range (st words.old ledger.old) answer.old }
{
    let handle = pool_handle::handle_of(base, level, range);
    let outcome = make::make(words, ledger, handle);
    ptb_answer::tell(outcome, answer)
}

// Whether the pool is sound.
pub fn ptb_check(
    words: &[u64],
    ledger: &[u32],
    base: u64,
    level: u64,
    range: u64,
    answer: &mut [u64; 4],
) -> u64
    ensures { slip result answer.new
        ≡ ptb_check base level range (st words.now ledger.now) answer.old }
{
    let handle = pool_handle::handle_of(base, level, range);
    let outcome = checker::check(words, ledger, handle);
    ptb_answer::tell(outcome, answer)
}

// What the walk of an address answers.
pub fn ptb_look_up(
    words: &[u64],
    ledger: &[u32],
    base: u64,
    level: u64,
    range: u64,
    va: u64,
    answer: &mut [u64; 4],
) -> u64
    ensures { slip result answer.new
        ≡ ptb_look_up base level range (st words.now ledger.now) va answer.old }
{
    let handle = pool_handle::handle_of(base, level, range);
    let looked = look_up::look_up(words, ledger, handle, VirtualAddress(va));
    ptb_answer::tell(looked, answer)
}

// Lists the entries that a region meets, four numbers a line.
pub fn ptb_list(
    words: &[u64],
    ledger: &[u32],
    base: u64,
    level: u64,
    range: u64,
    start: u64,
    end: u64,
    lines: &mut [u64],
    answer: &mut [u64; 4],
) -> u64
    ensures { filled (slip result answer.new) lines.new
        ≡ ptb_list base level range (st words.now ledger.now) start end lines.old answer.old }
{
    let handle = pool_handle::handle_of(base, level, range);
    let listed = list::list(
        words,
        ledger,
        handle,
        VirtualAddress(start),
        VirtualAddress(end),
        lines,
    );
    ptb_answer::tell(listed, answer)
}

// Puts a map down: each page of the region to its frame, ascending, with these flags.
pub fn ptb_map(
    words: &mut [u64],
    ledger: &mut [u32],
    base: u64,
    level: u64,
    range: u64,
    start: u64,
    end: u64,
    frame: u64,
    flags: u64,
    constraints: u64,
    answer: &mut [u64; 4],
) -> u64
    ensures { out (slip result answer.new) (st words.new ledger.new)
        ≡ ptb_map base level range start end frame flags constraints
        (st words.old ledger.old) answer.old }
{
    let handle = pool_handle::handle_of(base, level, range);
    let counted = map::map(
        words,
        ledger,
        handle,
        VirtualAddress(start),
        VirtualAddress(end),
        PhysicalAddress(frame),
        flags,
        Constraints(constraints),
    );
    ptb_answer::tell(counted, answer)
}

// Sets and clears bits in the valid blocks and pages of the region; live, lists the page number of each whose word changed.
pub fn ptb_modify(
    words: &mut [u64],
    ledger: &mut [u32],
    base: u64,
    level: u64,
    range: u64,
    start: u64,
    end: u64,
    set: u64,
    clear: u64,
    live: u64,
    list: &mut [u64],
    answer: &mut [u64; 4],
) -> u64
    ensures { changed (slip result answer.new) (st words.new ledger.new) list.new
        ≡ ptb_modify base level range start end set clear live
        (st words.old ledger.old) list.old answer.old }
{
    let handle = pool_handle::handle_of(base, level, range);
    let modified = modify::modify(
        words,
        ledger,
        handle,
        VirtualAddress(start),
        VirtualAddress(end),
        set,
        clear,
        live != 0,
        list,
    );
    ptb_answer::tell(modified, answer)
}

// Frees each table but the root that is all zero, from the leaves up.
pub fn ptb_compact(
    words: &mut [u64],
    ledger: &mut [u32],
    base: u64,
    level: u64,
    range: u64,
    answer: &mut [u64; 4],
) -> u64
    ensures { out (slip result answer.new) (st words.new ledger.new)
        ≡ ptb_compact base level range (st words.old ledger.old) answer.old }
{
    let handle = pool_handle::handle_of(base, level, range);
    let counted = compact::compact(words, ledger, handle);
    ptb_answer::tell(counted, answer)
}

// Writes one table's 512 words into 4096 bytes.
pub fn ptb_image(
    words: &[u64],
    ledger: &[u32],
    base: u64,
    level: u64,
    range: u64,
    table: u64,
    page: &mut [u8],
    answer: &mut [u64; 4],
) -> u64
    ensures { filled (slip result answer.new) page.new
        ≡ ptb_image base level range (st words.now ledger.now) table page.old answer.old }
{
    let handle = pool_handle::handle_of(base, level, range);
    let outcome = image::page_image(words, ledger, handle, table as usize, page);
    ptb_answer::tell(outcome, answer)
}
