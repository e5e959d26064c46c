// The archive for other languages: the functions of ptb, each exported by its name (include/ptb.h says what each is). They stand here too,
// since a crate is a library or a static library.
#![tactic(auto)]

ghost use Rattle.std.specs.Prelude.{◌≡◌};
ghost use Rattle.pool.specs.State.{st};
ghost use Rattle.pool.specs.Refuse.{out};
ghost use Rattle.ptb_answer.specs.Answer.{slip};
ghost use Rattle.ptb_spec.specs.Calls.{ptb_make, ptb_check, ptb_look_up, filled, ptb_list, ptb_map, changed, ptb_modify, ptb_compact};
ghost use Rattle.ptb_spec.specs.Calls.{ptb_image};

// Zeroes all words and the ledger, then enters the root as table 0.
#[unsafe(no_mangle)]
pub extern "C" fn ptb_make(
    words: &mut [u64],
    ledger: &mut [u32],
    base: u64,
    level: u64,
    range: u64,
    answer: &mut [u64; 4],
) -> u64
    ensures { out (slip result answer.new) (st words.new ledger.new)
        ≡ ptb_make base level range (st words.old ledger.old) answer.old }
{
    ptb::ptb_make(words, ledger, base, level, range, answer)
}

// Whether the pool is sound.
#[unsafe(no_mangle)]
pub extern "C" fn ptb_check(
    words: &[u64],
    ledger: &[u32],
    base: u64,
    level: u64,
    range: u64,
    answer: &mut [u64; 4],
) -> u64
    ensures { slip result answer.new
        ≡ ptb_check base level range (st words.now ledger.now) answer.old }
{
    ptb::ptb_check(words, ledger, base, level, range, answer)
}

// What the walk of an address answers.
#[unsafe(no_mangle)]
pub extern "C" fn ptb_look_up(
    words: &[u64],
    ledger: &[u32],
    base: u64,
    level: u64,
    range: u64,
    va: u64,
    answer: &mut [u64; 4],
) -> u64
    ensures { slip result answer.new
        ≡ ptb_look_up base level range (st words.now ledger.now) va answer.old }
{
    ptb::ptb_look_up(words, ledger, base, level, range, va, answer)
}

// Lists the entries that a region meets, four numbers a line.
#[unsafe(no_mangle)]
pub extern "C" fn ptb_list(
    words: &[u64],
    ledger: &[u32],
    base: u64,
    level: u64,
    range: u64,
    start: u64,
    end: u64,
    lines: &mut [u64],
    answer: &mut [u64; 4],
) -> u64
    ensures { filled (slip result answer.new) lines.new
        ≡ ptb_list base level range (st words.now ledger.now) start end lines.old answer.old }
{
    ptb::ptb_list(words, ledger, base, level, range, start, end, lines, answer)
}

// Puts a map down: each page of the region to its frame, ascending, with these flags.
#[unsafe(no_mangle)]
pub extern "C" fn ptb_map(
    words: &mut [u64],
    ledger: &mut [u32],
    base: u64,
    level: u64,
    range: u64,
    start: u64,
    end: u64,
    frame: u64,
    flags: u64,
    constraints: u64,
    answer: &mut [u64; 4],
) -> u64
    ensures { out (slip result answer.new) (st words.new ledger.new)
        ≡ ptb_map base level range start end frame flags constraints
        (st words.old ledger.old) answer.old }
{
    ptb::ptb_map(
        words,
        ledger,
        base,
        level,
        range,
        start,
        end,
        frame,
        flags,
        constraints,
        answer,
    )
}

// Sets and clears bits in the valid blocks and pages of the region; live, lists the page number of each whose word changed.
#[unsafe(no_mangle)]
pub extern "C" fn ptb_modify(
    words: &mut [u64],
    ledger: &mut [u32],
    base: u64,
    level: u64,
    range: u64,
    start: u64,
    end: u64,
    set: u64,
    clear: u64,
    live: u64,
    list: &mut [u64],
    answer: &mut [u64; 4],
) -> u64
    ensures { changed (slip result answer.new) (st words.new ledger.new) list.new
        ≡ ptb_modify base level range start end set clear live
        (st words.old ledger.old) list.old answer.old }
{
    ptb::ptb_modify(
        words, ledger, base, level, range, start, end, set, clear, live, list, answer,
    )
}

// Frees each table but the root that is all zero, from the leaves up.
#[unsafe(no_mangle)]
pub extern "C" fn ptb_compact(
    words: &mut [u64],
    ledger: &mut [u32],
    base: u64,
    level: u64,
    range: u64,
    answer: &mut [u64; 4],
) -> u64
    ensures { out (slip result answer.new) (st words.new ledger.new)
        ≡ ptb_compact base level range (st words.old ledger.old) answer.old }
{
    ptb::ptb_compact(words, ledger, base, level, range, answer)
}

// Writes one table's 512 words into 4096 bytes.
#[unsafe(no_mangle)]
pub extern "C" fn ptb_image(
    words: &[u64],
    ledger: &[u32],
    base: u64,
    level: u64,
    range: u64,
    table: u64,
    page: &mut [u8],
    answer: &mut [u64; 4],
) -> u64
    ensures { filled (slip result answer.new) page.new
        ≡ ptb_image base level range (st words.now ledger.now) table page.old answer.old }
{
    ptb::ptb_image(words, ledger, base, level, range, table, page, answer)
}
