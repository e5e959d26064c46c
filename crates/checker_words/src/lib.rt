// A run of words of one table, judged by unions of its words: as a free table, one of pages or one of links; and as its ledger number says.
#![tactic(auto)]

ghost use Rattle.std.specs.Prelude.{◌≡◌};
ghost use Rattle.checker_words.specs.Words.{free_run, pages_run, links_run, run_of, allowed_at};
ghost use Rattle.checker_words.specs.Mask.{PlainSet};

// How many words of a run refer to tables, where it passes; nothing where it holds a wrong word. A run of a free table: the union of its
// words is 0.
pub fn scan_free(run: &[u64]) -> Option<usize>
    ensures { result ≡ free_run run.now }
{
    let mut any = 0;
    for word in run {
        any |= *word;
    }
    if any == 0 { Some(0) } else { None }
}

// A run of a table of pages: bits that are allowed, and bit 1 wherever bit 0 is. No branch on a word.
pub fn scan_pages(run: &[u64], allowed: u64) -> Option<usize>
    ensures { result ≡ pages_run allowed run.now }
{
    let mut any = 0;
    let mut stray = 0;
    for &word in run {
        any |= word;
        stray |= word & !(word / 2);
    }
    if any & allowed != any {
        return None;
    }
    if stray % 2 == 0 { Some(0) } else { None }
}

// A run of a table of levels 0 to 2: table words are counted, the others have bits that are allowed.
pub fn scan_links(run: &[u64], allowed: u64) -> Option<usize>
    ensures { result ≡ links_run allowed run.now }
{
    let mut any = 0;
    let mut links = 0;
    for &word in run {
        if word % 4 == 3 {
            links += 1;
        } else {
            any |= word;
        }
    }
    if any & allowed == any {
        Some(links)
    } else {
        None
    }
}

// The bits that a leaf may have at a level.
fn allowed_at(set: u64, level: usize) -> u64
    requires { PlainSet set }
    ensures { result ≡ allowed_at set level }
{
    match level {
        0 => set & 0xFFFF_FFFF_FFFF_FFFE,
        1 => set + 0xFFFF_C000_0000,
        2 => set + 0xFFFF_FFE0_0000,
        _ => set + 0xFFFF_FFFF_F000 + 2,
    }
}

// A run of a table with this ledger number.
pub fn scan_run(run: &[u64], set: u64, number: u32) -> Option<usize>
    requires { PlainSet set }
    ensures { result ≡ run_of set number run.now }
{
    if number == 0 {
        return scan_free(run);
    }
    let level = (number % 4) as usize;
    let allowed = allowed_at(set, level);
    if level == address::LEAF_LEVEL {
        return scan_pages(run, allowed);
    }
    scan_links(run, allowed)
}
