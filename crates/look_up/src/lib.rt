// Look up: the walk of one address.
#![tactic(auto)]

ghost use Rattle.std.specs.Prelude.{◌≡◌, ◌≤◌, length};
ghost use Rattle.pool.specs.State.{st};
ghost use Rattle.arm.specs.Arm.{at, says, walk};
ghost use Rattle.look_up.specs.Call.{answer, spanned, look_up_call};

use address::{PhysicalAddress, VirtualAddress};
use entry::{Kind, Sub};
use pool::{Handle, Pool, Refusal, VaRange};

// What a walk finds: kind, level, flags without bit 1, and the frame of the address's page. A hole has no frame.
#[derive(Clone, Copy)]
pub enum Looked {
    Hole(usize, u64),
    Block(usize, u64, PhysicalAddress),
    Page(usize, u64, PhysicalAddress),
}

// Whether the address lies in the root's span.
fn is_spanned(range: VaRange, level: usize, va: VirtualAddress) -> bool
    ensures { result ≡ spanned range level va.0 }
{
    let span = 512 * address::granularity_at_level(level);
    match range {
        VaRange::Lower => va.0 < span,
        VaRange::Upper => 0xFFFF_FFFF_FFFF_FFFF - span < va.0,
    }
}

// What a word says that ends the walk.
fn leaf(level: usize, word: u64, va: VirtualAddress) -> Looked
    ensures { Ok result ≡ answer (says va.0 (at level word)) }
{
    let flags = look_up_fields::plain_flags(word);
    let kind = entry::kind_of(level, word);
    match kind {
        Kind::Hole => Looked::Hole(level, flags),
        Kind::Block => Looked::Block(level, flags, look_up_fields::frame(level, word, va)),
        _ => Looked::Page(level, flags, look_up_fields::frame(level, word, va)),
    }
}

// From the root down until a word ends the walk.
fn walk_from(pool: &Pool<'_>, va: VirtualAddress) -> Result<Looked, Refusal>
    requires { (1 ≤ length pool.now.ledger.now) × (pool.now.handle.level ≤ 3) }
    ensures { result ≡ answer (walk pool.now.handle.base.0 (length pool.now.ledger.now) pool.now.words.now va.0 pool.now.handle.level) }
{
    let slots = look_up_fields::slots_of(va);
    let mut level = pool.handle.level;
    let mut k = 0;
    // A loop by hand: a leaf ends it, and behind a `for` over the levels an answer would stand that no walk gives.
    loop {
        let slot = slots[level] as usize;
        let word = pool.words[512 * k + slot];
        let kind = entry::subtable(pool.handle.base, pool.ledger.len(), level, word);
        let Sub::Table(j) = kind else {
            if let Sub::Outside = kind {
                return Err(Refusal::Unsound);
            }
            return Ok(leaf(level, word, va));
        };
        k = j;
        level += 1;
    }
}

// What the walk of the address answers. Words, ledger and handle
// come one by one, as they are lent: the pool is made of them once it is shaped.
pub fn look_up(
    words: &[u64],
    ledger: &[u32],
    handle: Handle,
    va: VirtualAddress,
) -> Result<Looked, Refusal>
    ensures { result ≡ look_up_call handle (st words.now ledger.now) va.0 }
{
    if !pool_handle::is_shaped(words, ledger, handle) {
        return Err(Refusal::Shape);
    }
    let range = handle.range;
    if !is_spanned(range, handle.level, va) {
        return Err(Refusal::AddressRange(va));
    }
    let pool = Pool {
        words,
        ledger,
        handle,
    };
    walk_from(&pool, va)
}
