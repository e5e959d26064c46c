// The words and the ledger numbers that the bench has room for, and the pool that a command is lent of them.
ghost use Rattle.std.specs.Prelude.{◌≡◌, ◌*◌, length};

use bench_session::PoolShape;
use bench_view::MOST_TABLES;
use pool::Handle;
use text_access::face::TABLE_WORDS;

// The tables, and so the ledger numbers, that the bench has room for.
const TABLES: usize = MOST_TABLES as usize;

// The words that the bench has room for.
const WORDS: usize = TABLES * TABLE_WORDS;

// The pool that a command works on. Its calls are its methods and answer in words, so it is no PoolMut of the library.
#[derive(Drop)]
pub struct Pool<'a> {
    pub words: &'a mut [u64],
    pub ledger: &'a mut [u32],
    pub handle: Handle,
}

// All words and ledger numbers.
#[derive(Drop)]
pub struct Room {
    words: [u64; WORDS],
    ledger: [u32; TABLES],
}

impl Room {
    // All zero.
    pub fn new() -> Self {
        Self {
            words: [0; WORDS],
            ledger: [0; TABLES],
        }
    }

    // The first tables, as many as a pool has.
    pub fn lend(&mut self, shape: PoolShape) -> Pool<'_>
        ensures words { length result.words.now ≡ 512 * shape.tables }
        ensures ledger { length result.ledger.now ≡ shape.tables }
        ensures handle { result.handle ≡ shape.handle }
    {
        let words = self.words.as_mut_slice();
        let ledger = self.ledger.as_mut_slice();
        Pool {
            words: &mut words[..TABLE_WORDS * shape.tables],
            ledger: &mut ledger[..shape.tables],
            handle: shape.handle,
        }
    }
}
