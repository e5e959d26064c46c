// The lent pool as one value. Its type holds `sized` and not `Shaped`, since functions that ask for no more take it too. A table's number
// and its level stay beside it: each call makes them anew, the number from a link, the level by one more.
ghost use Rattle.std.specs.Prelude.{◌≡◌, ◌*◌, length};
ghost use Rattle.pool.specs.State.{st};

use crate::Handle;

// A pool that is read: the lent words and ledger, and its handle.
#[derive(Clone, Copy)]
pub struct Pool<'a> {
    pub words: &'a [u64],
    pub ledger: &'a [u32],
    pub handle: Handle,
    ghost sized: { length words.now ≡ 512 * length ledger.now },
}

// A pool that is written.
#[derive(Drop)]
pub struct PoolMut<'a> {
    pub words: &'a mut [u64],
    pub ledger: &'a mut [u32],
    pub handle: Handle,
    ghost sized: { length words.now ≡ 512 * length ledger.now },
}

impl PoolMut<'_> {
    // The pool as it stands, to be read.
    pub fn read(&self) -> Pool<'_>
        ensures words { result.words.now ≡ self.now.words.now }
        ensures ledger { result.ledger.now ≡ self.now.ledger.now }
        ensures handle { result.handle ≡ self.now.handle }
        ensures state { st result.words.now result.ledger.now ≡ st self.now.words.now self.now.ledger.now }
    {
        Pool {
            words: self.words,
            ledger: self.ledger,
            handle: self.handle,
        }
    }
}
