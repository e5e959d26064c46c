// One table as the bytes of a page.
#![tactic(auto)]

ghost use Rattle.std.specs.Prelude.{◌≡◌};
ghost use Rattle.pool.specs.State.{st};
ghost use Rattle.image.specs.Call.{imaged, image_call};

use pool::{Handle, Refusal};

// Writes one table's 512 words into 4096 bytes.
pub fn page_image(
    words: &[u64],
    ledger: &[u32],
    handle: Handle,
    k: usize,
    page: &mut [u8],
) -> Result<(), Refusal>
    ensures { imaged result page.new
        ≡ image_call handle (st words.now ledger.now) k page.old }
{
    if !pool_handle::is_shaped(words, ledger, handle) {
        return Err(Refusal::Shape);
    }
    if ledger.len() <= k {
        return Err(Refusal::Shape);
    }
    if page.len() != 4096 {
        return Err(Refusal::Short(4096));
    }
    let a = 512 * k;
    let e = a + 512;
    image_bytes::write_to(&words[a..e], page);
    Ok(())
}
