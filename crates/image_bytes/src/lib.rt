// Words as bytes: PageTable::write_to of paging.rs (aarch64-paging 0.12.3).
#![tactic(auto)]

ghost use Rattle.std.specs.Prelude.{◌≡◌, ◌*◌, length};
ghost use Rattle.image_bytes.specs.Image.{bytes_of, image_of};

// The eight bytes of a word, lowest first.
#[tactic(auto, using(crate::proofs::Bytes::low_bytes))]
fn put_word(bytes: &mut [u8], word: u64)
    requires { length bytes.old ≡ 8 }
    ensures { bytes.new ≡ bytes_of 8 word }
{
    bytes.copy_from_slice(&word.to_le_bytes());
}

// A table's words, little-endian.
pub fn write_to(table: &[u64], page: &mut [u8])
    requires { length page.old ≡ 8 * length table.now }
    ensures { page.new ≡ image_of table.now }
{
    // By index: of a slice written through chunks_exact_mut a proof knows only the length afterwards.
    for (i, word) in table.iter().enumerate() {
        let a = 8 * i;
        put_word(&mut page[a..a + 8], *word);
    }
}
