// An item of a slice at any place: past the end the type's default is read, and nothing is written; `face` has what both
// programs know of the library. No function needs anything of its caller.
#![tactic(auto)]

ghost use Rattle.std.specs.Prelude.{◌≡◌, ◌<◌, ◌≤◌, ◌↔◌, length, IsTrue, slice_get, slice_set};

pub mod face;

// The item at a place, the default past the end.
pub fn item_at<T: Copy + Default>(items: &[T], at: usize) -> T
    ensures read { at < length items.now → slice_get items.now at ≡ Some result }
    ensures past { length items.now ≤ at → T.is_default result }
{
    if at < items.len() {
        items[at]
    } else {
        T::default()
    }
}

// Writes an item, and nothing past the end. Whether there is such a place.
pub fn put<T: Copy>(items: &mut [T], at: usize, item: T) -> bool
    ensures place { IsTrue result ↔ (at < length items.old) }
    ensures items { items.new ≡ slice_set items.old at item }
{
    if items.len() <= at {
        return false;
    }
    items[at] = item;
    true
}

#[cfg(test)]
mod tests {
    use super::*;

    #[test]
    fn reads_and_writes_at_any_place(rt: HostRuntime) {
        let mut text = [7u8, 8];
        assert_eq!(rt; put(&mut text, 1, 9), true);
        assert_eq!(rt; put(&mut text, 2, 9), false);
        assert_eq!(rt; text, [7, 9]);
        assert_eq!(rt; (item_at(&text, 1), item_at(&text, 2)), (9, 0));
        let mut words = [5u64];
        assert_eq!(rt; put(&mut words, 0, 6), true);
        assert_eq!(rt; put(&mut words, 1, 7), false);
        assert_eq!(rt; (item_at(&words, 0), item_at(&words, 1)), (6, 0));
        let mut numbers = [1u32, 2];
        assert_eq!(rt; put(&mut numbers, 0, 3), true);
        assert_eq!(rt; put(&mut numbers, 2, 4), false);
        assert_eq!(rt; (item_at(&numbers, 0), item_at(&numbers, 2)), (3, 0));
    }
}
