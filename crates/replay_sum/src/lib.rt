// The sum of what a call leaves: xorshift64 of the sum so far and the next number. Each step is one to one, so another number in
// one place always shows. No function needs anything of its caller; only safety is proved, the sums are held to a test.
#![tactic(auto)]

// What a sum begins with.
const START: u64 = 0x9E37_79B9_7F4A_7C15;

// The first shift of xorshift64, to the left.
const FIRST_SHIFT: u64 = 13;

// The second shift of xorshift64, to the right.
const SECOND_SHIFT: u64 = 7;

// The third shift of xorshift64, to the left.
const THIRD_SHIFT: u64 = 17;

// A sum of numbers, in their order.
#[derive(Clone, Copy)]
struct Sum(u64);

impl Sum {
    // The sum with one more number.
    fn with(self, number: u64) -> Sum {
        let with = self.0 ^ number;
        let left = with ^ (with << FIRST_SHIFT);
        let right = left ^ (left >> SECOND_SHIFT);
        Sum(right ^ (right << THIRD_SHIFT))
    }

    // The sum with all numbers of a slice: words, ledger numbers or bytes.
    fn with_all<T: Copy + Into<u64>>(self, numbers: &[T]) -> Sum {
        numbers
            .iter()
            .fold(self, |sum, number| sum.with((*number).into()))
    }
}

// The sum of all that a call leaves: the list, the words and the ledger as they were lent.
pub fn left(list: &[u64], words: &[u64], ledger: &[u32]) -> u64 {
    Sum(START).with_all(list).with_all(words).with_all(ledger).0
}

// The sum of the bytes of a page.
pub fn page(page: &[u8]) -> u64 {
    Sum(START).with_all(page).0
}

#[cfg(test)]
mod tests {
    use super::*;

    // The sums are those of another program, by the steps that the head of the stored list says.
    #[test]
    fn sums_by_the_steps_of_the_list(rt: HostRuntime) {
        assert_eq!(rt; page(&[]), 0x9E37_79B9_7F4A_7C15);
        assert_eq!(rt; page(&[1, 2, 3]), 0xC019_C8B2_5290_0F5F);
        assert_eq!(rt;
            left(&[5], &[7, 0xFFFF_FFFF_FFFF_FFFF, 1], &[0xFFFF_FFFF]),
            0xA639_B350_613D_2F4E
        );
    }
}
