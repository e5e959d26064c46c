// All words, or all ledger numbers, made 0.
#![tactic(auto)]

ghost use Rattle.std.specs.Prelude.{◌≡◌, length, replicate};

// A number of the pool: a word, or a ledger number.
pub trait Number: Copy {
    ghost ZERO: { Self };

    const ZERO: Self;

    // A copy is made without fail.
    ghost copies: { (x : Self) → Self.is_infallible x };

    // A copy is the number itself.
    ghost same: { (x y : Self) → Self.is_clone x y → y ≡ x };
}

impl Number for u64 {
    ghost ZERO = { 0 };

    const ZERO: u64 = 0;

    ghost copies = { λ x. tt };

    ghost same = { λ x y copy. copy };
}

impl Number for u32 {
    ghost ZERO = { 0 };

    const ZERO: u32 = 0;

    ghost copies = { λ x. tt };

    ghost same = { λ x y copy. copy };
}

// All numbers 0.
pub fn zero<N: Number>(numbers: &mut [N])
    ensures { numbers.new ≡ replicate (length numbers.old) N.ZERO }
{
    numbers.fill(N::ZERO);
}
