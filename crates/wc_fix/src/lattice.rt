ghost use Rattle.std.specs.Prelude.{◌≡◌, ℕ, ◌<◌, ◌^◌, IfOk, false, true};
ghost use Rattle.wc_fix.specs.Orders.{IsLeast, KeepsOrder};

use std::alloc::AllocError;

/// What is known before a fetch. A state is made for a shape, and for lines below a number of them.
pub trait Lattice: Drop {
    ghost State: { Type 0 };

    // What a value stands for.
    ghost state: { Self → State };

    ghost shape: { Self → ℕ };

    ghost lines: { Self → ℕ };

    ghost rank: { Self → ℕ };

    // `precise a b`: `a` is at least as precise as `b`.
    ghost precise: { State → State → Type 0 };

    ghost accessed: { State → ℕ → State };

    /// Goes to the most precise state that is at most as precise as both, and tells whether that changed it.
    fn join(&mut self, other: &Self) -> bool
        requires shape { shape other.now ≡ shape self.old }
        requires lines { lines other.now ≡ lines self.old }
        ensures shape { shape self.new ≡ shape self.old }
        ensures lines { lines self.new ≡ lines self.old }
        ensures above_self { precise (state self.old) (state self.new) }
        ensures above_other { precise (state other.now) (state self.new) }
        ensures least { IsLeast precise (state self.old) (state other.now) (state self.new) }
        ensures unchanged { result ≡ false → self.new ≡ self.old }
        ensures changed { result ≡ true → rank self.new < rank self.old };

    /// Goes to the state after a fetch of a line.
    fn access(&mut self, line: u32)
        requires { line < lines self.old }
        ensures shape { shape self.new ≡ shape self.old }
        ensures lines { lines self.new ≡ lines self.old }
        ensures state { state self.new ≡ accessed (state self.old) line };

    /// A value that stands for the same state.
    fn copy(&self) -> Result<Self, AllocError>
    where
        Self: Sized,
        ensures shape { IfOk result (λ c. shape c ≡ shape self.now) }
        ensures lines { IfOk result (λ c. lines c ≡ lines self.now) }
        ensures state { IfOk result (λ c. state c ≡ state self.now) }
        ensures small { IfOk result (λ c. rank c < 2 ^ 64) };

    /// A number that each change by `join` lowers.
    fn rank(&self) -> u64
        ensures { result ≡ rank self.now };

    ghost precise_refl: { (a : State) → precise a a };

    ghost precise_trans: { (a b c : State) → precise a b → precise b c → precise a c };

    ghost access_keeps: { KeepsOrder precise accessed };
}
