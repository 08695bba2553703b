// The lowest number of a range that passes a test.
#![tactic(auto)]

ghost use Rattle.std.specs.Prelude.{◌≡◌, ◌≤◌, ◌<◌, ℕ, Bool};
ghost use Rattle.laws.specs.Search.{first};
ghost use Rattle.laws.proofs.Search.{Clear};

// The lowest number from `from` on and below `end` that passes the test, or `end` where none does. For any test p of numbers that the
// closure computes, and that fails below `from`, it is the lowest number below `end` that passes p.
// `end`, and not an Option (a): the definitions' `first` is the number of all where none passes, and rules hold it against that number.
pub fn lowest<F: Fn(usize) -> bool>(from: usize, end: usize, test: F) -> usize
    requires { (k : ℕ) → from ≤ k → k < end → F.pre test k }
    ensures { (p : ℕ → Bool) → Clear p from → ((k : ℕ) → (b : Bool) → from ≤ k → k < end → F.post test k b → b ≡ p k)
        → result ≡ first p end }
{
    for k in from..end {
        if test(k) {
            return k;
        }
    }
    end
}
