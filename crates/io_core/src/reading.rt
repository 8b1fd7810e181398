//! What gives bytes.
ghost use Rattle.std.specs.Prelude.{◌≡◌, ℕ, ◌-◌, ◌^◌, ◌<◌, ◌≤◌, List, [], length, take, drop, Option, Some, IfSome, IfOk, OnErr};
ghost use Rattle.io_core.specs.Faults.{one_more};

/// A read failed. The source has counted one fault more.
#[derive(Clone, Copy, Debug, PartialEq, Eq)]
pub struct ReadFailed;

/// What gives bytes, in order, as many at a time as it likes.
pub trait Source {
    // The bytes that it has left, where it tells them.
    ghost left: { Self → Option (List ℕ) };

    // How many reads there were of it.
    ghost reads: { Self → ℕ };

    // How many faults it has had.
    ghost faults: { Self → ℕ };

    /// Reads bytes to the front of `into`, and answers how many. 0 bytes into a room that isn't
    /// empty means that no byte is left.
    fn read(&mut self, into: &mut [u8]) -> Result<usize, ReadFailed>
        ensures within { IfOk result (λ n. n ≤ length into.old) }

        // Where it tells its bytes: the first n are given, and the rest is left.
        ensures had { IfOk result (λ n. IfSome (left self.old) (λ bytes. n ≤ length bytes)) }
        ensures gave { IfOk result
            (λ n. IfSome (left self.old) (λ bytes. take n into.new ≡ take n bytes)) }
        ensures rest { IfOk result
            (λ n. IfSome (left self.old) (λ bytes. left self.new ≡ Some (drop n bytes))) }
        ensures end { IfOk result
            (λ n. n ≡ 0 → 0 < length into.old → IfSome (left self.old) (λ bytes. bytes ≡ [])) }

        ensures counted { reads self.new ≡ one_more (reads self.old) }

        // A failure is one fault, and gives no byte; and nothing else is a fault.
        ensures unfailed { IfOk result (λ _. faults self.new ≡ faults self.old) }
        ensures rose { OnErr result (faults self.new ≡ one_more (faults self.old)) }
        ensures err { OnErr result (left self.new ≡ left self.old) }

        ensures never_falls { faults self.old ≤ faults self.new }
        ensures capped { faults self.new ≤ 2 ^ 64 - 1 };
}
