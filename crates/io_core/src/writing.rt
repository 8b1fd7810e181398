//! What takes bytes.
ghost use Rattle.std.specs.Prelude.{◌≡◌, ℕ, ◌+◌, ◌-◌, ◌^◌, ◌<◌, ◌≤◌, List, ◌++◌, length, take, Option, Some, IfSome, IfOk, OnOk, OnErr};
ghost use Rattle.io_core.specs.Faults.{one_more};

/// A write failed. The sink has counted one fault more.
#[derive(Clone, Copy, Debug, PartialEq, Eq)]
pub struct WriteFailed;

/// What takes bytes, in order, as many at a time as it likes.
pub trait Sink {
    // The bytes that it has taken, where it tells them.
    ghost taken: { Self → Option (List ℕ) };

    // How many writes there were of it.
    ghost writes: { Self → ℕ };

    // How many faults it has had.
    ghost faults: { Self → ℕ };

    /// Takes bytes from the front of `piece`, and answers how many: at least one, if there is one.
    fn write(&mut self, piece: &[u8]) -> Result<usize, WriteFailed>
        ensures within { IfOk result (λ n. n ≤ length piece.now) }
        ensures some { IfOk result (λ n. 0 < length piece.now → 0 < n) }

        // Where it tells its bytes: the first n of the piece are taken.
        ensures took { IfOk result
            (λ n. IfSome (taken self.old) (λ bytes. taken self.new ≡ Some (bytes ++ take n piece.now))) }

        ensures counted { writes self.new ≡ one_more (writes self.old) }

        // A failure is one fault, and takes no byte; and nothing else is a fault.
        ensures unfailed { IfOk result (λ _. faults self.new ≡ faults self.old) }
        ensures rose { OnErr result (faults self.new ≡ one_more (faults self.old)) }
        ensures err { OnErr result (taken self.new ≡ taken self.old) }

        ensures never_falls { faults self.old ≤ faults self.new }
        ensures capped { faults self.new ≤ 2 ^ 64 - 1 };
}

/// Writes all of `bytes`, piece by piece. After a failure the sink has taken a front of them, and no write follows one that failed.
#[tactic(auto, using(crate::proofs::Pieces::append_piece))]
pub fn write_all<K: Sink>(sink: &mut K, bytes: &[u8]) -> Result<(), WriteFailed>
    // Where the sink tells its bytes.
    ensures whole { OnOk result
        (IfSome (K.taken sink.old) (λ had. K.taken sink.new ≡ Some (had ++ bytes.now))) }

    // It failed behind k of them. Each write before took a byte at least.
    ensures part { OnErr result ((k : ℕ) × (k < length bytes.now)
        × IfSome (K.taken sink.old) (λ had. K.taken sink.new ≡ Some (had ++ take k bytes.now))
        × (K.writes sink.new ≤ K.writes sink.old + (k + 1))) }

    ensures few_writes { K.writes sink.new ≤ K.writes sink.old + length bytes.now }
    ensures unfailed { OnOk result (K.faults sink.new ≡ K.faults sink.old) }
    ensures rose { OnErr result (K.faults sink.new ≡ one_more (K.faults sink.old)) }
{
    let mut at = 0;
    while at < bytes.len() {
        at += sink.write(&bytes[at..])?;
    }
    Ok(())
}
