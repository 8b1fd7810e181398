//! All that a source gives, of which the text of a trace and that of a history are parts.

ghost use Rattle.std.specs.Prelude.{◌≡◌, ◌+◌, ◌<◌, ◌≤◌, [], length, Some, IfSome, IfOk, IsErrOf};
ghost use Rattle.io_core.specs.Faults.{one_more};

use io_core::Source;
use std::alloc::Global;
use trace_reader::{AllFault, read_within};

/// The most bytes that a trace's text and a history's have in all.
pub const MAX_BYTES: usize = 67_108_864;

/// All that the source has left, read to its end.
///
/// More bytes than `MAX_BYTES` are refused as soon as they come, so at most `MAX_BYTES + 1` reads are made. Memory is taken as the bytes come.
/// After an `Err` it is open how much of the source was read.
pub fn read_all<T: Source>(alloc: Global, source: &mut T) -> Result<Vec<u8>, AllFault>
    ensures ok { IfOk result (λ text. IfSome (T.left source.old)
        (λ bytes. (bytes ≡ text.items) × (T.left source.new ≡ Some []))) }
    ensures within { IfOk result (λ text. length text.items ≤ MAX_BYTES) }
    ensures too_long { IsErrOf result AllFault.TooLong → IfSome (T.left source.old) (λ bytes. MAX_BYTES < length bytes) }
    ensures fault { IsErrOf result AllFault.ReadFault → T.faults source.new ≡ one_more (T.faults source.old) }
    ensures no_other_fault { (IsErrOf result AllFault.ReadFault → ⊥) → T.faults source.new ≡ T.faults source.old }
    ensures few_reads { T.reads source.new ≤ T.reads source.old + MAX_BYTES + 1 }
{
    read_within(alloc, source, MAX_BYTES)
}
