//! One memory, asked and told as the letter of its row says: B or S. D asks and tells the memory itself.
ghost use Rattle.std.specs.Prelude.{◌≡◌, false, not, ◌&&◌, if◌then◌else◌};
ghost use Rattle.mitl.specs.Memory.{cleared, took, ahead, Lasts};

use crate::lasting::turned;
use window::WindowMemory;

// B runs on by the opposite of the left reading, turned round. The reply is the pair that a memory's `run` answers.
#[tactic(auto, using(crate::proofs::Lengths::lasts_turned))]
pub(crate) fn run_always<M: WindowMemory>(memory: &M, left: bool) -> (bool, Option<u32>)
    ensures { Lasts (λ d. not (ahead (M.meaning memory.now).a (not left) (M.meaning memory.now).mark d)) result.0 result.1 }
{
    turned(memory.run(!left))
}

// S runs on by the right reading; where the left is no its verdict is no for ever. The reply is the pair that a
// memory's `run` answers.
pub(crate) fn run_since<M: WindowMemory>(memory: &M, left: bool, right: bool) -> (bool, Option<u32>)
    ensures { Lasts (λ d. left && ahead (M.meaning memory.now).a right (M.meaning memory.now).mark d) result.0 result.1 }
{
    if left {
        memory.run(right)
    } else {
        (false, None)
    }
}

// B takes the opposite of the left reading.
pub(crate) fn take_always<M: WindowMemory>(memory: &mut M, left: bool, n: u32)
    ensures { M.meaning memory.new ≡ took (not left) n (M.meaning memory.old) }
{
    memory.take(!left, n);
}

// S takes the right reading; where the left is no it is cleared and takes nothing.
pub(crate) fn take_since<M: WindowMemory>(memory: &mut M, left: bool, right: bool, n: u32)
    ensures { M.meaning memory.new ≡ (if left then took right n (M.meaning memory.old) else cleared (M.meaning memory.old)) }
{
    if left {
        memory.take(right, n);
    } else {
        memory.clear();
    }
}
