//! Memory of a caller, of which parts are taken off the front.
ghost use Rattle.std.specs.Prelude.{◌≡◌, ◌<◌, ◌≤◌, MatchOption, length};
ghost use Rattle.glob_attributes.specs.Places.{AreCut};

use std::mem::take;
use std::slice::from_raw_parts_mut;

/// Takes so many bytes off the front of a memory; `None` where it is too short.
pub(crate) fn take_front<'a>(memory: &mut &'a mut [u8], count: usize) -> Option<&'a mut [u8]>
    ensures { MatchOption result
        ((length memory.old.now < count) × (memory.new ≡ memory.old))
        (λ front. AreCut count memory.old front memory.new) }
{
    if memory.len() < count {
        return None;
    }
    let (front, others) = cut(take(memory), count);
    *memory = others;
    Some(front)
}

/// The first bytes, so many, and the others: `split_at_mut`, whose contract doesn't say where they lie.
fn cut(bytes: &mut [u8], count: usize) -> (&mut [u8], &mut [u8])
    requires { count ≤ length bytes.old }
    ensures { AreCut count bytes.entry result.0 result.1 }
{
    let len = bytes.len();
    let start = bytes.as_mut_ptr();
    // the two lie side by side in the bytes, which nothing else reaches as long as they live
    unsafe {
        (
            from_raw_parts_mut(start, count),
            from_raw_parts_mut(start.add(count), len - count),
        )
    }
}
