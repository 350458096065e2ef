//! How paths compare where the case of ASCII letters doesn't count.
ghost use Rattle.std.specs.Prelude.{◌≡◌, ◌++◌};
ghost use Rattle.std.specs.Cmp.Lexicographic.{slice_cmp};
ghost use Rattle.std.specs.Ordering.{nat_cmp};
ghost use Rattle.git_index.specs.Folding.{folded};

use std::cmp::Ordering;

/// How two paths compare by their bytes.
pub fn compare(path: &[u8], other: &[u8]) -> Ordering
    ensures { result ≡ slice_cmp nat_cmp (folded path.now) (folded other.now) }
{
    let most = path.len().min(other.len());
    for place in 0..most {
        let byte = path[place].to_ascii_lowercase();
        let order = byte.cmp(&other[place].to_ascii_lowercase());
        if order.is_ne() {
            return order;
        }
    }
    path.len().cmp(&other.len())
}

/// How a path compares with one that is told in two parts.
pub fn compare_parts(path: &[u8], front: &[u8], end: &[u8]) -> Ordering
    ensures { result ≡ slice_cmp nat_cmp (folded path.now) (folded (front.now ++ end.now)) }
{
    if path.len() < front.len() {
        return compare(path, front);
    }
    let (head, tail) = path.split_at(front.len());
    compare(head, front).then(compare(tail, end))
}
