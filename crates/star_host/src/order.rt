//! A loader's order of the roots: each loader begins at another root.

ghost use Rattle.std.specs.Prelude.{◌<◌, ◌≤◌};

/// The index of a loader's first root: loader k of N begins at index k * R / N of R roots.
pub(crate) fn first_place(loader: usize, loaders: usize, count: usize) -> usize
    requires loaders { (1 ≤ loaders) × (loaders ≤ 64) }
    requires count { 1 ≤ count }
    ensures { result < count }
{
    let (k, of, count) = ((loader % loaders) as u128, loaders as u128, count as u128);
    (k * count / of) as usize
}

/// The index of the i-th root in the order of a loader that begins at index `first`.
pub(crate) fn place(first: usize, i: usize, count: usize) -> usize
    requires first { first < count }
    requires i { i < count }
    ensures { result < count }
{
    let after = count - first;
    if i < after { first + i } else { i - after }
}
