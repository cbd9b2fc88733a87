// Elements and parts of a list that may lie past its end.
ghost use Rattle.std.specs.Prelude.{◌≡◌, ◌≤◌, length, take, drop, slice_index_or, slice_set};
ghost use Rattle.std.specs.List.{slice_get};

// What stands at a place, if anything does.
pub fn item<T: Copy>(xs: &[T], at: usize) -> Option<T>
    ensures { result ≡ slice_get xs.now at }
{
    xs.get(at).copied()
}

// What stands at a place, or else the given value.
pub fn item_or<T: Copy>(xs: &[T], at: usize, other: T) -> T
    ensures { result ≡ slice_index_or xs.now at other }
{
    item(xs, at).unwrap_or(other)
}

// An item at a place; nothing past the end. (After `get_mut` the other items are not known.)
pub fn put<T: Copy>(xs: &mut [T], at: usize, item: T)
    ensures { xs.new ≡ slice_set xs.old at item }
{
    if at < xs.len() {
        xs[at] = item;
    }
}

// A part of a list, or what there is of it.
pub fn part<T>(xs: &[T], from: usize, len: usize) -> &[T]
    ensures part { result.now ≡ take len (drop from xs.now) }
    ensures bound { length result.now ≤ len }
{
    let rest = xs.get(from..).unwrap_or(&[]);
    rest.get(..len).unwrap_or(rest)
}
