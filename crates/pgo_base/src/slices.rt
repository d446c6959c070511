// Parts of slices.
ghost use Rattle.std.specs.Prelude.{◌≡◌, take};

/// The first of these, at most so many.
pub fn first<T>(list: &[T], count: usize) -> &[T]
    ensures { result.now ≡ take count list.now }
{
    if count < list.len() {
        &list[..count]
    } else {
        list
    }
}
