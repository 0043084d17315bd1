//! Items by their numbers.

ghost use Rattle.std.specs.Prelude.{◌≡◌, Some, None, slice_get, MatchOption};

/// The item of this number.
pub(crate) fn item_at<T>(items: &[T], n: usize) -> Option<&T>
    ensures { MatchOption result (slice_get items.now n ≡ None) (λ item. slice_get items.now n ≡ Some item.now) }
{
    match items.get(n) {
        Some(item) => Some(item),
        None => None,
    }
}
