ghost use Rattle.std.specs.Prelude.{◌≡◌, ◌≤◌, length, take, drop};

/// The first `at` items.
pub fn front<T>(items: &[T], at: usize) -> &[T]
    requires { at ≤ length items.now }
    ensures { result.now ≡ take at items.now }
{
    &items[..at]
}

/// The items from `at` on.
pub fn behind<T>(items: &[T], at: usize) -> &[T]
    requires { at ≤ length items.now }
    ensures { result.now ≡ drop at items.now }
{
    &items[at..]
}
