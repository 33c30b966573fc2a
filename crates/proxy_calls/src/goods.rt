//! The goods that came out of the desk, or come back from it.
ghost use Rattle.std.specs.Prelude.{◌≡◌};
ghost use Rattle.proxy_calls.specs.Goods.{child_good, line_child, place_good};

use core_machine::Good;

/// Returns the child that came out.
pub(crate) fn child_in<K: Drop, T: Drop, P: Drop>(good: Option<Good<K, T, P>>) -> Option<K>
    ensures { result ≡ child_good good }
{
    match good {
        Some(Good::Line(_child, _tap)) => None,
        Some(Good::Child(child)) => Some(child),
        Some(Good::Tap(_tap)) => None,
        Some(Good::Place(_place)) => None,
        None => None,
    }
}

/// Returns the child of the line that comes back.
pub(crate) fn child_back<K: Drop, T: Drop, P: Drop>(good: Option<Good<K, T, P>>) -> Option<K>
    ensures { result ≡ line_child good }
{
    match good {
        Some(Good::Line(child, _tap)) => Some(child),
        Some(Good::Child(_child)) => None,
        Some(Good::Tap(_tap)) => None,
        Some(Good::Place(_place)) => None,
        None => None,
    }
}

/// Returns the place that came out.
pub(crate) fn place_in<K: Drop, T: Drop, P: Drop>(good: Option<Good<K, T, P>>) -> Option<P>
    ensures { result ≡ place_good good }
{
    match good {
        Some(Good::Line(_child, _tap)) => None,
        Some(Good::Child(_child)) => None,
        Some(Good::Tap(_tap)) => None,
        Some(Good::Place(place)) => Some(place),
        None => None,
    }
}
