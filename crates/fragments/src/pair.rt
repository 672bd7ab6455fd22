// What two fragments have to do with each other.
ghost use Rattle.std.specs.Prelude.{min, max, ◌≡◌};
ghost use Rattle.fragments.specs.Order as Order;
ghost use Rattle.fragments.specs.Shared as Shared;

use crate::{Fragment, stop};

// Whether f begins where g ends or later and has a byte, and g has no marker.
#[tactic(auto, unfolding(crate::specs::Order::follows))]
pub(crate) fn follows(g: Fragment, f: Fragment) -> bool
    ensures { result ≡ Order.follows g f }
{
    stop(g) <= f.offset as u64 && 1 <= f.length && g.marker == 0
}

// Whether they have a byte in common.
#[tactic(auto, unfolding(crate::specs::Shared::share))]
pub(crate) fn share(f: Fragment, g: Fragment) -> bool
    ensures { result ≡ Shared.share f g }
{
    let from = f.offset.max(g.offset);
    let to = stop(f).min(stop(g));
    (from as u64) < to
}
