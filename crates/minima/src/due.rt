//! A moment, and the router that is due then.

ghost use Rattle.std.specs.Prelude.{◌≡◌};
ghost use Rattle.minima.specs.Trees.{is_sooner, lesser, pair_of};

/// A router, and the moment at which it is due.
#[derive(Clone, Copy)]
pub struct Due {
    pub moment: u64,
    pub router: u16,
}

// Whether one is before the other: sooner, or at the same moment with a lower number.
fn is_before(a: Due, b: Due) -> bool
    ensures { result ≡ is_sooner a b }
{
    a.moment < b.moment || (a.moment == b.moment && a.router < b.router)
}

/// The one of two that is before the other, or the only one that is there.
pub fn lesser(a: Option<Due>, b: Option<Due>) -> Option<Due>
    ensures { result ≡ lesser a b }
{
    match (a, b) {
        (Some(first), Some(second)) if is_before(second, first) => b,
        (None, _) => b,
        _ => a,
    }
}

/// The pair of a router that is due at a moment, if it is.
pub fn pair_of(router: u16, moment: Option<u64>) -> Option<Due>
    ensures { result ≡ pair_of router moment }
{
    match moment {
        Some(moment) => Some(Due { moment, router }),
        None => None,
    }
}
