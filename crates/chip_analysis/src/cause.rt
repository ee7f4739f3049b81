//! Why a site is left open.

use value_set::Vs16;

/// Why a site is left open.
#[derive(Clone, Copy, Debug, PartialEq, Eq, Hash)]
pub enum Cause {
    /// No instruction stands there.
    Fetch,
    /// A jump, call or return whose target set has more values than the limit.
    Targets(Vs16),
    /// A store whose set of addresses has one of the image.
    Store(Vs16),
}
