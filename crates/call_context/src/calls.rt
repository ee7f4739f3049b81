//! Calls and returns on call strings.

ghost use Rattle.std.specs.Prelude.{◌≡◌, ◌≤◌};
ghost use Rattle.call_context.specs.Calls.{pushed, popped};

use crate::node::Calls;

/// The call string behind a call at a site, of which the last `k` are kept.
pub fn push_call(calls: &Calls, site: u16, k: u8) -> Calls
    requires { k ≤ 8 }
    ensures { result ≡ pushed calls.now site k }
{
    if k == 0 {
        return Calls::new();
    }
    let sites = calls.as_slice();
    let oldest = sites.len().saturating_sub(k as usize - 1);
    let mut all = Calls::from_slice(&sites[oldest..]);
    all.push(site);
    all
}

/// The call string behind a return to a target. The last site is dropped where its instruction ends at the target; its
/// end is told by the caller, where there is a last site and an instruction stands there.
pub fn pop_call(calls: &Calls, site_end: Option<u16>, target: u16) -> Calls
    ensures { result ≡ popped calls.now site_end target }
{
    match site_end {
        Some(end) if end == target => {
            let sites = calls.as_slice();
            Calls::from_slice(&sites[..sites.len().saturating_sub(1)])
        }
        _ => *calls,
    }
}
