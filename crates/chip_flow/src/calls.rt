//! Call strings behind instructions.

ghost use Rattle.std.specs.Prelude.{◌≡◌};
ghost use Rattle.chip_flow.specs.Works as the_works;

use crate::flow::Flow;
use call_context::Calls;

/// What an instruction does to the call string.
#[derive(Clone, Copy, Debug, PartialEq, Eq)]
pub enum CallEffect {
    /// A call adds its site.
    Pushes,
    /// A return drops the last site, where it goes to behind that call.
    Pops,
    Keeps,
}

/// The address behind the instruction of the last site, where one stands there.
pub(crate) fn last_end<F: Flow>(flow: &F, calls: &Calls) -> Option<u16>
    ensures { result ≡ the_works.last_end (F.flow flow.now) calls.now }
{
    let sites = calls.as_slice();
    if sites.len() == 0 {
        return None;
    }
    let site = sites[sites.len() - 1];
    match flow.fetch(site) {
        Some(instr) => {
            let bytes = flow.bytes(&instr);
            Some(site.wrapping_add(bytes.as_slice().len() as u16))
        }
        None => None,
    }
}
