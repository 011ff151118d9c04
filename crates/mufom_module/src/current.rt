//! The section into which loads put their bytes.

ghost use Rattle.std.specs.Prelude.{◌≡◌};
ghost use Rattle.mufom_module.specs.Contents.{current_after as section_after};

use mufom_loads::Load;

/// The position of the section that is current after a load; `current` is that of the section that is
/// current before it, if there is one. Does not allocate.
pub fn current_after(current: Option<u32>, load: &Load) -> Option<u32>
    ensures { result ≡ section_after current load.now }
{
    match load {
        Load::SetSection(section) => Some(*section),
        Load::SetPc { .. } => current,
        Load::One(_) => current,
        Load::Repeat { .. } => current,
    }
}
