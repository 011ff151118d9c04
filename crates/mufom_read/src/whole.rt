//! Errors of whole parts, which are checked at the end of a part.

ghost use Rattle.std.specs.Prelude.{◌≡◌, List, option_map};
ghost use Rattle.mufom_read.specs.declared.prefix.Prefix.{Prefix};
ghost use Rattle.mufom_judging.specs.Prefixes.{Step};
ghost use Rattle.mufom_read.specs.PrefixOfCode.{IsPrefixOf};
ghost use Rattle.mufom_judging.specs.Faults as faults;
ghost use Rattle.mufom_read.specs.PartsOfCode.{as_part};
ghost use Rattle.mufom_read.specs.Kept.{as_fault};
ghost use Rattle.mufom_read.specs.ContentsSoFar.{AreMarked};

use crate::contents::Contents;
use crate::debug::open_fault;
use crate::part::Part;
use crate::refusal::ReadRefusal;
use crate::tables::Tables;

/// The error of a whole part. If there are several, the one with the smallest offset.
pub(crate) fn whole_fault(part: Part, tables: &Tables, contents: &Contents) -> Option<ReadRefusal>
    requires { AreMarked contents.now }
    ensures { (f : Prefix) (prefix : List Step) → IsPrefixOf f prefix → tables.now ≡ f.tables → contents.now ≡ f.contents
        → option_map as_fault result ≡ faults.whole_fault (as_part part) prefix }
{
    match part {
        Part::Section => contents.sections.fault(),
        Part::External => contents.publics.fault(tables),
        Part::Extension => None,
        Part::Environment => None,
        Part::Debug => open_fault(contents.debug.blocks.as_slice()),
        Part::Data => None,
        Part::Trailer => None,
        Part::End => None,
    }
}
