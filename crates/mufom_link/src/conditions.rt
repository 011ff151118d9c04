//! The conditions that a list of modules and a name must meet to be linked.

ghost use Rattle.std.specs.Prelude.{◌≡◌, ◌+◌, ◌<◌, ◌^◌, ◌↔◌, IsTrue, length};
ghost use Rattle.mufom_meaning.specs.StagingLaws.{total_weight};
ghost use Rattle.mufom_link.specs.Conditions.{MayBeLinked};

use mufom_module::Module;

// The least length, in bytes, at which a name is too long for a string of the format.
const NAME_LIMIT: usize = 65_536;

// The least weight, in bytes, at which a module is too heavy.
const WEIGHT_LIMIT: u64 = 4_294_967_296;

// Whether the weights and the name's length add up to less than the limit.
fn is_light(list: &[Module], name: &[u8]) -> bool
    requires { length name.now < 2 ^ 16 }
    ensures { IsTrue result ↔ (total_weight list.now + length name.now < 2 ^ 32) }
{
    let mut total = name.len() as u64;
    for module in list {
        total += module.weight();
        if total >= WEIGHT_LIMIT {
            return false;
        }
    }
    true
}

/// Whether the list and the name meet the conditions of [`link`](crate::link): the list is not
/// empty, the name has at most 65,535 bytes, and the weights of the modules and the length of the name
/// add up to less than 2^32.
///
/// Does not allocate.
pub fn may_be_linked(list: &[Module], name: &[u8]) -> bool
    ensures { IsTrue result ↔ MayBeLinked list.now name.now }
{
    !list.is_empty() && name.len() < NAME_LIMIT && is_light(list, name)
}
