//! A law about lengths: the contract of a function with an empty body.

ghost use Rattle.std.specs.Prelude.{◌≡◌, List};
ghost use Rattle.mufom_loads.specs.declared.load.Load.{Load};
ghost use Rattle.mufom_loads.specs.Lengths.{lengths_of, lengths_loaded, item_copies};

/// The product that counts the bytes of a repeat is the length of its copies, one after another. So
/// [`loaded_bytes`](crate::loaded_bytes) counts the length of all copies of the items.
pub fn products_count_copies()
    ensures { (loads : List Load) → lengths_of (item_copies loads) ≡ lengths_loaded loads }
{}
