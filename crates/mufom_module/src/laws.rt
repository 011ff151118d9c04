//! Laws about modules and their files. Each law is the contract of a function that does nothing.

ghost use Rattle.std.specs.Prelude.{◌≡◌, ◌≤◌, ℕ, Bool, List, true};
ghost use Rattle.mufom_expr.specs.Tree.{Tree};
ghost use Rattle.mufom_expr.specs.Terms.{the_term};
ghost use Rattle.mufom_expr.specs.TokenAt.{tokens_in};
ghost use Rattle.mufom_expr.specs.Spelled.{SpellsTree, Indexes, IsIndexed};
ghost use Rattle.mufom_module.specs.declared.module.Parts.{Parts};
ghost use Rattle.mufom_module.specs.SpelledRecords.{positioned, are_listed};
ghost use Rattle.mufom_module.specs.Grammar.{SpellsModule};
ghost use Rattle.mufom_loads.specs.Lengths.{lengths_once};
ghost use Rattle.mufom_module.specs.Defects.{IsValid};
ghost use Rattle.mufom_module.specs.Made.{IsMade};
ghost use Rattle.mufom_module.specs.Written.{weight};
ghost use Rattle.mufom_records.specs.declared.options.ReadOptions.{ReadOptions};

use crate::module::Module;

/// The expression of a record is the tree that its bytes spell.
pub fn expressions_are_as_spelled()
    ensures { (tree : Tree) (bytes : List ℕ) → SpellsTree tree bytes → the_term (tokens_in bytes) ≡ tree }
{}

/// Each position in a module corresponds to the index that the file has in its place.
pub fn positions_stand_for_indexes()
    ensures { (ix : Indexes) (tree : Tree) → are_listed ix tree ≡ true → IsIndexed ix (positioned ix tree) tree }
{}

/// A file is the file of one module: no other module has the same file.
pub fn a_file_is_one_module()
    ensures { (m n : Parts) (bytes : List ℕ) (options : ReadOptions) → SpellsModule m bytes options → SpellsModule n bytes options → m ≡ n }
{}

/// A module has no defect and is within the bounds of its types. The type guarantees this, but a proof
/// knows it of a value only after a call that states it.
pub fn a_module_is_valid(module: &Module)
    ensures valid { IsValid «module».now }
    ensures made { IsMade «module».now }
{
    let _parts = module.parts();
}

/// The number of bytes that a module loads, with the items of each repeat counted once, is at most its
/// weight. So [`loaded_bytes`](mufom_loads::loaded_bytes) may be called with the loads of any module.
pub fn items_are_within_the_weight()
    ensures { (m : Parts) → IsValid m → lengths_once m.loads ≤ weight m }
{}
