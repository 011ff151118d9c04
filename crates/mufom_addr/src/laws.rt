//! Laws that show what the definitions mean, each the contract of a function that does nothing.

ghost use Rattle.std.specs.Prelude.{◌≡◌, ℕ, List, [], Some, None};
ghost use Rattle.mufom_addr.specs.declared.hit.LineHit.{LineHit};
ghost use Rattle.mufom_addr.specs.AddressHit.{Function, functions_around, innermost, lines_up_to, nearest};
ghost use Rattle.mufom_addr.specs.Entries.{Entry};
ghost use Rattle.mufom_addr.specs.Greatest.{IsFirstGreatest};

/// The function at an address is the first of the deepest functions around it. There is none only if no
/// function is around the address.
pub fn functions_are_innermost()
    ensures found { (address : ℕ) (entries : List Entry) (f : Function) → innermost address entries ≡ Some f
        → IsFirstGreatest (λ g. g.depth) (functions_around address entries) f }
    ensures none { (address : ℕ) (entries : List Entry) → innermost address entries ≡ None → functions_around address entries ≡ [] }
{}

/// The line at an address is the first of the lines at or below it that have the greatest address. There
/// is none only if no line is at or below the address.
pub fn lines_are_nearest()
    ensures found { (address : ℕ) (entries : List Entry) (l : LineHit) → nearest address entries ≡ Some l
        → IsFirstGreatest (λ k. k.address) (lines_up_to address entries) l }
    ensures none { (address : ℕ) (entries : List Entry) → nearest address entries ≡ None → lines_up_to address entries ≡ [] }
{}
