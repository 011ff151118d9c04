//! Laws about trees, tokens and values. Each law is the contract of a function with an empty body.

ghost use Rattle.std.specs.Prelude.{◌≡◌, ◌↔◌, ◌⊎◌, ◌<◌, ◌≤◌, ◌^◌};
ghost use Rattle.std.specs.Prelude.{ℕ, List, [], ◌∷◌, ◌++◌, Some, None, IfSome, IsTrue};
ghost use Rattle.mufom_expr.specs.declared.token.Letter.{Letter};
ghost use Rattle.mufom_expr.specs.declared.token.Token.{Token};
ghost use Rattle.mufom_expr.specs.Tree.{Tree, tokens_of};
ghost use Rattle.mufom_expr.specs.Terms.{the_term, leaves, FindsTooFew};
ghost use Rattle.mufom_expr.specs.Value.{Environment, value_at, with_variables, LacksAValue, divides_by_zero, value_through};
ghost use Rattle.mufom_expr.specs.Spelled.{SpellsToken, SpellsTree};

/// The tokens of a tree form one expression, and the tree can be rebuilt from them.
pub fn tokens_give_the_tree_back()
    ensures back { (t : Tree) → the_term (tokens_of t) ≡ t }
    ensures one { (t : Tree) → leaves (tokens_of t) ≡ Some 1 }
    // Each token finds its operands among the terms that the tokens before it leave.
    ensures enough { (t : Tree) (prefix rest : List Token) (token : Token)
        → tokens_of t ≡ prefix ++ token ∷ rest → FindsTooFew prefix token → ⊥ }
    // Tokens that leave one term are the tokens of a tree.
    ensures tree { (tokens : List Token) → leaves tokens ≡ Some 1 → tokens_of (the_term tokens) ≡ tokens }
{}

/// No spelling of a token is a proper prefix of another one, and bytes spell at most one tree.
pub fn spellings_give_one_tree()
    ensures token { (s t : Token) (text rest : List ℕ) → SpellsToken s text → SpellsToken t (text ++ rest) → (s ≡ t) × (rest ≡ []) }
    ensures tree { (s t : Tree) (bytes : List ℕ) → SpellsTree s bytes → SpellsTree t bytes → s ≡ t }
{}

/// The value of a renamed expression is the value of the expression in the environment that looks up the
/// new variables.
pub fn renaming_composes_with_value()
    ensures { (m : ℕ) (env : Environment) (rename : Letter → ℕ → Letter × ℕ) (t : Tree)
        → value_at m env (with_variables rename t) ≡ value_at m (value_through rename env) t }
{}

/// A value is a residue. A tree has no value if and only if one of its variables has none or a divisor is 0.
pub fn values_are_residues()
    ensures residue { (w : ℕ) (env : Environment) (t : Tree) → 1 ≤ w → IfSome (value_at (2 ^ w) env t) (λ v. v < 2 ^ w) }
    ensures none { (m : ℕ) (env : Environment) (t : Tree)
        → (value_at m env t ≡ None) ↔ (LacksAValue env t ⊎ IsTrue (divides_by_zero (value_at m env) t)) }
{}
