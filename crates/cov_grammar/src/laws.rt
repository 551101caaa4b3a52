//! What holds of the grammar itself. Each function does nothing: it stands for the law that it ensures.
ghost use Rattle.std.specs.Prelude.{◌≡◌, ℕ, ◌≤◌, List, length};
ghost use Rattle.cov_tree.specs.declared.declarations.Decl.{Decl};
ghost use Rattle.cov_grammar.specs.declared.marked.Marked.{Marked};
ghost use Rattle.cov_grammar.specs.declared.place.Room.{Room};
ghost use Rattle.cov_grammar.specs.Fault.{DerivesWithin, Derives, IsViableWithin, IsSyntaxFault, IsTooDeepAt};

/// A list of tokens has one tree at most: two derivations of it, in any rooms, give the same declarations.
pub fn tokens_have_one_tree()
    ensures { (text : List ℕ) (tokens : List Marked) (first second : List Decl) →
        Derives text tokens first → Derives text tokens second → first ≡ second }
{}

/// What is derived with some room is derived with more.
pub fn more_room_keeps_the_tree()
    ensures { (text : List ℕ) (tokens : List Marked) (decls : List Decl) (less more : Room) →
        less.levels ≤ more.levels → less.operators ≤ more.operators →
        DerivesWithin less text tokens decls → DerivesWithin more text tokens decls }
{}

/// Where first tokens begin a design, so do fewer of them, none at all, and all those of a design.
pub fn first_tokens_begin_alike()
    ensures shorter { (text : List ℕ) (tokens : List Marked) (room : Room) (fewer count : ℕ) →
        fewer ≤ count → IsViableWithin room text tokens count →
        IsViableWithin room text tokens fewer }
    ensures none { (text : List ℕ) (tokens : List Marked) (room : Room) →
        IsViableWithin room text tokens 0 }
    ensures whole { (text : List ℕ) (tokens : List Marked) (room : Room) (decls : List Decl) →
        DerivesWithin room text tokens decls → IsViableWithin room text tokens (length tokens) }
{}

/// Tokens have one fault at most, and those of a design none.
pub fn tokens_have_one_fault()
    ensures syntax { (text : List ℕ) (tokens : List Marked) (room : Room) (first second : ℕ) →
        IsSyntaxFault room text tokens first → IsSyntaxFault room text tokens second → first
        ≡ second }
    ensures depth { (text : List ℕ) (tokens : List Marked) (room : Room) (first second : ℕ) →
        IsTooDeepAt room text tokens first → IsTooDeepAt room text tokens second → first ≡ second }
    ensures one { (text : List ℕ) (tokens : List Marked) (room : Room) (first second : ℕ) →
        IsSyntaxFault room text tokens first → IsTooDeepAt room text tokens second → ⊥ }
    ensures design { (text : List ℕ) (tokens : List Marked) (room : Room) (first : ℕ)
        (decls : List Decl) → IsTooDeepAt room text tokens first →
        DerivesWithin room text tokens decls → ⊥ }
{}
