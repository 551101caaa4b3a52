//! What holds of first tokens that begin a design. Each function does nothing: it stands for the law that it ensures.
ghost use Rattle.std.specs.Prelude.{◌≡◌, ℕ, ◌+◌, ◌<◌, ◌≤◌, List, Bool, true, length, take, slice_get, Some, IsSome, ◌⊎◌};
ghost use Rattle.cov_tree.specs.declared.expr.Expr.{Expr};
ghost use Rattle.cov_tree.specs.declared.bins.Step.{Step};
ghost use Rattle.cov_tree.specs.declared.bins.BinsDecl.{BinsDecl};
ghost use Rattle.cov_tree.specs.declared.groups.Formal.{Formal};
ghost use Rattle.cov_tree.specs.declared.groups.Member.{Member};
ghost use Rattle.cov_lexer.specs.declared.token.Token.{Token};
ghost use Rattle.cov_lexer.specs.declared.token.TokenKind.TheVariants.{Keyword, Decimal, Based, Operator, NotSupported};
ghost use Rattle.cov_lexer.specs.Lexes.{Lexes};
ghost use Rattle.cov_lexer.specs.declared.bytes.Base.{Base};
ghost use Rattle.cov_lexer.specs.declared.bytes.Base.TheVariants.{Decimal as Ten};
ghost use Rattle.cov_lexer.specs.Literals.{literal_of, decimal_literal, value_of, meaning, HasParts, IsBased};
ghost use Rattle.cov_lexer.specs.Spellings.{words, operators, kind_among};
ghost use Rattle.cov_lexer.specs.Operators.{sort_of};
ghost use Rattle.cov_lexer.specs.declared.kind.Kind.{Kind};
ghost use Rattle.cov_lexer.specs.declared.kind.Kind.TheVariants.{OpenIndex, OpenSquare};
ghost use Rattle.cov_grammar.specs.declared.marked.Marked.{Marked};
ghost use Rattle.cov_grammar.specs.declared.place.Place.{Place};
ghost use Rattle.cov_grammar.specs.declared.place.Room.{Room};
ghost use Rattle.cov_grammar.specs.declared.place.Standing.{Standing};
ghost use Rattle.cov_grammar.specs.declared.place.Standing.TheVariants.{StepEnd};
ghost use Rattle.cov_lexer.specs.Kinds.{has};
ghost use Rattle.cov_grammar.specs.Operators.{unary_kinds, unary_of, level_kinds, binary_of};
ghost use Rattle.cov_grammar.specs.Bins.{bins_words, bins_word_of, times_of, repetition, step, bins};
ghost use Rattle.cov_grammar.specs.Designs.{fixed_words, width_of, edge_kind, Written, formal, argument};
ghost use Rattle.cov_grammar.specs.Groups.{item};
ghost use Rattle.cov_grammar.specs.Expressions.{literal_or, part_expr, index_in, inner_at};
ghost use Rattle.cov_grammar.specs.Marking.{marked};
ghost use Rattle.cov_grammar.specs.Fault.{IsViableWithin, IsSyntaxFault};
ghost use Rattle.grammar_laws.specs.Continuations.{AreAlike, LieIn, GoesOn};
ghost use Rattle.grammar_laws.specs.Tokens.{word_of, AreSpelledAlike, EndsAlone, GoOnAlike, StandIn, LeadsOn};
ghost use Rattle.grammar_laws.specs.Tables.{unary_at, binary_at, times_at, bins_word_at, width_at, edge_at, repetition_kinds, edge_kinds};

/// First tokens are viable, within some limits, exactly where more tokens can stand behind them that make them a design
/// within these limits.
pub fn viable_tokens_go_on()
    ensures more { (text : List ℕ) (tokens : List Marked) (room : Room) (count : ℕ) →
        LieIn text (take count tokens) → IsViableWithin room text tokens count →
        GoesOn room text tokens count }
    ensures back { (text : List ℕ) (tokens : List Marked) (room : Room) (count : ℕ) →
        count ≤ length tokens →
        LieIn text (take count tokens) → GoesOn room text tokens count →
        IsViableWithin room text tokens count }
{}

/// Whether first tokens are viable is fixed by their kinds and spellings.
pub fn kinds_and_spellings_decide()
    ensures { (first second : List ℕ) (before after : List Marked) (room : Room) (count : ℕ) →
        AreAlike count first before second after → IsViableWithin room first before count →
        IsViableWithin room second after count }
{}

/// Where the first tokens of a text are viable, as they are marked there, more text and tokens can stand behind them with
/// which they are a design, as they are marked in the longer text; where the last of them is no `[` behind a name, only
/// there; and fewer of those that lead on are viable, whatever they end in.
pub fn text_leads_on()
    ensures more { (text : List ℕ) (tokens : List Token) (room : Room) (count : ℕ) →
        StandIn count text tokens →
        IsViableWithin room text (marked text tokens) count → LeadsOn room text tokens count }
    ensures back { (text : List ℕ) (tokens : List Token) (room : Room) (count : ℕ) →
        count ≤ length tokens →
        StandIn count text tokens → EndsAlone count text tokens → LeadsOn room text tokens count →
        IsViableWithin room text (marked text tokens) count }
    ensures fewer { (text : List ℕ) (tokens : List Token) (room : Room) (fewer count : ℕ) →
        fewer < count →
        count ≤ length tokens → StandIn count text tokens → LeadsOn room text tokens count →
        IsViableWithin room text (marked text tokens) fewer }
{}

/// Where a text has its fault of syntax: the tokens before that place lead on to a design within the limits. With the token
/// there no tokens go on, in any room, from the tokens as they are marked, and, where it is no `[` behind a name, none at
/// all; and with the token there and the next none at all.
pub fn syntax_fault_is_first()
    ensures before { (text : List ℕ) (tokens : List Token) (room : Room) (place : ℕ) →
        Lexes text tokens →
        IsSyntaxFault room text (marked text tokens) place → (count : ℕ) → count ≤ place →
        LeadsOn room text tokens count }
    ensures marked { (text : List ℕ) (tokens : List Token) (room : Room) (place : ℕ) →
        Lexes text tokens →
        IsSyntaxFault room text (marked text tokens) place → (other : Room) (count : ℕ) →
        place < count →
        count ≤ length tokens → GoesOn other text (marked text tokens) count → ⊥ }
    ensures token { (text : List ℕ) (tokens : List Token) (room : Room) (place : ℕ) →
        Lexes text tokens →
        IsSyntaxFault room text (marked text tokens) place → (other : Room) →
        place + 1 ≤ length tokens →
        EndsAlone (place + 1) text tokens → LeadsOn other text tokens (place + 1) → ⊥ }
    ensures next { (text : List ℕ) (tokens : List Token) (room : Room) (place : ℕ) →
        Lexes text tokens →
        IsSyntaxFault room text (marked text tokens) place → (other : Room) (count : ℕ) →
        place + 1 < count →
        count ≤ length tokens → LeadsOn other text tokens count → ⊥ }
{}

/// Whether the first tokens of a text are viable, as they are marked there, is fixed by their kinds and spellings, and,
/// where the last of them is a `[` behind a name, by whether what stands behind it can begin an expression.
pub fn first_tokens_decide()
    ensures alone { (first second : List ℕ) (before after : List Token) (room : Room) (count : ℕ) →
        AreSpelledAlike count first before second after → EndsAlone count first before →
        IsViableWithin room first (marked first before) count →
        IsViableWithin room second (marked second after) count }
    ensures next { (first second : List ℕ) (before after : List Token) (room : Room) (count : ℕ) →
        AreSpelledAlike count first before second after →
        GoOnAlike count first before second after →
        IsViableWithin room first (marked first before) count →
        IsViableWithin room second (marked second after) count }
{}

/// The kinds of the lists that rules read by (operators, repetitions, the words of bins, of types of one width, and of
/// edges) have the meaning of a table that gives none to any other kind: what the grammar says of others is never asked.
pub fn kinds_have_meanings()
    ensures unary { (kind : Kind) → has kind unary_kinds ≡ true → unary_at kind ≡ Some
        (unary_of kind) }
    ensures binary { (level : ℕ) (kind : Kind) → has kind (level_kinds level) ≡ true →
        binary_at kind ≡ Some (binary_of kind) }
    ensures times { (kind : Kind) (low high : Expr) → has kind repetition_kinds ≡ true →
        times_at kind low high ≡ Some (times_of kind low high) }
    ensures bins { (kind : Kind) → has kind bins_words ≡ true → bins_word_at kind ≡ Some
        (bins_word_of kind) }
    ensures width { (kind : Kind) → has kind fixed_words ≡ true → width_at kind ≡ Some
        (width_of kind) }
    ensures edge { (kind : Kind) → has kind edge_kinds ≡ true → edge_at kind ≡ Some
        (edge_kind kind) }
{}

/// Each literal among the tokens of a text has a meaning, and no other is made up for it.
pub fn literals_have_meanings()
    ensures { (text : List ℕ) (tokens : List Token) → Lexes text tokens →
        (place : ℕ) (token : Token) →
        slice_get tokens place ≡ Some token → (token.kind ≡ Decimal) ⊎ (token.kind ≡ Based) →
        literal_of (word_of text token) ≡ Some (literal_or (literal_of (word_of text token))) }
{}

/// Each literal among the tokens of a text means what its parts do. A decimal one is its number. A based one has a size or
/// none, a sign or none, a base and digits, by the forms of the lexer, and its meaning is a function of these four.
pub fn literals_mean_their_parts()
    ensures decimal { (text : List ℕ) (tokens : List Token) → Lexes text tokens →
        (place : ℕ) (token : Token) →
        slice_get tokens place ≡ Some token → token.kind ≡ Decimal →
        literal_of (word_of text token) ≡ decimal_literal (value_of Ten (word_of text token)) }
    ensures parts { (text : List ℕ) (tokens : List Token) → Lexes text tokens →
        (place : ℕ) (token : Token) →
        slice_get tokens place ≡ Some token → token.kind ≡ Based → HasParts (word_of text token) }
    ensures based { (text : List ℕ) (token : Token) →
        (size : List ℕ) (signed : Bool) (base : Base) (digits : List ℕ) →
        IsBased (word_of text token) size signed base digits →
        literal_of (word_of text token) ≡ meaning size signed base digits }
{}

/// Each keyword and each operator among the tokens of a text has an entry in the table of spellings, with the kind that the
/// token keeps: what the table says of a text without an entry is never asked. The sort of an operator's kind is the token's.
pub fn words_have_entries()
    ensures keyword { (text : List ℕ) (tokens : List Token) → Lexes text tokens →
        (place : ℕ) (token : Token) →
        slice_get tokens place ≡ Some token → token.kind ≡ Keyword →
        kind_among (word_of text token) words ≡ Some token.spelled }
    ensures operator { (text : List ℕ) (tokens : List Token) → Lexes text tokens →
        (place : ℕ) (token : Token) →
        slice_get tokens place ≡ Some token →
        (token.kind ≡ Operator) ⊎ (token.kind ≡ NotSupported) →
        kind_among (word_of text token) operators ≡ Some token.spelled }
    ensures sort { (text : List ℕ) (tokens : List Token) → Lexes text tokens →
        (place : ℕ) (token : Token) →
        slice_get tokens place ≡ Some token →
        (token.kind ≡ Operator) ⊎ (token.kind ≡ NotSupported) →
        sort_of token.spelled ≡ token.kind }
{}

/// The rules whose trees say where they begin (`here`) have a token there: the byte behind the last token, where `offset`
/// has nothing to say, is told of no tree.
pub fn trees_begin_at_tokens()
    ensures expr { (text : List ℕ) (tokens : List Marked) (room : Room) (place behind : Place)
        (standing : Standing) (tree : Expr) →
        (part_expr text tokens standing room).derives place tree behind →
        IsSome (slice_get tokens place.at) }
    ensures step { (text : List ℕ) (tokens : List Marked) (room : Room) (place behind : Place)
        (tree : Step) →
        (step text tokens room).derives place tree behind → IsSome (slice_get tokens place.at) }
    ensures bins { (text : List ℕ) (tokens : List Marked) (room : Room) (place behind : Place)
        (tree : BinsDecl) →
        (bins text tokens room).derives place tree behind → IsSome (slice_get tokens place.at) }
    ensures item { (text : List ℕ) (tokens : List Marked) (room : Room) (place behind : Place)
        (tree : Member) →
        (item text tokens room).derives place tree behind → IsSome (slice_get tokens place.at) }
    ensures formal { (text : List ℕ) (tokens : List Marked) (room : Room) (place behind : Place)
        (tree : Written) →
        (formal text tokens room).derives place tree behind → IsSome (slice_get tokens place.at) }
    ensures argument { (text : List ℕ) (tokens : List Marked) (room : Room)
        (place behind : Place) (tree : Formal) →
        (argument text tokens room).derives place tree behind → IsSome (slice_get tokens place.at) }
{}

/// Why the mark of a `[` counts: behind the last operand of a step one that opens an index begins no repetition, and every
/// other one begins a repetition, in any room, and no index. Where no level is left no index begins.
pub fn marks_tell_repetitions()
    ensures index { (text : List ℕ) (tokens : List Marked) (room : Room) (place : Place)
        (token : Marked) →
        slice_get tokens place.at ≡ Some token → token.kind ≡ OpenIndex →
        (count : ℕ) → (repetition text tokens room).begins place count → count ≡ place.at }
    ensures other { (text : List ℕ) (tokens : List Marked) (room : Room) (place : Place)
        (token : Marked) →
        slice_get tokens place.at ≡ Some token → token.kind ≡ OpenSquare →
        (repetition text tokens room).begins place (place.at + 1) }
    ensures no_index { (text : List ℕ) (tokens : List Marked) (room : Room) (place : Place)
        (token : Marked) →
        slice_get tokens place.at ≡ Some token → token.kind ≡ OpenSquare → (count : ℕ) →
        (index_in text tokens StepEnd (inner_at text tokens room.operators StepEnd
        room.levels)).begins place count →
        count ≡ place.at }
    ensures no_level { (text : List ℕ) (tokens : List Marked) (limit : ℕ) (place : Place)
        (count : ℕ) →
        (index_in text tokens StepEnd (inner_at text tokens limit StepEnd 0)).begins place count
        → count ≡ place.at }
{}
