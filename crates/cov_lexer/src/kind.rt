//! The kinds of tokens, as a grammar tells them apart.
ghost use Rattle.std.specs.Prelude.{◌≡◌};

/// What a token is to the grammar.
#[derive(Clone, Copy, PartialEq, Eq)]
pub enum Kind {
    /// A name.
    Ident,
    /// A decimal or based literal.
    Numeral,
    /// A text in quotes.
    Quoted,
    /// A system name.
    System,
    /// An operator that is not supported.
    NotSupported,
    /// A keyword that the grammar has no use for.
    OtherWord,
    /// `typedef`
    TypedefWord,
    /// `enum`
    EnumWord,
    /// `bit`
    BitWord,
    /// `logic`
    LogicWord,
    /// `reg`
    RegWord,
    /// `byte`
    ByteWord,
    /// `shortint`
    ShortintWord,
    /// `int`
    IntWord,
    /// `longint`
    LongintWord,
    /// `integer`
    IntegerWord,
    /// `signed`
    SignedWord,
    /// `unsigned`
    UnsignedWord,
    /// `covergroup`
    CovergroupWord,
    /// `endgroup`
    EndgroupWord,
    /// `coverpoint`
    CoverpointWord,
    /// `cross`
    CrossWord,
    /// `bins`
    BinsWord,
    /// `illegal_bins`
    IllegalBinsWord,
    /// `ignore_bins`
    IgnoreBinsWord,
    /// `wildcard`
    WildcardWord,
    /// `iff`
    IffWord,
    /// `default`
    DefaultWord,
    /// `sequence`
    SequenceWord,
    /// `binsof`
    BinsofWord,
    /// `intersect`
    IntersectWord,
    /// `with`
    WithWord,
    /// `input`
    InputWord,
    /// `ref`
    RefWord,
    /// `new`
    NewWord,
    /// `posedge`
    PosedgeWord,
    /// `negedge`
    NegedgeWord,
    /// `edge`
    EdgeWord,
    /// `or`
    OrWord,
    /// `option`
    OptionWord,
    /// `type_option`
    TypeOptionWord,
    /// `(`
    OpenParen,
    /// `)`
    CloseParen,
    /// `[` behind a name and before what can begin an expression.
    OpenIndex,
    /// Every other `[`.
    OpenSquare,
    /// `]`
    CloseSquare,
    /// `{`
    OpenBrace,
    /// `}`
    CloseBrace,
    /// `,`
    Comma,
    /// `;`
    Semi,
    /// `:`
    Colon,
    /// `.`
    Dot,
    /// `@`
    AtSign,
    /// `=`
    Assign,
    /// `=>`
    FatArrow,
    /// `->`
    ThinArrow,
    /// `+`
    PlusSign,
    /// `-`
    Minus,
    /// `*`
    Star,
    /// `/`
    Slash,
    /// `%`
    Percent,
    /// `~`
    Tilde,
    /// `!`
    Bang,
    /// `&`
    Ampersand,
    /// `&&`
    AndAnd,
    /// `|`
    Bar,
    /// `||`
    OrOr,
    /// `^`
    Caret,
    /// `~&`
    TildeAnd,
    /// `~|`
    TildeOr,
    /// `~^` or `^~`
    TildeCaret,
    /// `<`
    Less,
    /// `<=`
    LessEqual,
    /// `>`
    Greater,
    /// `>=`
    GreaterEqual,
    /// `==`
    EqualEqual,
    /// `!=`
    NotEqual,
    /// `<<`
    ShiftLeft,
    /// `>>`
    ShiftRight,
    /// `<<<`
    SignedLeft,
    /// `>>>`
    SignedRight,
    /// `?`
    Question,
    /// `$`
    DollarSign,
}

impl Kind {
    ghost use Rattle.std.specs.Prelude.{◌≡◌};
    ghost use Rattle.cov_lexer.specs.Kinds.{code, has};

    fn code(self) -> u8
        ensures { result ≡ code self }
    {
        self as u8
    }

    /// Whether it is one of these kinds.
    pub fn is_one_of(self, kinds: &[Kind]) -> bool
        ensures { result ≡ has self kinds.now }
    {
        let code = self.code();
        for kind in kinds {
            if code == kind.code() {
                return true;
            }
        }
        false
    }
}
