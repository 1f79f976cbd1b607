// The tokens of a text.
ghost use Rattle.std.specs.Prelude.{◌≡◌};
ghost use Rattle.lexer.specs.Keyword.{word};
ghost use Rattle.lexer.specs.Token.{terminal, kind_name};

#[derive(Clone, Copy, Debug, PartialEq, Eq)]
pub enum Keyword {
    Class,
    Begin,
    End,
    Def,
    If,
    Then,
    Else,
    While,
    Do,
    New,
    InstanceOf,
    SelfWord,
    Nil,
}

impl Keyword {
    pub const ALL: [Keyword; 13] = [
        Keyword::Class,
        Keyword::Begin,
        Keyword::End,
        Keyword::Def,
        Keyword::If,
        Keyword::Then,
        Keyword::Else,
        Keyword::While,
        Keyword::Do,
        Keyword::New,
        Keyword::InstanceOf,
        Keyword::SelfWord,
        Keyword::Nil,
    ];

    pub fn word(self) -> &'static [u8]
        ensures its_letters { result.now ≡ word self }
    {
        match self {
            Keyword::Class => b"class",
            Keyword::Begin => b"begin",
            Keyword::End => b"end",
            Keyword::Def => b"def",
            Keyword::If => b"if",
            Keyword::Then => b"then",
            Keyword::Else => b"else",
            Keyword::While => b"while",
            Keyword::Do => b"do",
            Keyword::New => b"new",
            Keyword::InstanceOf => b"instanceof",
            Keyword::SelfWord => b"self",
            Keyword::Nil => b"nil",
        }
    }
}

#[derive(Clone, Copy, Debug, PartialEq, Eq)]
pub enum Symbol {
    Dot,
    Comma,
    Semicolon,
    OpenParen,
    CloseParen,
    Equals,
    Less,
}

// A token borrows its bytes from the text: a field with its `@`, a string without its quotes.
#[derive(Clone, Copy, Debug, PartialEq, Eq)]
pub enum Token<'a> {
    Identifier(&'a [u8]),
    Integer(&'a [u8]),
    Field(&'a [u8]),
    Str(&'a [u8]),
    Keyword(Keyword),
    Symbol(Symbol),
}

impl<'a> Token<'a> {
    pub fn kind(self) -> &'static str
        ensures named_by_its_case { result.now ≡ kind_name (terminal self.entry) }
    {
        match self {
            Token::Identifier(_) => "identifier",
            Token::Integer(_) => "integer",
            Token::Field(_) => "field",
            Token::Str(_) => "string",
            Token::Keyword(_) => "keyword",
            Token::Symbol(_) => "symbol",
        }
    }
}

// A token with its place: the bytes `from` up to `to` of the text.
#[derive(Clone, Copy, Debug, PartialEq, Eq)]
pub struct Lexed<'a> {
    pub token: Token<'a>,
    pub from: usize,
    pub to: usize,
}

// The place of a byte that no token has, or of a quote that is never closed.
#[derive(Clone, Copy, Debug, PartialEq, Eq)]
pub struct Stray(pub usize);
