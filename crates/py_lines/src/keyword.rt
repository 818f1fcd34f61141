//! The words of the language, which are no names.

ghost use Rattle.std.specs.Prelude.{◌≡◌, bytes_eq};
ghost use Rattle.std.specs.List.{find};
ghost use Rattle.py_lines.specs.Keywords.{keyword_of, keyword_text};

/// A word of the language: constants, then what begins and ends declarations, what begins blocks, what changes which line comes next,
/// other statements, and what stands inside of them.
#[derive(Clone, Copy, Debug, PartialEq, Eq)]
pub enum Keyword {
    /// `None`.
    None,
    /// `True`.
    True,
    /// `False`.
    False,
    /// `def`.
    Def,
    /// `gen`.
    Gen,
    /// `async`.
    Async,
    /// `class`.
    Class,
    /// `manager`.
    Manager,
    /// `code`.
    Code,
    /// `end`.
    End,
    /// `if`.
    If,
    /// `else`.
    Else,
    /// `while`.
    While,
    /// `for`.
    For,
    /// `try`.
    Try,
    /// `except`.
    Except,
    /// `finally`.
    Finally,
    /// `with`.
    With,
    /// `break`.
    Break,
    /// `continue`.
    Continue,
    /// `return`.
    Return,
    /// `raise`.
    Raise,
    /// `reraise`.
    Reraise,
    /// `pass`.
    Pass,
    /// `show`.
    Show,
    /// `do`.
    Do,
    /// `del`.
    Del,
    /// `unpack`.
    Unpack,
    /// `global`.
    Global,
    /// `nonlocal`.
    Nonlocal,
    /// `import`.
    Import,
    /// `await`.
    Await,
    /// `from`.
    From,
    /// `in`.
    In,
    /// `type`.
    Type,
}

impl Keyword {
    /// All of them.
    const ALL: [Keyword; 35] = [
        Keyword::None,
        Keyword::True,
        Keyword::False,
        Keyword::Def,
        Keyword::Gen,
        Keyword::Async,
        Keyword::Class,
        Keyword::Manager,
        Keyword::Code,
        Keyword::End,
        Keyword::If,
        Keyword::Else,
        Keyword::While,
        Keyword::For,
        Keyword::Try,
        Keyword::Except,
        Keyword::Finally,
        Keyword::With,
        Keyword::Break,
        Keyword::Continue,
        Keyword::Return,
        Keyword::Raise,
        Keyword::Reraise,
        Keyword::Pass,
        Keyword::Show,
        Keyword::Do,
        Keyword::Del,
        Keyword::Unpack,
        Keyword::Global,
        Keyword::Nonlocal,
        Keyword::Import,
        Keyword::Await,
        Keyword::From,
        Keyword::In,
        Keyword::Type,
    ];

    /// How it is spelled.
    pub fn text(&self) -> &'static str
        ensures { result.now ≡ keyword_text self.now }
    {
        match self {
            Keyword::None => "None",
            Keyword::True => "True",
            Keyword::False => "False",
            Keyword::Def => "def",
            Keyword::Gen => "gen",
            Keyword::Async => "async",
            Keyword::Class => "class",
            Keyword::Manager => "manager",
            Keyword::Code => "code",
            Keyword::End => "end",
            Keyword::If => "if",
            Keyword::Else => "else",
            Keyword::While => "while",
            Keyword::For => "for",
            Keyword::Try => "try",
            Keyword::Except => "except",
            Keyword::Finally => "finally",
            Keyword::With => "with",
            Keyword::Break => "break",
            Keyword::Continue => "continue",
            Keyword::Return => "return",
            Keyword::Raise => "raise",
            Keyword::Reraise => "reraise",
            Keyword::Pass => "pass",
            Keyword::Show => "show",
            Keyword::Do => "do",
            Keyword::Del => "del",
            Keyword::Unpack => "unpack",
            Keyword::Global => "global",
            Keyword::Nonlocal => "nonlocal",
            Keyword::Import => "import",
            Keyword::Await => "await",
            Keyword::From => "from",
            Keyword::In => "in",
            Keyword::Type => "type",
        }
    }

    /// Whether a word is spelled so.
    fn spells(&self, word: &[u8]) -> bool
        ensures { result ≡ bytes_eq word.now (keyword_text self.now) }
    {
        word == self.text().as_bytes()
    }

    /// The one that a word is.
    pub fn of(word: &[u8]) -> Option<Keyword>
        ensures { result ≡ keyword_of word.now }
    {
        first_spelled(&Keyword::ALL, word)
    }
}

/// The first of some keywords that is spelled so.
fn first_spelled(keywords: &[Keyword], word: &[u8]) -> Option<Keyword>
    ensures { result ≡ find (λ k. bytes_eq word.now (keyword_text k)) keywords.now }
{
    let mut rest = keywords;
    while let Some((first, more)) = rest.split_first() {
        if first.spells(word) {
            return Some(*first);
        }
        rest = more;
    }
    None
}
