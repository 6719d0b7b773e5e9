//! Single tokens.

ghost use Rattle.std.specs.Prelude.{◌≡◌, map};
ghost use Rattle.std.specs.Option.{option_map};
ghost use Rattle.std.specs.Str.{bytes_eq};
ghost use Rattle.js_ast.specs.Words.{in_table};
ghost use Rattle.js_ast.specs.Words as words;
ghost use Rattle.js_ast.specs.Grammar.{place_of, on_line};
ghost use Rattle.js_list_parser.specs.Reading as reading;
ghost use Rattle.js_parse_parts.specs.Words.{word_of};

use flow_text::Text;
use js_ast::{Keyword, Sign, Token, TokenKind};
use js_number::Int;

/// What the grammar asks of a token.
#[derive(Clone, Copy, Drop)]
pub enum Word<'a> {
    Name(&'a Text),
    Number(&'a Int),
    /// A string, by its token's text and its value.
    String(&'a Text, &'a Text),
    Key(Keyword),
    Sign(Sign),
    /// The token has a text that no source gives it.
    Unknown,
}

const KEYWORDS: [(&[u8], Keyword); 36] = [
    (b"break", Keyword::Break),
    (b"case", Keyword::Case),
    (b"catch", Keyword::Catch),
    (b"continue", Keyword::Continue),
    (b"debugger", Keyword::Debugger),
    (b"default", Keyword::Default),
    (b"delete", Keyword::Delete),
    (b"do", Keyword::Do),
    (b"else", Keyword::Else),
    (b"finally", Keyword::Finally),
    (b"for", Keyword::For),
    (b"function", Keyword::Function),
    (b"if", Keyword::If),
    (b"in", Keyword::In),
    (b"instanceof", Keyword::Instanceof),
    (b"new", Keyword::New),
    (b"return", Keyword::Return),
    (b"switch", Keyword::Switch),
    (b"this", Keyword::This),
    (b"throw", Keyword::Throw),
    (b"try", Keyword::Try),
    (b"typeof", Keyword::Typeof),
    (b"var", Keyword::Var),
    (b"void", Keyword::Void),
    (b"while", Keyword::While),
    (b"with", Keyword::With),
    (b"class", Keyword::Class),
    (b"const", Keyword::Const),
    (b"enum", Keyword::Enum),
    (b"export", Keyword::Export),
    (b"extends", Keyword::Extends),
    (b"import", Keyword::Import),
    (b"super", Keyword::Super),
    (b"null", Keyword::Null),
    (b"true", Keyword::True),
    (b"false", Keyword::False),
];

const SIGNS: [(&[u8], Sign); 48] = [
    (b"{", Sign::OpenBrace),
    (b"}", Sign::CloseBrace),
    (b"(", Sign::OpenParen),
    (b")", Sign::CloseParen),
    (b"[", Sign::OpenBracket),
    (b"]", Sign::CloseBracket),
    (b".", Sign::Dot),
    (b";", Sign::Semicolon),
    (b",", Sign::Comma),
    (b"<", Sign::Less),
    (b">", Sign::Greater),
    (b"<=", Sign::LessEqual),
    (b">=", Sign::GreaterEqual),
    (b"==", Sign::Equal),
    (b"!=", Sign::NotEqual),
    (b"===", Sign::StrictEqual),
    (b"!==", Sign::StrictNotEqual),
    (b"+", Sign::Plus),
    (b"-", Sign::Minus),
    (b"*", Sign::Star),
    (b"/", Sign::Slash),
    (b"%", Sign::Percent),
    (b"++", Sign::PlusPlus),
    (b"--", Sign::MinusMinus),
    (b"<<", Sign::ShiftLeft),
    (b">>", Sign::ShiftRight),
    (b">>>", Sign::ShiftRightZero),
    (b"&", Sign::And),
    (b"|", Sign::Or),
    (b"^", Sign::Xor),
    (b"!", Sign::Not),
    (b"~", Sign::Tilde),
    (b"&&", Sign::AndAnd),
    (b"||", Sign::OrOr),
    (b"?", Sign::Question),
    (b":", Sign::Colon),
    (b"=", Sign::Assign),
    (b"+=", Sign::PlusAssign),
    (b"-=", Sign::MinusAssign),
    (b"*=", Sign::StarAssign),
    (b"/=", Sign::SlashAssign),
    (b"%=", Sign::PercentAssign),
    (b"<<=", Sign::ShiftLeftAssign),
    (b">>=", Sign::ShiftRightAssign),
    (b">>>=", Sign::ShiftRightZeroAssign),
    (b"&=", Sign::AndAssign),
    (b"|=", Sign::OrAssign),
    (b"^=", Sign::XorAssign),
];

// The value of the row whose text this is.
fn in_table<T: Copy>(table: &[(&[u8], T)], text: &[u16]) -> Option<T>
    ensures { result ≡ in_table (map (λ row. (row.0.now, row.1)) table.now) text.now }
{
    let mut rows = table;
    while let [row, others @ ..] = rows {
        if is_text(text, row.0) {
            return Some(row.1);
        }
        rows = others;
    }
    None
}

/// Whether the units are the bytes, one by one.
pub(crate) fn is_text(units: &[u16], bytes: &[u8]) -> bool
    ensures { result ≡ bytes_eq units.now bytes.now }
{
    units.len() == bytes.len()
        && units
            .iter()
            .zip(bytes)
            .all(|(unit, byte)| *unit == u16::from(*byte))
}

fn keyword_of(text: &Text) -> Option<Keyword>
    ensures { result ≡ in_table words.keywords text.now }
{
    in_table(&KEYWORDS, text.units())
}

fn sign_of(text: &Text) -> Option<Sign>
    ensures { result ≡ in_table words.signs text.now }
{
    in_table(&SIGNS, text.units())
}

#[tactic(auto, unfolding(js_ast::specs::Words::word_by))]
fn word_of(token: &Token) -> Word<'_>
    ensures { word_of result ≡ words.word_of token.now }
{
    match &token.kind {
        TokenKind::Name => Word::Name(&token.text),
        TokenKind::Number(number) => Word::Number(number),
        TokenKind::String(value) => Word::String(&token.text, value),
        TokenKind::Reserved => match keyword_of(&token.text) {
            Some(keyword) => Word::Key(keyword),
            None => Word::Unknown,
        },
        TokenKind::Punctuator => match sign_of(&token.text) {
            Some(sign) => Word::Sign(sign),
            None => Word::Unknown,
        },
    }
}

/// The word of the first token.
pub fn word_at(tokens: &[Token]) -> Option<Word<'_>>
    ensures { option_map word_of result ≡ reading.word_at tokens.now }
{
    match tokens {
        [] => None,
        [first, ..] => Some(word_of(first)),
    }
}

/// The tokens behind the first.
pub fn behind(tokens: &[Token]) -> &[Token]
    ensures { result.now ≡ reading.behind tokens.now }
{
    match tokens {
        [] => tokens,
        [_, rest @ ..] => rest,
    }
}

/// The place of the first token, and 0 where there is none.
pub fn place_of(tokens: &[Token]) -> usize
    ensures { result ≡ place_of tokens.now }
{
    match tokens {
        [] => 0,
        [first, ..] => first.from,
    }
}

/// Whether no line terminator stands before the first token.
pub fn on_line(tokens: &[Token]) -> bool
    ensures { result ≡ on_line tokens.now }
{
    match tokens {
        [] => true,
        [first, ..] => !first.newline,
    }
}
