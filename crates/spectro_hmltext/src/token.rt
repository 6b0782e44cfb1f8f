ghost use Rattle.std.specs.Prelude.{◌≡◌, length};
ghost use Rattle.spectro_hmltext.specs.Tokens.{behind_token, token_of, word_token, mark_token, word_of};

use spectro_io::trim_start;

/// What stands at the front of a formula's text.
#[derive(Clone, Copy, Debug, PartialEq, Eq)]
pub enum Token {
    /// `tt`
    Truth,
    /// `and`
    And,
    /// `not`
    Not,
    /// `<`
    Less,
    /// `>`
    Greater,
    /// `{`
    OpenBrace,
    /// `}`
    CloseBrace,
    /// `,`
    Comma,
    /// The quote at which a label begins.
    Quote,
    /// Another word, or another byte.
    Other,
    /// Nothing is left.
    End,
}

/// The first token of the text, and what stands behind it.
pub(crate) fn token_at(text: &[u8]) -> (Token, &[u8])
    ensures token { result.0 ≡ token_of text.now }
    ensures rest { result.1.now ≡ behind_token text.now }
{
    let text = trim_start(text);
    match text {
        [] => (Token::End, text),
        [first, rest @ ..] => {
            if first.is_ascii_alphabetic() {
                let (word, rest) = text.split_at(word_length(text));
                (word_token(word), rest)
            } else {
                (mark_token(*first), rest)
            }
        }
    }
}

// How many letters stand at the front of the text.
fn word_length(text: &[u8]) -> usize
    ensures { result ≡ length (word_of text.now) }
{
    text.iter()
        .take_while(|byte| byte.is_ascii_alphabetic())
        .count()
}

fn word_token(word: &[u8]) -> Token
    ensures { result ≡ word_token word.now }
{
    match word {
        b"tt" => Token::Truth,
        b"and" => Token::And,
        b"not" => Token::Not,
        _ => Token::Other,
    }
}

fn mark_token(byte: u8) -> Token
    ensures { result ≡ mark_token byte }
{
    match byte {
        b'<' => Token::Less,
        b'>' => Token::Greater,
        b'{' => Token::OpenBrace,
        b'}' => Token::CloseBrace,
        b',' => Token::Comma,
        b'"' => Token::Quote,
        _ => Token::Other,
    }
}
