ghost use Rattle.std.specs.Prelude.{◌≡◌, ◌<◌, ◌^◌, ◌++◌, ℕ, Some, decimal, IfOk, IfSome, OnOk};
ghost use Rattle.std.specs.Str.{bytes_eq};
ghost use Rattle.oai_lists.specs.declared.tokens.Token.{Token as TokenData};
ghost use Rattle.oai_lists.specs.Tokens.{IsToken, token_of, token_text};
ghost use Rattle.oai_lists.specs.HeldTable.{AreNumbers};

use itoa::Buffer;
use oai_names::Sequence;
use std::alloc::{AllocError, Global};
use std::fmt;

/// The contents of a resumption token (OAI-PMH 2.0, section 3.5).
#[derive(Clone, Copy, Debug, PartialEq, Eq)]
pub struct Token {
    /// The number of the open list.
    pub list: u64,
    /// The number of its records before the requested part.
    pub cursor: u64,
}

impl Token {
    /// The token with that text, or None if there is none: a number, a full stop and a number, both decimal without
    /// leading zeros and below 2^64. Allocates nothing.
    pub fn read(text: &str) -> Option<Token>
        ensures found { IfSome result (λ token. IsToken text.now token) }
        ensures only { (token : TokenData) → IsToken text.now token → result ≡ Some token }
        ensures read { result ≡ token_of text.now }
    {
        match text.split_once('.') {
            Some((list, cursor)) => read_numbers(list, cursor),
            None => None,
        }
    }

    /// The text of the token, which `read` reads back. The error is out of memory.
    #[tactic(auto, unfolding(crate::specs::Tokens::token_text))]
    pub fn write(&self, alloc: Global) -> Result<Sequence<u8>, AllocError>
        ensures { IfOk result (λ text. IsToken text self.now) }
    {
        let mut text = Vec::new(alloc);
        write_number(self.list, &mut text)?;
        text.push(b'.')?;
        write_number(self.cursor, &mut text)?;
        Ok(Sequence::new(text))
    }
}

/// The text of the token.
impl fmt::Display for Token {
    ghost output = { λ token. Some (token_text token) };

    #[tactic(auto, unfolding(crate::specs::Tokens::token_text))]
    fn fmt<W: fmt::Write>(&self, f: &mut fmt::Formatter<W>) -> fmt::Result {
        write!(f, "{}.{}", self.list, self.cursor)
    }
}

/// The token of the two numbers that these texts spell.
fn read_numbers(list: &str, cursor: &str) -> Option<Token>
    ensures found { IfSome result (λ token. AreNumbers list.now cursor.now token) }
    ensures only { (token : TokenData)
        → AreNumbers list.now cursor.now token → result ≡ Some token }
{
    match (read_decimal(list), read_decimal(cursor)) {
        (Some(list), Some(cursor)) => Some(Token { list, cursor }),
        _ => None,
    }
}

/// The number below 2^64 that the text spells, decimal without leading zeros. Allocates nothing.
pub fn read_decimal(text: &str) -> Option<u64>
    ensures found { IfSome result (λ n. text.now ≡ decimal n) }
    ensures only { (n : ℕ) → n < 2 ^ 64 → text.now ≡ decimal n → result ≡ Some n }
{
    match text.parse::<u64>() {
        Ok(n) if is_spelled(n, text) => Some(n),
        _ => None,
    }
}

/// Whether the text is the number, decimal without leading zeros.
fn is_spelled(n: u64, text: &str) -> bool
    ensures { result ≡ bytes_eq (decimal n) text.now }
{
    let mut buffer = Buffer::new();
    buffer.format(n) == text
}

/// Appends the number, decimal without leading zeros.
fn write_number(n: u64, text: &mut Vec<u8>) -> Result<(), AllocError>
    ensures { OnOk result (text.new.items ≡ text.old.items ++ decimal n) }
{
    let mut buffer = Buffer::new();
    text.extend_from_slice(buffer.format(n).as_bytes())
}
