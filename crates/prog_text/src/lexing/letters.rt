//! The bytes of words and numbers, and those between them.

ghost use Rattle.std.specs.Prelude.{◌≡◌};
ghost use Rattle.prog_text.specs.Lexing.{is_letter, is_digit, is_word_byte, is_space};

/// Whether a byte is a letter or `_`: a word begins with one.
pub fn is_letter(byte: u8) -> bool
    ensures { result ≡ is_letter byte }
{
    byte.is_ascii_alphabetic() || byte == b'_'
}

pub fn is_digit(byte: u8) -> bool
    ensures { result ≡ is_digit byte }
{
    byte.is_ascii_digit()
}

/// Whether a byte is a letter, a digit or `_`: a word goes on with it.
pub fn is_word_byte(byte: u8) -> bool
    ensures { result ≡ is_word_byte byte }
{
    is_letter(byte) || is_digit(byte)
}

/// Whether a byte separates words and signs.
pub fn is_space(byte: u8) -> bool
    ensures { result ≡ is_space byte }
{
    matches!(byte, b' ' | b'\t' | b'\n' | b'\r')
}
