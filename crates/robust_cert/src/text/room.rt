//! Pieces that are added where room was made for them, so that they take no memory.

ghost use Rattle.std.specs.Prelude.{◌≡◌, ◌+◌, ◌≤◌, ◌++◌, IsTrue, codes, decimal, length};
ghost use Rattle.std.specs.Prelude.{string_bytes, string_capacity, string_len};

use itoa::Buffer;

/// The most digits of a number of 32 bits.
pub(crate) const NUMBER_BYTES: usize = 10;

/// Whether a text has room for so many bytes more.
pub(crate) fn has_room(text: &String, bytes: usize) -> bool
    ensures { IsTrue result → string_len text.now + bytes ≤ string_capacity text.now }
{
    let capacity = text.capacity();
    if bytes > capacity {
        return false;
    }
    text.len() <= capacity - bytes
}

/// Adds a piece.
pub(crate) fn put_str(text: &mut String, piece: &str)
    requires { string_len text.old + length piece.now ≤ string_capacity text.old }
    ensures text { string_bytes text.new ≡ string_bytes text.old ++ piece.now }
    ensures len { string_len text.new ≡ string_len text.old + length piece.now }
    ensures capacity { string_capacity text.old ≤ string_capacity text.new }
{
    let Ok(()) = text.push_str(piece) else {
        unreachable!()
    };
}

/// Adds the digits of a number.
pub(crate) fn put_number(text: &mut String, number: u32)
    requires { string_len text.old + NUMBER_BYTES ≤ string_capacity text.old }
    ensures text { string_bytes text.new ≡ string_bytes text.old ++ decimal number }
    ensures len { string_len text.new ≤ string_len text.old + NUMBER_BYTES }
    ensures capacity { string_capacity text.old ≤ string_capacity text.new }
{
    let mut digits = Buffer::new();
    put_str(text, digits.format(number));
}

/// Adds the digits of a number, and a comma behind them.
pub(crate) fn put_before_comma(text: &mut String, number: u32)
    requires { string_len text.old + (NUMBER_BYTES + 1) ≤ string_capacity text.old }
    ensures text { string_bytes text.new
        ≡ string_bytes text.old ++ (decimal number ++ codes ",") }
    ensures len { string_len text.new ≤ string_len text.old + (NUMBER_BYTES + 1) }
    ensures capacity { string_capacity text.old ≤ string_capacity text.new }
{
    put_number(text, number);
    put_str(text, ",");
}
