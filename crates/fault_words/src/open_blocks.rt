//! The block that is open at a place of a text.
ghost use Rattle.std.specs.Prelude.{◌≡◌, IfOk, option_map, string_bytes};
ghost use Rattle.text_places.specs.Reading.{without_comments};
ghost use Rattle.fault_words.specs.Blocks.{begins_head, closes, head_before, head_of, last_before};
ghost use Rattle.fault_words.specs.Blocks.{open_block, open_head, open_text, opens};

use std::alloc::{AllocError, Global};
use text_places::{before, behind, line_number, short_word, stands_free};

fn opens(byte: u8) -> bool
    ensures { result ≡ opens byte }
{
    byte == b'{'
}

fn closes(byte: u8) -> bool
    ensures { result ≡ closes byte }
{
    byte == b'}'
}

// Where the last block begins that is left open, of a text without comments.
fn open_block(plain: &[u8]) -> Option<usize>
    ensures { result ≡ open_block plain.now }
{
    let mut begun: usize = 0;
    let mut ended: usize = 0;
    let mut place = plain.len();
    while place > 0 {
        place -= 1;
        let byte = plain[place];
        if opens(byte) && begun == ended {
            return Some(place);
        }
        begun += usize::from(opens(byte));
        ended += usize::from(closes(byte));
    }
    None
}

// Which of the words before blocks a word is; nothing where it is none.
fn head_of(word: &[u8]) -> Option<&'static str>
    ensures { option_map (λ name. name.now) result ≡ head_of word.now }
{
    if word == b"program".as_slice() {
        Some("program")
    } else if word == b"if".as_slice() {
        Some("if")
    } else if word == b"else".as_slice() {
        Some("else")
    } else if word == b"each".as_slice() {
        Some("each")
    } else {
        None
    }
}

fn begins_head(plain: &[u8], place: usize) -> bool
    ensures { result ≡ begins_head plain.now place }
{
    head_of(short_word(behind(plain, place))).is_some() && stands_free(plain, place)
}

// Where the last head before a block begins.
fn head_before(plain: &[u8], block: usize) -> Option<usize>
    ensures { result ≡ last_before (begins_head plain.now) block }
{
    let mut place = block;
    while place > 0 {
        place -= 1;
        if begins_head(plain, place) {
            return Some(place);
        }
    }
    None
}

// Where the head of the block begins that is open at the end of a text without comments.
fn open_head(plain: &[u8]) -> Option<usize>
    ensures { result ≡ head_before plain.now (open_block plain.now) }
{
    match open_block(plain) {
        Some(block) => head_before(plain, block),
        None => None,
    }
}

// The block of a head, with the line of the head.
fn open_text(alloc: Global, text: &[u8], plain: &[u8], head: usize) -> Result<String, AllocError>
    requires { plain.now ≡ without_comments text.now }
    ensures { IfOk result (λ words. string_bytes words ≡ open_text text.now head) }
{
    let name = head_of(short_word(behind(plain, head))).unwrap_or("");
    let line = line_number(text, head);
    format!(in alloc; "the block of `{name}` in line {line} is still open: a `}}` is missing")
}

/// The block that is open before a place, as people are told of it; nothing where none is open.
pub fn open_words(
    alloc: Global,
    text: &[u8],
    plain: &[u8],
    place: usize,
) -> Result<Option<String>, AllocError>
    requires { plain.now ≡ without_comments text.now }
    ensures { IfOk result (λ said. option_map string_bytes said
        ≡ option_map (open_text text.now) (open_head text.now place)) }
{
    match open_head(before(plain, place)) {
        Some(head) => Ok(Some(open_text(alloc, text, plain, head)?)),
        None => Ok(None),
    }
}
