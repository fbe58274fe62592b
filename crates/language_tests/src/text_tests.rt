//! Texts that are read, copied and printed.

use crate::told::{is_so, is_so_at};
use example_sets::SMALL_BANK;
use prog_text::{
    Beginning, TextFault, beginning_of, is_letter, is_reserved, is_space, is_word_byte, parse,
    print, reserved_words,
};
use prog_tree::Draft;
use std::alloc::{AllocError, Global};
use std::test::Fail;

/// Each kind of statement, key and range. The canonical text.
const EVERY_STATEMENT: &str = "\
table t 1;
table e 2;
table g 1 grow;
table h 2 grow;
program Empty() {
}
program All(a, b) {
  let x = a;
  let y = get t[x] else a + 1;
  let z = get e[a, b] else -1;
  let w = need t[a];
  let q = need h[a, b];
  let n = count t[a..b];
  let s = sum e[a, least..greatest];
  lacks g[a];
  lacks e[a, 1];
  put t[a] = least;
  put e[a, b] = x * y;
  insert g[a] = 1;
  insert h[a, b] = -1;
  insert t[b] = 0;
  delete t[a];
  delete e[1, 2];
  keep g[a];
  keep e[a, b];
  if a < b {
    reply a;
  } else {
    abort;
  }
  each k, v in t[a..(a + 1) * 2] {
    put t[k] = v;
    each i, u in e[k, least..greatest] {
    }
  }
  reply n + s + z + w + q;
}
";

/// Words, whether they are reserved, and what they begin.
const WORDS: [(&str, bool, Option<Beginning>); 5] = [
    ("table", true, Some(Beginning::Table)),
    ("program", true, Some(Beginning::Program)),
    ("each", true, Some(Beginning::Statement)),
    ("get", true, None),
    ("tables", false, None),
];

#[test]
fn words_are_reserved_and_begin_what_they_begin(rt: HostRuntime) {
    for (word, is_word, beginning) in &WORDS {
        is_so(&rt, word, is_reserved(word.as_bytes()) == *is_word);
        is_so(&rt, word, beginning_of(word.as_bytes()) == *beginning);
    }
    assert!(rt; reserved_words().len() == 24);
}

/// Bytes, and whether they begin a word, go on in a word and stand between words.
const BYTES: [(u8, [bool; 3]); 6] = [
    (b'A', [true, true, false]),
    (b'z', [true, true, false]),
    (b'_', [true, true, false]),
    (b'0', [false, true, false]),
    (b'\r', [false, false, true]),
    (b'-', [false, false, false]),
];

#[test]
fn bytes_begin_words_go_on_words_and_stand_between_them(rt: HostRuntime) {
    for (byte, wanted) in &BYTES {
        let found = [is_letter(*byte), is_word_byte(*byte), is_space(*byte)];
        is_so_at(&rt, *byte as usize, found == *wanted);
    }
}

/// Texts, and what they are refused for.
const REFUSED: [(&str, TextFault); 4] = [
    ("program P( {", TextFault::UnexpectedToken { place: 11 }),
    ("table t 1; @", TextFault::UnknownByte { place: 11 }),
    (
        "table t 1; program P() { each k v in t[1..3] { } }",
        TextFault::UnexpectedToken { place: 32 },
    ),
    (
        "table t 1; program P() { each k, v in",
        TextFault::UnexpectedEnd { place: 37 },
    ),
];

// The fault of a text that is refused.
fn fault_of(alloc: Global, text: &[u8]) -> Option<TextFault> {
    parse(alloc, text).err()
}

#[test]
fn refusals_have_their_place(rt: HostRuntime) {
    for (text, fault) in &REFUSED {
        let found = fault_of(rt.alloc(), text.as_bytes());
        is_so(&rt, text, found == Some(*fault));
    }
}

// Whether this is the last token of a text, or a part of it.
fn is_one_token(bytes: &[u8]) -> bool {
    !bytes.is_empty() && !bytes.iter().any(|b| b.is_ascii_whitespace())
}

// Whether a prefix may be answered so: read, refused at its end, or at its last word, which was
// cut.
fn is_answer_to_a_cut(prefix: &[u8], fault: Option<TextFault>) -> bool {
    match fault {
        None => true,
        Some(TextFault::UnexpectedEnd { place }) => place == prefix.len(),
        Some(TextFault::UnexpectedToken { place }) => {
            prefix.get(place..).is_some_and(is_one_token)
        }
        Some(_) => false,
    }
}

#[test]
fn each_cut_is_read_or_stops_at_its_end(rt: HostRuntime) {
    let text = SMALL_BANK.as_bytes();
    for len in 0..=text.len() {
        let cut = &text[..len];
        let fault = fault_of(rt.alloc(), cut);
        assert!(rt; is_answer_to_a_cut(cut, fault), "{len}: {fault:?}");
    }
}

fn printed_copy(alloc: Global, draft: &Draft) -> Result<Vec<u8>, AllocError> {
    let copy = draft.copy()?;
    let text = print(alloc, &copy);
    drop(copy);
    text
}

// What is printed of a copy of a text that is read.
fn copied(alloc: Global, text: &str) -> Result<Vec<u8>, Fail> {
    let draft = parse(alloc, text.as_bytes())?;
    let text = printed_copy(alloc, &draft);
    drop(draft);
    Ok(text?)
}

#[test]
fn a_draft_is_copied_whole(rt: HostRuntime) -> Result<(), Fail> {
    let text = copied(rt.alloc(), EVERY_STATEMENT)?;
    assert!(rt; text.as_slice() == EVERY_STATEMENT.as_bytes());
    Ok(())
}
