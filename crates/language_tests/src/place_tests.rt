//! The reading of texts for people: words and signs, lines and columns, and where things begin.

use crate::told::{is_so, is_so_at, is_told};
use std::alloc::AllocError;
use std::process::Abort;
use std::test::Fail;
use text_places::{
    SetText, as_text, before, begins_token, begins_word, behind, behind_word, bracketed, column,
    ends_line, feeds, first_token, first_word, job_place, key_place, last_end, last_token, line_at,
    line_front, line_number, point_out, push_listed, record_place, second_token, short_word,
    stands_free, table_name, visible_text, without_comments,
};

/// What is cut out of a text: its first word, what is behind that, and its first, second and last
/// token.
fn cut_out(text: &[u8]) -> [&str; 5] {
    [
        as_text(first_word(text)),
        as_text(behind_word(text)),
        as_text(first_token(text)),
        as_text(second_token(text)),
        as_text(last_token(text)),
    ]
}

/// Texts, and what is cut out of them.
const CUT_OUT: [(&str, [&str; 5]); 3] = [
    ("put t[k] = v", ["put", "t[k] = v", "put", "t", "v"]),
    ("..9]", ["", "..9]", "..", "9", "]"]),
    ("k_2", ["k_2", "", "k_2", "", "k_2"]),
];

#[test]
fn words_and_signs_are_cut_out(rt: HostRuntime) {
    for (text, wanted) in &CUT_OUT {
        is_so(&rt, text, cut_out(text.as_bytes()) == *wanted);
    }
}

#[test]
fn names_are_cut_out(rt: HostRuntime) {
    is_told(
        &rt,
        "a short word",
        as_text(short_word(b"programmes")),
        "programm",
    );
    let table = table_name(b"let x = get stock [k] else 0;");
    is_told(&rt, "the table", as_text(table), "stock");
    is_told(&rt, "no text", as_text(b"\xff"), "");
    assert!(rt; key_place(b"get stock [k]") == 10);
}

/// Two lines, the second inset by two spaces.
const LINES: &str = "table t 1;\n  get u[7]\n";

/// A place's line, by its number, the place's column in it, and the line's text.
fn line_of(text: &[u8], place: usize) -> (usize, usize, &str) {
    (
        line_number(text, place),
        column(text, place),
        as_text(line_at(text, place)),
    )
}

/// Places, and their lines.
const LINES_OF: [(usize, (usize, usize, &str)); 5] = [
    (0, (1, 1, "table t 1;")),
    (10, (1, 11, "table t 1;")),
    (11, (2, 1, "  get u[7]")),
    (17, (2, 7, "  get u[7]")),
    (22, (3, 1, "")),
];

#[test]
fn places_have_lines_and_columns(rt: HostRuntime) {
    for (place, wanted) in &LINES_OF {
        is_so_at(&rt, *place, line_of(LINES.as_bytes(), *place) == *wanted);
    }
}

/// Whether a place stands free, and whether a word or a token begins there.
fn beginnings(text: &[u8], place: usize) -> [bool; 3] {
    [
        stands_free(text, place),
        begins_word(text, place),
        begins_token(text, place),
    ]
}

/// Places, and what begins there.
const BEGINNINGS: [(usize, [bool; 3]); 6] = [
    (13, [true, true, true]),
    (14, [false, false, false]),
    (16, [false, false, false]),
    (18, [false, false, true]),
    (19, [true, true, true]),
    (22, [true, false, false]),
];

#[test]
fn words_and_signs_begin_at_places(rt: HostRuntime) {
    for (place, wanted) in &BEGINNINGS {
        is_so_at(&rt, *place, beginnings(LINES.as_bytes(), *place) == *wanted);
    }
}

/// Where the first lines begin, by their numbers from 0.
fn fronts(text: &[u8]) -> [Option<usize>; 5] {
    [
        line_front(text, 0),
        line_front(text, 1),
        line_front(text, 2),
        line_front(text, 3),
        line_front(text, 4),
    ]
}

#[test]
fn lines_begin_behind_line_feeds(rt: HostRuntime) {
    let text = LINES.as_bytes();
    assert!(rt; feeds(text) == 2 && ends_line(text) && !ends_line(before(text, 10)));
    is_told(&rt, "behind", as_text(behind(text, 13)), "get u[7]\n");
    assert!(rt; fronts(text) == [None, Some(0), Some(11), Some(22), None]);
}

/// A set with comments.
const SET: &str = "\
# two programs
table t 1; table u 1;
program Look(k) {
  let x = get t[k] else -1;
  reply x; # what was found
}
program Set(k, v) { put u[k] = v; }
";

/// Where the table and the program of a number begin.
fn places(set: &SetText<'_>, number: usize) -> [Option<usize>; 2] {
    [set.table_place(number), set.program_place(number)]
}

/// Where those of the numbers from 0 on begin.
const PLACES: [[Option<usize>; 2]; 3] = [[Some(15), Some(37)], [Some(26), Some(113)], [None, None]];

fn check_places(rt: &impl Abort, set: &SetText<'_>) {
    for (number, wanted) in PLACES.iter().enumerate() {
        is_so_at(rt, number, places(set, number) == *wanted);
    }
}

#[test]
fn lines_of_lists_are_found(rt: HostRuntime) {
    assert!(rt; record_place(b"# rows\nrecord Look 1 at 0 gives\n", 0) == Some(7));
    assert!(rt; job_place(b"job Look 1\n job Set 1 2\n", 0, 1) == Some(12));
    assert!(rt; job_place(b"job Look 1\n job Set 1 2\n", 11, 0) == Some(12));
}

/// Statements, each by its program and its number there, and where they begin.
const STATEMENTS: [(usize, usize, Option<usize>); 5] = [
    (0, 0, Some(57)),
    (0, 1, Some(85)),
    (1, 0, Some(133)),
    (1, 1, None),
    (2, 0, None),
];

fn check_statements(rt: &impl Abort, set: &SetText<'_>) {
    for (number, (program, statement, place)) in STATEMENTS.iter().enumerate() {
        let found = set.statement_place(*program, *statement);
        is_so_at(rt, number, found == *place);
    }
}

#[test]
fn parts_of_a_set_are_found(rt: HostRuntime) -> Result<(), AllocError> {
    let set = SetText::new(rt.alloc(), SET.as_bytes())?;
    assert!(rt; set.bytes() == SET.as_bytes());
    check_places(&rt, &set);
    check_statements(&rt, &set);
    drop(set);
    Ok(())
}

/// A text with a comment, and the same with blanks in the comment's place.
const COMMENTED: (&[u8], &[u8]) = (b"x # y\nz", b"x    \nz");

#[test]
fn comments_are_read_as_blanks(rt: HostRuntime) -> Result<(), Fail> {
    let (text, wanted) = COMMENTED;
    let plain = without_comments(rt.alloc(), text)?;
    assert!(rt; plain.as_slice() == wanted);
    drop(plain);
    assert!(rt; last_end(wanted, 6) == 1);
    Ok(())
}

#[test]
fn the_text_of_a_set_has_blanks_for_comments(rt: HostRuntime) -> Result<(), AllocError> {
    let (text, wanted) = COMMENTED;
    let set = SetText::new(rt.alloc(), text)?;
    assert!(rt; set.plain() == wanted);
    drop(set);
    Ok(())
}

#[test]
fn words_are_listed(rt: HostRuntime) -> Result<(), AllocError> {
    let mut list = String::new(rt.alloc());
    for word in &["t", "u"] {
        push_listed(&mut list, word)?;
    }
    is_told(&rt, "the list", list.as_str(), "t, u");
    drop(list);
    Ok(())
}

/// Numbers, and how they stand in brackets.
const BRACKETED: [(&[i64], &str); 3] = [(&[], "()"), (&[7], "(7)"), (&[1, -2, 3], "(1, -2, 3)")];

#[test]
fn numbers_stand_in_brackets(rt: HostRuntime) -> Result<(), AllocError> {
    for (numbers, wanted) in &BRACKETED {
        let found = bracketed(rt.alloc(), numbers)?;
        is_told(&rt, "brackets", found.as_str(), wanted);
    }
    Ok(())
}

#[test]
fn places_are_pointed_out(rt: HostRuntime) -> Result<(), AllocError> {
    let told = point_out(rt.alloc(), LINES.as_bytes(), 17, "no table u")?;
    let wanted = "line 2, column 7: no table u\n    get u[7]\n        ^\n";
    is_told(&rt, "point_out", told.as_str(), wanted);
    drop(told);
    Ok(())
}

#[test]
fn what_a_terminal_would_obey_is_made_visible(rt: HostRuntime) -> Result<(), AllocError> {
    let shown = visible_text(rt.alloc(), b"t\x1b[2m\xc3\tu")?;
    is_told(&rt, "visible", shown.as_str(), "t?[2m? u");
    drop(shown);
    Ok(())
}
