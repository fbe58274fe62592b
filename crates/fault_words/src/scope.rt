//! The names that a statement may use, and one that it may not.
ghost use Rattle.std.specs.Prelude.{◌≡◌, true, slice_get, IfSome};
ghost use Rattle.fault_words.specs.Pointing.{goes_on};
ghost use Rattle.fault_words.specs.Reserved.{is_name};

use crate::reserved::is_name;
use std::alloc::{AllocError, Global};
use text_places::{as_text, before, begins_token, behind, first_token, short_word, stands_free};

/// Whether a statement or a test goes on behind a byte.
pub fn goes_on(byte: u8) -> bool
    ensures { result ≡ goes_on byte }
{
    byte != b';' && byte != b'{'
}

// The words and signs of a text without comments.
fn tokens_of(alloc: Global, bytes: &[u8]) -> Result<Vec<&str>, AllocError> {
    let mut tokens = Vec::new(alloc);
    for place in 0..bytes.len() {
        if begins_token(bytes, place) {
            tokens.push(as_text(first_token(behind(bytes, place))))?;
        }
    }
    Ok(tokens)
}

// The words and signs of the statement or the test that begins at a place of a text without
// comments, with the `;` or the `{` behind it.
fn statement_tokens(alloc: Global, plain: &[u8], at: usize) -> Result<Vec<&str>, AllocError> {
    let rest = behind(plain, at);
    let len = rest.iter().take_while(|byte| goes_on(**byte)).count();
    tokens_of(alloc, before(rest, len.saturating_add(1)))
}

/// Where the token of a number begins.
pub fn token_place(bytes: &[u8], number: usize) -> Option<usize> {
    (0..bytes.len())
        .filter(|place| begins_token(bytes, *place))
        .nth(number)
}

// Whether a name is bound behind a token, in a block or before the first, where the parameters are.
fn binds(before: &str, is_outside: bool) -> bool {
    match before {
        "let" => true,
        "(" | "," => is_outside,
        _ => false,
    }
}

// Adds the two names that an `each` binds in its block, given its tokens.
fn push_turn<'a>(names: &mut Vec<&'a str>, each: &[&'a str]) -> Result<(), AllocError> {
    if let ["each", key, ",", value, ..] = each {
        names.push(*key)?;
        names.push(*value)?;
    }
    Ok(())
}

// The names that are bound at the end of the tokens of a program's beginning: those of an `each`
// from the front of its block to its end.
fn visible_names<'a>(alloc: Global, tokens: &[&'a str]) -> Result<Vec<&'a str>, AllocError> {
    let mut names: Vec<&'a str> = Vec::new(alloc);
    let mut outer = Vec::new(alloc);
    let mut each = 0;
    let mut before = "";
    for (index, token) in tokens.iter().enumerate() {
        if *token == "{" {
            outer.push(names.len())?;
            push_turn(&mut names, tokens.get(each..index).unwrap_or(&[]))?;
            each = index;
        } else if *token == "}" {
            names.truncate(outer.pop().unwrap_or(0));
        } else if *token == "each" {
            each = index;
        } else if binds(before, outer.is_empty()) && is_name(*token) {
            names.push(*token)?;
        }
        before = *token;
    }
    Ok(names)
}

/// A statement and the names that it may use, as a text without comments has them.
#[derive(Drop)]
pub struct Scope<'a> {
    /// The words and signs of the statement.
    pub statement: Vec<&'a str>,
    /// Those of its program before it.
    pub before: Vec<&'a str>,
    /// The names that are bound where it begins.
    pub visible: Vec<&'a str>,
}

impl<'a> Scope<'a> {
    /// Of the statement that begins at a place, in the program that begins at another.
    pub fn of(
        alloc: Global,
        plain: &'a [u8],
        start: usize,
        at: usize,
    ) -> Result<Scope<'a>, AllocError> {
        let statement = statement_tokens(alloc, plain, at)?;
        let ahead = tokens_of(alloc, behind(before(plain, at), start))?;
        let visible = visible_names(alloc, &ahead)?;
        Ok(Scope {
            statement,
            before: ahead,
            visible,
        })
    }

    /// Of no statement.
    pub fn none(alloc: Global) -> Scope<'a> {
        Scope {
            statement: Vec::new(alloc),
            before: Vec::new(alloc),
            visible: Vec::new(alloc),
        }
    }
}

// Whether the token at an index is followed by `[`, as the name of a table is.
fn is_table(statement: &[&str], index: usize) -> bool {
    match statement.get(index.saturating_add(1)) {
        Some(next) => *next == "[",
        None => false,
    }
}

// Whether a statement binds a name by the token at an index.
fn is_bound_at(statement: &[&str], index: usize) -> bool {
    match statement {
        ["let", ..] => index == 1,
        ["each", ..] => index == 1 || index == 3,
        _ => false,
    }
}

/// The number of the first token that is a name which a statement uses and that is none of these.
pub fn unknown_name(statement: &[&str], visible: &[&str]) -> Option<usize>
    ensures { IfSome result (λ index. IfSome (slice_get statement.now index) (λ token.
        is_name token.now ≡ true)) }
{
    for (index, token) in statement.iter().enumerate() {
        let token: &str = *token;
        if token == ";" || token == "{" {
            return None;
        }
        let is_known = is_bound_at(statement, index)
            || is_table(statement, index)
            || (&*visible).contains(&token);
        if is_name(token) && !is_known {
            return Some(index);
        }
    }
    None
}

/// The name that a statement binds, of an `each` the one that may not be: it is none of the visible
/// ones where both are one name.
pub fn taken_name<'a>(statement: &[&'a str], visible: &[&str]) -> &'a str {
    match statement {
        ["each", key, ",", value, ..] if !visible.contains(key) => *value,
        [_, name, ..] => *name,
        _ => "",
    }
}

// Whether tokens begin with a `let` or an `each` that binds a name.
fn binds_name(tokens: &[&str], name: &str) -> bool {
    match tokens {
        ["let", bound, ..] => *bound == name,
        ["each", key, ",", value, ..] => *key == name || *value == name,
        _ => false,
    }
}

/// Whether an `each` binds a name in its block.
pub fn is_of_turn(statement: &[&str], name: &str) -> bool {
    match statement {
        ["each", ..] => binds_name(statement, name),
        _ => false,
    }
}

/// Whether a `let` or an `each` among tokens binds a name, in whichever block.
pub fn is_bound_among(tokens: &[&str], name: &str) -> bool {
    (0..tokens.len()).any(|index| binds_name(tokens.get(index..).unwrap_or(&[]), name))
}

/// Whether an `each` stands in the program that begins at a place of a text without comments.
pub fn has_each(plain: &[u8], at: usize) -> bool {
    let program = behind(plain, at);
    for place in 1..program.len() {
        if !stands_free(program, place) {
            continue;
        }
        match as_text(short_word(behind(program, place))) {
            "program" => return false,
            "each" => return true,
            _ => {}
        }
    }
    false
}
