//! Whether two books keep the same.

use history_book::Book;
use std::alloc::AllocError;

fn same_commits(book: &Book<'_>, other: &Book<'_>) -> bool {
    let count = book.commits();
    count == other.commits()
        && (1..=count).all(|number| match (book.nth_commit(number), other.nth_commit(number)) {
            (Some(row), Some(other)) => row.is_same(other),
            _ => false,
        })
}

fn same_endings(book: &Book<'_>, other: &Book<'_>) -> bool {
    let (endings, others) = (book.endings(), other.endings());
    endings.len() == others.len()
        && endings
            .iter()
            .zip(others)
            .all(|(ending, other)| ending.is_same(other))
}

/// Whether both have the same rows behind all commits.
pub fn have_same_rows(book: &Book<'_>, other: &Book<'_>) -> Result<bool, AllocError> {
    let rows = book.table()?;
    let others = other.table()?;
    Ok(rows.is_same(&others))
}

/// Whether both have the same history, the same endings and the same rows.
pub fn keep_the_same(book: &Book<'_>, other: &Book<'_>) -> Result<bool, AllocError> {
    let same = same_commits(book, other) && same_endings(book, other);
    Ok(same && have_same_rows(book, other)?)
}
