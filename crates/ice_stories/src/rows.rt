//! What a story is compared with: the log's entries and the results of its queries, as text.
use crate::blocks::after;
use std::alloc::Global;

/// An entry.
#[derive(Drop)]
pub struct Row {
    pub answer: String,
    /// What it issues and selects, and the roles after it, as far as the story compares them.
    pub effect: String,
}

/// A story's log, and the results of its queries, in order.
#[derive(Drop)]
pub struct Played {
    pub rows: Vec<Row>,
    pub results: Vec<String>,
}

/// What a story compares of each entry, by its line `asserts`.
#[derive(Clone, Copy)]
pub struct Asserts {
    pub issues: bool,
    pub selects: bool,
    pub roles: bool,
}

impl Asserts {
    pub fn of(block: &str) -> Asserts {
        let mut asserts = Asserts {
            issues: false,
            selects: false,
            roles: false,
        };
        for word in after(block, "asserts").unwrap_or("").split_whitespace() {
            match word {
                "issues" => asserts.issues = true,
                "selects" => asserts.selects = true,
                _ => asserts.roles = true,
            }
        }
        asserts
    }
}

/// How many entries have a result with this text.
fn count(rows: &[Row], text: &str) -> usize {
    let mut count: usize = 0;
    for row in rows {
        if row.answer.as_str().contains(text) {
            count = count.saturating_add(1);
        }
    }
    count
}

/// The result of a query that the rows show: `entries`, or `count TEXT`.
pub fn result(alloc: Global, rows: &[Row], query: &str) -> Option<String> {
    if query == "entries" {
        return format!(in alloc; "{}", rows.len()).ok();
    }
    let text = query.strip_prefix("count ")?;
    format!(in alloc; "{}", count(rows, text)).ok()
}
