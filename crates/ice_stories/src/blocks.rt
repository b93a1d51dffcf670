//! A file of stories: blocks between empty lines, each of which begins with its kind and its name. `#` begins a comment.

/// A line that is no comment, header or query has words, which are played.
pub fn is_played(line: &str) -> bool {
    let first = match line.split_once(' ') {
        Some((first, _)) => first,
        None => line,
    };
    !matches!(
        first,
        "#" | "" | "?" | "story" | "agent" | "world" | "asserts" | "candidate"
    )
}

/// What follows this word in the first line that begins with it.
pub fn after<'a>(block: &'a str, word: &str) -> Option<&'a str> {
    for line in block.lines() {
        match line.split_once(' ') {
            Some((first, rest)) if first == word => return Some(rest),
            _ => {}
        }
    }
    None
}

/// A line `WORD .. = ANSWER : TEXT`, of which the answer and the text are optional.
#[derive(Clone, Copy)]
pub struct Line<'a> {
    pub words: &'a str,
    /// The result of the last word, if it is compared.
    pub answer: Option<&'a str>,
    /// What else the log has for the last word.
    pub text: &'a str,
}

pub fn line_of(line: &str) -> Line<'_> {
    let (front, text) = match line.split_once(" : ") {
        Some((front, text)) => (front, text),
        None => (line, ""),
    };
    match front.split_once(" = ") {
        Some((words, answer)) => Line {
            words,
            answer: Some(answer),
            text,
        },
        None => Line {
            words: front,
            answer: None,
            text,
        },
    }
}
