//! A story of two agents and the packets between them: the list of its events happens in a `World`.
use crate::blocks::{after, is_played, line_of};
use crate::names::{creds, random, ufrag};
use crate::rows::{Asserts, Played, Row, result};
use crate::texts::{AnswerText, EffectText, MessageText};
use crate::words::event_of;
use is::{
    AgentSpec, Answer, DefaultSha1HmacProvider, Side, World, WorldEntry, WorldEvent, WorldLog,
};
use std::alloc::Global;

/// How the agents begin, A's values first.
#[derive(Clone, Copy)]
struct Start {
    tie_breakers: [u64; 2],
    controlling: [bool; 2],
}

impl Start {
    /// By the line `world TIE-BREAKER ROLE TIE-BREAKER ROLE`, A's first.
    fn of(block: &str) -> Option<Start> {
        let mut words = after(block, "world")?.split_whitespace();
        let a_number = words.next()?.parse::<u64>().ok()?;
        let a_controls = words.next()? == "controlling";
        let b_number = words.next()?.parse::<u64>().ok()?;
        let b_controls = words.next()? == "controlling";
        Some(Start {
            tie_breakers: [a_number, b_number],
            controlling: [a_controls, b_controls],
        })
    }
}

fn spec(
    alloc: Global,
    side: Side,
    tie_breaker: u64,
    controlling: bool,
) -> Option<AgentSpec<DefaultSha1HmacProvider>> {
    Some(AgentSpec {
        creds: creds(alloc, side, ufrag(side)).ok()?,
        provider: DefaultSha1HmacProvider,
        tie_breaker,
        controlling,
    })
}

type Two = World<DefaultSha1HmacProvider>;

fn world_of(alloc: Global, start: Start) -> Option<Two> {
    let [a_number, b_number] = start.tie_breakers;
    let [a_controls, b_controls] = start.controlling;
    let a = spec(alloc, Side::A, a_number, a_controls)?;
    let b = spec(alloc, Side::B, b_number, b_controls)?;
    World::new(alloc, a, b).ok()
}

/// The log of the events between two new agents.
fn log_of(alloc: Global, start: Start, events: Vec<WorldEvent>) -> Option<WorldLog> {
    match world_of(alloc, start) {
        Some(mut world) => Some(world.run(events, &mut random(Side::A), &mut random(Side::B))),
        None => None,
    }
}

/// Adds the events of a line.
fn add_events(alloc: Global, file: &str, line: &str, events: &mut Vec<WorldEvent>) -> Option<()> {
    for word in line_of(line).words.split_whitespace() {
        events.push(event_of(alloc, file, word)?).ok()?;
    }
    Some(())
}

fn events_of(alloc: Global, file: &str, block: &str) -> Option<Vec<WorldEvent>> {
    let mut events = Vec::new(alloc);
    for line in block.lines() {
        if is_played(line) {
            add_events(alloc, file, line, &mut events)?;
        }
    }
    Some(events)
}

fn side_text(side: Option<Side>) -> &'static str {
    match side {
        Some(Side::A) => "A ",
        Some(Side::B) => "B ",
        None => "",
    }
}

/// The row of an entry, with the roles if they are new.
fn row_of(alloc: Global, entry: &WorldEntry, asserts: Asserts, before: [bool; 2]) -> Option<Row> {
    let is_new = asserts.roles && entry.controlling != before;
    let effect = EffectText {
        issued: if asserts.issues { entry.issued } else { None },
        selected: if asserts.selects {
            entry.announced
        } else {
            [None, None]
        },
        roles: if is_new {
            Some(entry.controlling)
        } else {
            None
        },
    };
    let side = side_text(entry.side);
    Some(Row {
        answer: format!(in alloc; "{side}{}", AnswerText(&entry.answer)).ok()?,
        effect: format!(in alloc; "{effect}").ok()?,
    })
}

/// The rows of the entries, which are numbered in order.
fn rows_of(alloc: Global, log: &WorldLog, asserts: Asserts, start: Start) -> Option<Vec<Row>> {
    let mut rows = Vec::new(alloc);
    let mut roles = start.controlling;
    for (number, entry) in log.entries.iter().enumerate() {
        if entry.number != number {
            return None;
        }
        rows.push(row_of(alloc, entry, asserts, roles)?).ok()?;
        roles = entry.controlling;
    }
    if log.stopped { None } else { Some(rows) }
}

/// The causal chain of the path that the entry selected at this place.
fn trace(alloc: Global, log: &WorldLog, entry: &str, place: &str) -> Option<String> {
    let entry = entry.parse::<usize>().ok()?;
    match log.trace(entry, place.parse::<usize>().ok()?) {
        Some(t) => {
            let (checked, delivered, replied, answered) = (
                t.checked,
                t.delivered,
                t.replied,
                t.answered,
            );
            format!(in alloc; "{checked} {delivered} {replied} {answered}").ok()
        }
        None => format!(in alloc; "none").ok(),
    }
}

/// The entry selected no path, or its first path has a causal chain that ends at that entry or an earlier one.
fn is_traced(log: &WorldLog, entry: &WorldEntry) -> bool {
    match log.trace(entry.number, 0) {
        Some(trace) => trace.checked < trace.delivered && trace.answered <= entry.number,
        None => entry.announced == [None, None],
    }
}

/// How many entries sent a packet, delivered one, and select a path that has no causal chain.
fn counts(alloc: Global, log: &WorldLog) -> Option<String> {
    let (mut sent, mut delivered, mut untraced) = (0usize, 0usize, 0usize);
    for entry in &log.entries {
        if entry.moved.is_some() {
            delivered = delivered.saturating_add(1);
        } else if entry.answer == Answer::Flag(true) {
            sent = sent.saturating_add(1);
        }
        if !is_traced(log, entry) {
            untraced = untraced.saturating_add(1);
        }
    }
    format!(in alloc; "{sent} sent, {delivered} delivered, {untraced} untraced").ok()
}

/// What the entry delivered to the side, or that it cleared the side's pairs.
fn moved(alloc: Global, log: &WorldLog, number: &str) -> Option<String> {
    let entry = log.entries.get(number.parse::<usize>().ok()?)?;
    let side = side_text(entry.side);
    match (entry.moved, entry.clear) {
        (Some((class, id)), false) => format!(in alloc; "{side}{}", MessageText(class, id)).ok(),
        (None, true) => format!(in alloc; "{side}clears").ok(),
        (None, false) => format!(in alloc; "{side}nothing").ok(),
        (Some(_), true) => None,
    }
}

/// The result of a query.
fn result_of(alloc: Global, log: &WorldLog, rows: &[Row], query: &str) -> Option<String> {
    let (name, value) = query.split_once(' ').unwrap_or((query, ""));
    match name {
        "trace" => {
            let (entry, place) = value.split_once(' ')?;
            trace(alloc, log, entry, place)
        }
        "moved" => moved(alloc, log, value),
        "counts" => counts(alloc, log),
        _ => result(alloc, rows, query),
    }
}

fn results_of(alloc: Global, log: &WorldLog, rows: &[Row], block: &str) -> Option<Vec<String>> {
    let mut results = Vec::new(alloc);
    for line in block.lines() {
        if let Some(query) = line.strip_prefix("? ") {
            results
                .push(result_of(alloc, log, rows, line_of(query).words)?)
                .ok()?;
        }
    }
    Some(results)
}

/// Plays the events of the story between two new agents.
pub fn play(alloc: Global, file: &str, block: &str) -> Option<Played> {
    let start = Start::of(block)?;
    let log = log_of(alloc, start, events_of(alloc, file, block)?)?;
    let rows = rows_of(alloc, &log, Asserts::of(block), start)?;
    let results = results_of(alloc, &log, &rows, block)?;
    Some(Played { rows, results })
}
