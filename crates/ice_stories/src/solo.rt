//! A story of one agent: the list of its calls is run.
use crate::blocks::{after, is_played, line_of};
use crate::names::{address_of, creds, random};
use crate::rows::{Asserts, Played, Row, result};
use crate::texts::{AnswerText, EffectText, PathText};
use crate::words::call_of;
use is::{Answer, Call, DefaultSha1HmacProvider, Entry, IceAgent, Path, RunLog, Side, run};
use std::alloc::Global;

type Agent = IceAgent<DefaultSha1HmacProvider>;

/// Adds the calls of a line.
fn add_calls(alloc: Global, file: &str, line: &str, calls: &mut Vec<Call>) -> Option<()> {
    for word in line_of(line).words.split_whitespace() {
        let (_, call) = call_of(alloc, file, word)?;
        calls.push(call).ok()?;
    }
    Some(())
}

fn calls_of(alloc: Global, file: &str, block: &str) -> Option<Vec<Call>> {
    let mut calls = Vec::new(alloc);
    for line in block.lines() {
        if is_played(line) {
            add_calls(alloc, file, line, &mut calls)?;
        }
    }
    Some(calls)
}

fn row_of(alloc: Global, entry: &Entry, asserts: Asserts) -> Option<Row> {
    let effect = EffectText {
        issued: if asserts.issues { entry.issued } else { None },
        selected: if asserts.selects {
            entry.announced
        } else {
            [None, None]
        },
        roles: None,
    };
    Some(Row {
        answer: format!(in alloc; "{}", AnswerText(&entry.answer)).ok()?,
        effect: format!(in alloc; "{effect}").ok()?,
    })
}

/// The rows of the entries, which are numbered in order.
fn rows_of(alloc: Global, log: &RunLog, asserts: Asserts) -> Option<Vec<Row>> {
    let mut rows = Vec::new(alloc);
    for (number, entry) in log.entries.iter().enumerate() {
        if entry.number != number {
            return None;
        }
        rows.push(row_of(alloc, entry, asserts)?).ok()?;
    }
    if log.stopped { None } else { Some(rows) }
}

/// Of the selected pair: the round-trip time of the last response, the total, and the number of responses.
fn figures(alloc: Global, agent: &Agent) -> Option<String> {
    let last = agent.nominated_pair_rtt()?.0;
    let total = agent.nominated_pair_total_rtt()?.0;
    let count = agent.nominated_pair_responses_received()?;
    format!(in alloc; "last {last} ns, total {total} ns, {count} responses").ok()
}

fn remotes(agent: &Agent) -> usize {
    let mut count: usize = 0;
    for _ in agent.remote_candidates() {
        count = count.saturating_add(1);
    }
    count
}

/// The path and the length of the packet that the entry polled.
fn polled(alloc: Global, log: &RunLog, number: &str) -> Option<String> {
    match &log.entries.get(number.parse::<usize>().ok()?)?.answer {
        Answer::Transmit(Some(packet)) => {
            let path = Path {
                proto: packet.proto,
                source: packet.source,
                destination: packet.destination,
            };
            format!(in alloc; "{}, {} bytes", PathText(path), packet.contents.len()).ok()
        }
        _ => None,
    }
}

/// The result of a query.
fn result_of(
    alloc: Global,
    agent: &Agent,
    log: &RunLog,
    rows: &[Row],
    query: &str,
) -> Option<String> {
    let (name, value) = query.split_once(' ').unwrap_or((query, ""));
    match name {
        "viable" => {
            let viable = agent.has_viable_remote_candidate(address_of(value)?);
            format!(in alloc; "{viable}").ok()
        }
        "controlling" => format!(in alloc; "{}", agent.controlling()).ok(),
        "figures" => figures(alloc, agent),
        "remotes" => format!(in alloc; "{}", remotes(agent)).ok(),
        "pairs" => format!(in alloc; "{}", agent.candidate_pair_count()).ok(),
        "polled" => polled(alloc, log, value),
        _ => result(alloc, rows, query),
    }
}

fn results_of(
    alloc: Global,
    agent: &Agent,
    log: &RunLog,
    rows: &[Row],
    block: &str,
) -> Option<Vec<String>> {
    let mut results = Vec::new(alloc);
    for line in block.lines() {
        if let Some(query) = line.strip_prefix("? ") {
            let query = line_of(query).words;
            results
                .push(result_of(alloc, agent, log, rows, query)?)
                .ok()?;
        }
    }
    Some(results)
}

/// The agent of the line `agent UFRAG/PASSWORD TIE-BREAKER`.
fn agent_of(alloc: Global, block: &str) -> Option<Agent> {
    let (name, number) = after(block, "agent")?.split_once(' ')?;
    Agent::new(
        alloc,
        creds(alloc, Side::A, name).ok()?,
        number.parse::<u64>().ok()?,
    )
    .ok()
}

/// Runs the calls on the agent.
fn play_on(alloc: Global, agent: &mut Agent, calls: Vec<Call>, block: &str) -> Option<Played> {
    let log = run(agent, calls, &mut random(Side::A));
    let rows = rows_of(alloc, &log, Asserts::of(block))?;
    let results = results_of(alloc, agent, &log, &rows, block)?;
    Some(Played { rows, results })
}

/// Runs the calls of the story on a new agent.
pub fn play(alloc: Global, file: &str, block: &str) -> Option<Played> {
    let calls = calls_of(alloc, file, block)?;
    match agent_of(alloc, block) {
        Some(mut agent) => play_on(alloc, &mut agent, calls, block),
        None => None,
    }
}
