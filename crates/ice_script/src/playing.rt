//! A script over any reader and two writers.
use crate::calls::{Call, ScriptCall, Sent};
use crate::fault::{Ended, Fault, Stop};
use crate::preference::FixedPreference;
use crate::print::{AnswerText, EventText, HexText, TimeoutText};
use crate::reading::read_script;
use crate::script::{ScriptLine, Side};
use ice_counter::Counter;
use is::{
    Answer, DefaultSha1HmacProvider, IceAgentEvent, IceCreds, IceError, Instant, SocketText,
    Transmit, run,
};
use std::alloc::Global;
use std::io::{Read, Write};

type Agent = is_agent::Agent<DefaultSha1HmacProvider, FixedPreference>;

/// Plays a script, and returns the exit status: 0 if every line was played; 1 if one could not be; 2 if it runs out of memory,
/// if a read or a write fails, or if the input is longer than 16777216 bytes or not UTF-8. Why it is not 0 is written to `errors`,
/// after the output.
///
/// The whole input is read before the first line is played.
pub fn play<R: Read, W: Write, E: Write>(
    alloc: Global,
    input: &mut R,
    output: &mut W,
    errors: &mut E,
) -> u8 {
    match play_input(alloc, input, output) {
        Ok(()) => 0,
        Err(ended) => match writeln!(errors, "{ended}") {
            Ok(()) => ended.stop.status(),
            Err(_) => 2,
        },
    }
}

/// Plays what the input has, and writes all that is printed.
fn play_input<R: Read, W: Write>(
    alloc: Global,
    input: &mut R,
    output: &mut W,
) -> Result<(), Ended> {
    let text = read_script(alloc, input)?;
    let played = play_text(alloc, text.as_str(), output);
    match output.flush() {
        Ok(()) => played,
        Err(error) => Err(Ended {
            line: None,
            stop: Stop::Writing(error),
        }),
    }
}

/// An agent of a script.
#[derive(Drop)]
struct Player {
    /// From the line on that makes it.
    agent: Option<Agent>,
    /// How many calls were made since all packets were polled. A call issues at most one packet, so no more of them wait.
    unpolled: usize,
}

impl Player {
    fn new() -> Player {
        Player {
            agent: None,
            unpolled: 0,
        }
    }
}

/// What the agents share.
#[derive(Drop)]
struct Shared {
    random: Counter,
    /// The packets that both agents sent, in order.
    sent: Vec<Sent>,
}

/// Plays the lines of a script, starting without agents.
fn play_text<W: Write>(alloc: Global, text: &str, output: &mut W) -> Result<(), Ended> {
    let mut players = [Player::new(), Player::new()];
    let mut shared = Shared {
        random: Counter::new(),
        sent: Vec::new(alloc),
    };
    play_lines(alloc, text, &mut players, &mut shared, output)
}

/// Plays the lines in turn, until one can't be played.
fn play_lines<W: Write>(
    alloc: Global,
    text: &str,
    players: &mut [Player; 2],
    shared: &mut Shared,
    output: &mut W,
) -> Result<(), Ended> {
    let mut number = 0u64;
    for line in text.split('\n') {
        number = number.saturating_add(1);
        if let Err(stop) = play_line(alloc, line, players, shared, output) {
            return Err(Ended {
                line: Some(number),
                stop,
            });
        }
    }
    Ok(())
}

fn play_line<W: Write>(
    alloc: Global,
    text: &str,
    players: &mut [Player; 2],
    shared: &mut Shared,
    output: &mut W,
) -> Result<(), Stop> {
    if text.is_empty() {
        return Ok(());
    }
    let line = ScriptLine::read(alloc, text)?;
    match line.side {
        Side::A => play_on(alloc, &line, &mut players[0], shared, output),
        Side::B => play_on(alloc, &line, &mut players[1], shared, output),
    }
}

/// Plays a line on the agent that it names.
fn play_on<W: Write>(
    alloc: Global,
    line: &ScriptLine,
    player: &mut Player,
    shared: &mut Shared,
    output: &mut W,
) -> Result<(), Stop> {
    if player.agent.is_none() && !line.makes_agent() {
        return Err(Stop::Line(Fault::NoAgent(line.side)));
    }
    let call = line.call(alloc, &shared.sent)?;
    let answer = answer(
        alloc,
        line.side,
        &mut player.agent,
        call,
        &mut shared.random,
    )?;
    // after this no allocation can fail, so that a line is printed whole or not at all
    player.unpolled = player.unpolled.saturating_add(1);
    shared.sent.reserve(player.unpolled)?;
    writeln!(
        output,
        "{} {} {}",
        line.side,
        line.word(),
        AnswerText(&answer)
    )?;
    print_polled(line.side, answer, &mut shared.sent, output)?;
    match &mut player.agent {
        Some(agent) if line.polls() => {
            player.unpolled = 0;
            poll(line.side, agent, &mut shared.sent, output)
        }
        _ => Ok(()),
    }
}

fn answer(
    alloc: Global,
    side: Side,
    agent: &mut Option<Agent>,
    call: ScriptCall,
    random: &mut Counter,
) -> Result<Answer, Stop> {
    match call {
        ScriptCall::Agent { creds, tie_breaker } => make(alloc, agent, creds, tie_breaker),
        ScriptCall::Call(call) => make_call(alloc, side, agent, call, random),
        ScriptCall::Rejected(error) => Ok(Answer::Refused(error)),
    }
}

/// Makes or replaces an agent. If this fails, the previous agent stays.
fn make(
    alloc: Global,
    agent: &mut Option<Agent>,
    creds: IceCreds,
    tie_breaker: u64,
) -> Result<Answer, Stop> {
    match Agent::new(alloc, creds, tie_breaker) {
        Ok(made) => {
            *agent = Some(made);
            Ok(Answer::Done)
        }
        Err(error) => rejected(error),
    }
}

/// Makes one call of the agent.
fn make_call(
    alloc: Global,
    side: Side,
    agent: &mut Option<Agent>,
    call: Call,
    random: &mut Counter,
) -> Result<Answer, Stop> {
    let Some(agent) = agent else {
        return Err(Stop::Line(Fault::NoAgent(side)));
    };
    let mut log = run(agent, vec![in alloc; call]?, random);
    match log.entries.pop() {
        Some(entry) => match entry.answer {
            Answer::Refused(error) => rejected(error),
            answer => Ok(answer),
        },
        None => Err(Stop::OutOfMemory),
    }
}

/// The result of a call that fails, except out of memory, which ends the script.
fn rejected(error: IceError) -> Result<Answer, Stop> {
    match error {
        IceError::OutOfMemory => Err(Stop::OutOfMemory),
        error => Ok(Answer::Refused(error)),
    }
}

/// Prints what the agent returns: packets, then events, then its next timeout.
fn poll<W: Write>(
    side: Side,
    agent: &mut Agent,
    sent: &mut Vec<Sent>,
    output: &mut W,
) -> Result<(), Stop> {
    while let Some(packet) = agent.poll_transmit() {
        print_packet(side, packet, sent, output)?;
    }
    while let Some(event) = agent.poll_event() {
        print_event(side, &event, output)?;
    }
    print_timeout(side, agent.poll_timeout(), output)
}

/// Prints what a single poll returned, if anything.
fn print_polled<W: Write>(
    side: Side,
    answer: Answer,
    sent: &mut Vec<Sent>,
    output: &mut W,
) -> Result<(), Stop> {
    match answer {
        Answer::Transmit(Some(packet)) => print_packet(side, packet, sent, output),
        Answer::Event(Some(event)) => print_event(side, &event, output),
        Answer::Wake(Some(time)) => print_timeout(side, Some(time), output),
        _ => Ok(()),
    }
}

/// Prints a packet that is sent, and keeps it to be delivered.
fn print_packet<W: Write>(
    side: Side,
    packet: Transmit,
    sent: &mut Vec<Sent>,
    output: &mut W,
) -> Result<(), Stop> {
    let source = SocketText(packet.source);
    let destination = SocketText(packet.destination);
    let bytes = HexText(&packet.contents);
    let proto = packet.proto;
    let number = sent.len();
    writeln!(
        output,
        "{side} send {number} {proto} {source} {destination} {bytes}"
    )?;
    sent.push(Sent { side, packet })?;
    Ok(())
}

fn print_event<W: Write>(side: Side, event: &IceAgentEvent, output: &mut W) -> Result<(), Stop> {
    writeln!(output, "{side} event {}", EventText(event))?;
    Ok(())
}

fn print_timeout<W: Write>(side: Side, time: Option<Instant>, output: &mut W) -> Result<(), Stop> {
    writeln!(output, "{side} wake {}", TimeoutText(time))?;
    Ok(())
}
