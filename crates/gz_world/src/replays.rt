//! Replays of the lines of a source.
ghost use Rattle.std.specs.Prelude.{◌≡◌, ◌≢◌, ◌≤◌, ◌+◌, ◌<◌, length, Ok, Err, Some, IfOk, OnOk, IsErr, IsTrue, option_map};
ghost use Rattle.std.specs.Io.KnownBytes.{IsAtEnd};
ghost use Rattle.gz_model.specs.Faults.{HasRisen};
ghost use Rattle.gz_model.specs.Told.{ahead};
ghost use Rattle.gz_scenario.specs.Events.{event_of};
ghost use Rattle.gz_scenario.specs.Lawful.{is_event};
ghost use Rattle.gz_world.specs.Worlds.{IsRun};
ghost use Rattle.gz_world.specs.Run.{judged, judged_first, started, scenario_of, IsRunIf, refusal_line as line_of};
ghost use Rattle.gz_world.specs.Replays.{refused_or, Gives, GivesValue};
ghost use Rattle.gz_world.specs.Told.{HasOutcome, ReadsOn, TakesNext};

use crate::world::World;
use gz_base::{LineError, LineReader, Source};
use gz_label::{Blob, NoMemory};
use gz_scenario::{Event, ScenarioError, read_event};
use std::alloc::Global;
use std::error::Error;
use std::fmt;

/// The most bytes of a line, with its newline.
const MAX_LINE: usize = 4_194_304;

/// The most bytes of an input.
const MAX_INPUT: u64 = 134_217_728;

/// Why a replay has no world.
#[derive(Debug, Drop)]
pub enum ReplayError {
    /// A line is refused.
    Refused(ScenarioError),
    /// The source failed.
    Fault,
    NoMemory,
}

impl fmt::Display for ReplayError {
    fn fmt<W: fmt::Write>(&self, f: &mut fmt::Formatter<W>) -> fmt::Result {
        match self {
            ReplayError::Refused(error) => write!(f, "{error}"),
            ReplayError::Fault => write!(f, "the input can't be read"),
            ReplayError::NoMemory => write!(f, "no memory"),
        }
    }
}

impl Error for ReplayError {}

impl From<NoMemory> for ReplayError {
    ghost use Rattle.std.specs.Prelude.{◌≡◌};
    ghost use Rattle.gz_world.specs.declared.replays.ReplayError.TheVariants.{NoMemory};

    ghost from_gives = { λ _ e. e ≡ NoMemory };

    fn from(_e: NoMemory) -> ReplayError {
        ReplayError::NoMemory
    }
}

/// The refusal of a line, or out of memory.
fn refused_or(error: ScenarioError) -> ReplayError
    ensures { result ≡ refused_or error }
{
    match error {
        ScenarioError::NoMemory => ReplayError::NoMemory,
        ScenarioError::Limit { line } => ReplayError::Refused(ScenarioError::Limit { line }),
        ScenarioError::NotJson { line } => ReplayError::Refused(ScenarioError::NotJson { line }),
        ScenarioError::Unknown { line } => ReplayError::Refused(ScenarioError::Unknown { line }),
        ScenarioError::BadField { line, path } => {
            ReplayError::Refused(ScenarioError::BadField { line, path })
        }
    }
}

/// The event that a line says.
#[tactic(auto, using(crate::proofs::Lines::read_gives))]
fn read_line(alloc: Global, number: u64, line: &[u8]) -> Result<Event, ReplayError>
    ensures gives { GivesValue (λ event. event) result (event_of number line.now) }
    ensures lawful { IfOk result (λ event. IsTrue (is_event event)) }
{
    match read_event(alloc, number, line) {
        Ok(event) => Ok(event),
        Err(error) => Err(refused_or(error)),
    }
}

/// The world that the first line starts.
fn begin(alloc: Global, line: &[u8]) -> Result<World, ReplayError>
    ensures gives { GivesValue scenario_of result (judged_first line.now) }
    ensures run { IfOk result (λ world. IsRun world) }
{
    match read_line(alloc, 1, line)? {
        Event::Specs(specs) => {
            let world = World::start(alloc, specs)?;
            Ok(world)
        }
        Event::Publish(_)
        | Event::Settle
        | Event::Converge
        | Event::Apply(_)
        | Event::Join(_)
        | Event::Expire(_) => Err(ReplayError::Refused(ScenarioError::Unknown { line: 1 })),
    }
}

/// Judges a further line and applies its event.
#[tactic(auto, using(crate::proofs::Lines::within_lines))]
fn advance(
    alloc: Global,
    number: u64,
    before: u64,
    line: &[u8],
    world: &mut World,
) -> Result<(), ReplayError>
    requires before { before ≤ 134217728 }
    requires run { IsRun world.old }
    ensures gives { Gives (scenario_of world.new) result
        (judged number before line.now (scenario_of world.old)) }
    ensures run { OnOk result (IsRun world.new) }
    ensures within { OnOk result ((number ≤ 65536) × (before + length line.now ≤ 134217728)) }
{
    if line.len() as u64 > MAX_INPUT - before {
        return Err(ReplayError::Refused(ScenarioError::Limit { line: number }));
    }
    let event = read_line(alloc, number, line)?;
    world.apply(alloc, number, &event)?;
    Ok(())
}

/// The next line, whose number it is given.
fn take_line<S: Source>(
    alloc: Global,
    reader: &mut LineReader,
    input: &mut S,
    number: u64,
) -> Result<Option<Blob>, ReplayError>
    ensures next { TakesNext result number (ahead reader.old (S.left input.old))
        (ahead reader.new (S.left input.new)) (S.left input.new) }
    ensures faults_stay { S.faults input.old ≤ S.faults input.new }
    ensures fault { result ≡ Err ReplayError.Fault →
        HasRisen (S.faults input.old) (S.faults input.new) }
{
    match reader.next_line(alloc, input, MAX_LINE) {
        Ok(line) => Ok(line),
        Err(LineError::TooLong) => Err(ReplayError::Refused(ScenarioError::Limit { line: number })),
        Err(LineError::Fault) => Err(ReplayError::Fault),
        Err(LineError::NoMemory) => Err(ReplayError::NoMemory),
    }
}

/// Goes on with the lines after the first one, which had so many bytes.
fn go_on<S: Source>(
    alloc: Global,
    reader: &mut LineReader,
    input: &mut S,
    first: u64,
    world: &mut World,
) -> Result<(), ReplayError>
    requires first { first ≤ 134217728 }
    requires run { IsRun world.old }
    ensures done { OnOk result
        (ReadsOn (ahead reader.old (S.left input.old)) first (scenario_of world.old)
        (Ok (scenario_of world.new))) }
    ensures run { OnOk result (IsRun world.new) }
    ensures end { OnOk result (IsAtEnd (S.left input.new)) }
    ensures refused { (refusal : ScenarioError) → result ≡ Err (ReplayError.Refused refusal) →
        ReadsOn (ahead reader.old (S.left input.old)) first (scenario_of world.old) (Err refusal) }
    ensures faults_stay { S.faults input.old ≤ S.faults input.new }
    ensures fault { result ≡ Err ReplayError.Fault →
        HasRisen (S.faults input.old) (S.faults input.new) }
{
    let mut number = 2;
    let mut before = first;
    'lines: loop {
        let next = take_line(alloc, reader, input, number)?;
        let Some(line) = next else {
            return Ok(());
        };
        advance(alloc, number, before, line.as_slice(), world)?;
        before += line.len() as u64;
        number += 1;
    }
}

/// Replays an input: reads a line, judges it, applies its event, and only then reads the next one. The
/// first line starts the world; an empty input starts none.
pub fn replay<S: Source>(alloc: Global, input: &mut S) -> Result<Option<World>, ReplayError>
    ensures done { IfOk result
        (λ world. HasOutcome (S.left input.old) (Ok (option_map scenario_of world))) }
    ensures run { IfOk result (λ world. IsRunIf world) }
    ensures end { OnOk result (IsAtEnd (S.left input.new)) }
    ensures refused { (refusal : ScenarioError) → result ≡ Err (ReplayError.Refused refusal) →
        HasOutcome (S.left input.old) (Err refusal) }
    ensures faults_stay { S.faults input.old ≤ S.faults input.new }
    ensures fault { result ≡ Err ReplayError.Fault →
        HasRisen (S.faults input.old) (S.faults input.new) }
{
    let mut reader = LineReader::new(alloc)?;
    let next = take_line(alloc, &mut reader, input, 1)?;
    let Some(line) = next else {
        return Ok(None);
    };
    let mut world = begin(alloc, line.as_slice())?;
    let first = line.len() as u64;
    go_on(alloc, &mut reader, input, first, &mut world)?;
    Ok(Some(world))
}

/// What is said of a refused line: its number and the reason, and a newline.
pub fn refusal_line(alloc: Global, refusal: &ScenarioError) -> Result<Blob, NoMemory>
    ensures { IfOk result (λ text. text ≡ line_of refusal.now) }
{
    let mut text = refusal.print(alloc)?;
    text.append(b"\n")?;
    Ok(text)
}
