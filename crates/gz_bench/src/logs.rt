//! Work with recovery logs.

use gz_app::{Kept, State};
use gz_label::{Blob, Name, NoMemory};
use gz_playback::{PlayError, Player};
use gz_recovery::{Fsm, Op, OpKind, Recorder, Text};
use gz_store::{Checkpoint, commit_ops, load, print_ops};
use std::alloc::Global;

/// Whose logs they are.
const AUTHOR: u64 = 7;

/// How many keys a state has that is committed.
const KEYS: u64 = 10_000;

/// How many bytes are fed at once, or an operation more.
const PIECE: usize = 65_536;

/// The text of a write, and how many bytes it has.
const TEXT: &str = "0123456789";

const LEN: u64 = 10;

/// The greatest offset, and the most bytes, of which a player takes more.
const MOST: u64 = 1 << 61;

/// Feeds the bytes to the player, and answers whether they were taken. There are none then.
fn feed(player: &mut Player, bytes: &mut Blob) -> Result<bool, NoMemory> {
    let at = player.at();
    if at > MOST || bytes.len() as u64 > MOST {
        return Ok(false);
    }
    match player.feed(at, bytes.as_slice()) {
        Ok(()) => {}
        Err(PlayError::BadLog { .. }) => return Ok(false),
        Err(PlayError::NoMemory) => return Err(NoMemory),
    }
    bytes.truncate(0);
    Ok(true)
}

/// What the operation of a turn does: a handoff, a new file, and then writes to its end.
fn kind(alloc: Global, turn: u32) -> Result<OpKind, NoMemory> {
    match turn {
        0 => Ok(OpKind::Handoff),
        1 => Ok(OpKind::Create {
            path: Name::of(alloc, "a")?,
        }),
        _ => Ok(OpKind::Write {
            fnode: 2,
            offset: (turn as u64 - 2).wrapping_mul(LEN),
            text: Text::of(alloc, TEXT)?,
        }),
    }
}

/// Puts operations at the end of the bytes, as they are appended to a log.
fn push(alloc: Global, ops: &[Op], bytes: &mut Blob) -> Result<(), NoMemory> {
    let Ok(frames) = print_ops(alloc, ops) else {
        return Err(NoMemory);
    };
    bytes.append(frames.as_slice())
}

/// Puts the next operation at the end of the bytes.
fn push_next(
    alloc: Global,
    recorder: &mut Recorder,
    kind: OpKind,
    bytes: &mut Blob,
) -> Result<(), NoMemory> {
    let Ok(op) = recorder.next_op(kind) else {
        return Ok(());
    };
    push(alloc, &[op], bytes)
}

/// Writes so many operations to a log, all but two of which make one file grow, and plays it. Answers how many were
/// accepted.
pub fn play_all(alloc: Global, count: u32) -> Result<u64, NoMemory> {
    let mut player = Player::new(alloc, 0, Fsm::new(alloc));
    let mut recorder = Recorder::new(AUTHOR, player.fsm());
    let mut bytes = Blob::new(alloc);
    for turn in 0..count {
        let kind = kind(alloc, turn)?;
        push_next(alloc, &mut recorder, kind, &mut bytes)?;
        if bytes.len() >= PIECE && !feed(&mut player, &mut bytes)? {
            return Ok(0);
        }
    }
    if !feed(&mut player, &mut bytes)? {
        return Ok(0);
    }
    Ok(player.fsm().next().saturating_sub(1))
}

/// A key with these digits.
fn key_of(alloc: Global, number: u64) -> Result<Name, NoMemory> {
    let digits = format!(in alloc; "{number:05}")?;
    match Name::read(alloc, digits.as_str().as_bytes()) {
        Ok(key) => Ok(key),
        Err(_) => Err(NoMemory),
    }
}

/// A state with a number for each key.
fn state(alloc: Global) -> Result<State, NoMemory> {
    let mut state = State::new(alloc);
    for number in 0..KEYS {
        let key = key_of(alloc, number)?;
        state.keep(key, Kept::Number(number))?;
    }
    Ok(state)
}

/// Puts the operations that commit the state at the end of the bytes.
fn push_commit(
    alloc: Global,
    recorder: &mut Recorder,
    state: &State,
    bytes: &mut Blob,
) -> Result<(), NoMemory> {
    let checkpoint = Checkpoint {
        sources: Vec::new(alloc),
        intents: Vec::new(alloc),
    };
    let Ok(ops) = commit_ops(alloc, recorder, state, &checkpoint) else {
        return Err(NoMemory);
    };
    push(alloc, ops.as_slice(), bytes)
}

/// Commits a state of many keys so many times, plays the log, and loads each commit. Answers how many were loaded.
pub fn commit_all(alloc: Global, count: u32) -> Result<u64, NoMemory> {
    let state = state(alloc)?;
    let mut player = Player::new(alloc, 0, Fsm::new(alloc));
    let mut recorder = Recorder::new(AUTHOR, player.fsm());
    let mut bytes = Blob::new(alloc);
    push_next(alloc, &mut recorder, OpKind::Handoff, &mut bytes)?;
    let mut found = 0u64;
    for _turn in 0..count {
        push_commit(alloc, &mut recorder, &state, &mut bytes)?;
        if !feed(&mut player, &mut bytes)? {
            return Ok(found);
        }
        if load(alloc, player.fsm()).is_ok() {
            found = found.saturating_add(1);
        }
    }
    Ok(found)
}
