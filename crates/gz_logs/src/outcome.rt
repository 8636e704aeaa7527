//! What comes of a log, as rows have it.
//!
//! `author` (or null) and `next` are those of the machine, and `log` is the log. Where no frame is bad, `files` has path
//! and text of each file, `head` says whether the player is at the head of a log of just these bytes, and `load` what is
//! loaded. Where one is, `bad` is its offset.

use crate::values::{bytes, optional, pair, put, store, text, text_of};
use gz_label::NoMemory;
use gz_playback::{PlayError, Player};
use gz_recovery::Fsm;
use gz_store::{LoadError, load};
use serde_json::{Map, Value};
use std::alloc::Global;

/// The greatest offset, and the most bytes, of which a player takes more.
const MOST: u64 = 1 << 61;

/// The player of a log, and the offset of the first bad frame, if there is one.
#[derive(Drop)]
struct Played {
    player: Player,
    bad: Option<u64>,
}

/// Feeds the next piece. The offset of the bad frame, if one is met; None where the log is too long to be played.
fn feed(player: &mut Player, piece: &[u8]) -> Result<Option<Option<u64>>, NoMemory> {
    let at = player.at();
    if at > MOST || piece.len() as u64 > MOST {
        return Ok(None);
    }
    match player.feed(at, piece) {
        Ok(()) => Ok(Some(None)),
        Err(PlayError::BadLog { offset }) => Ok(Some(Some(offset))),
        Err(PlayError::NoMemory) => Err(NoMemory),
    }
}

/// Plays the log in pieces of so many bytes. None where it is too long to be played.
fn play(alloc: Global, log: &[u8], size: usize) -> Result<Option<Played>, NoMemory> {
    let mut player = Player::new(alloc, 0, Fsm::new(alloc));
    for piece in log.chunks(size.max(1)) {
        match feed(&mut player, piece)? {
            None => return Ok(None),
            Some(None) => {}
            Some(bad) => return Ok(Some(Played { player, bad })),
        }
    }
    Ok(Some(Played { player, bad: None }))
}

/// Path and text of each file, in path order.
fn files(alloc: Global, fsm: &Fsm) -> Result<Value, NoMemory> {
    let mut files = Vec::new(alloc);
    for place in 0..usize::MAX {
        let Some((path, content)) = fsm.file(place) else {
            return Ok(Value::Array(files));
        };
        let path = text(alloc, path.as_str())?;
        let content = text_of(alloc, content.as_slice())?;
        files.push(pair(alloc, path, content)?)?;
    }
    Ok(Value::Array(files))
}

/// What is loaded, or why nothing is.
fn loaded(alloc: Global, fsm: &Fsm) -> Result<Value, NoMemory> {
    match load(alloc, fsm) {
        Ok(found) => store(alloc, &found),
        Err(LoadError::NoState) => text(alloc, "no state"),
        Err(LoadError::BadState) => text(alloc, "bad state"),
        Err(LoadError::NoMemory) => Err(NoMemory),
    }
}

/// Puts what came of a log without a bad frame.
fn put_whole(
    alloc: Global,
    members: &mut Map<String, Value>,
    player: &Player,
    head: u64,
) -> Result<(), NoMemory> {
    let files = files(alloc, player.fsm())?;
    put(alloc, members, "files", files)?;
    put(alloc, members, "head", Value::Bool(player.at_head(head)))?;
    let loaded = loaded(alloc, player.fsm())?;
    put(alloc, members, "load", loaded)?;
    Ok(())
}

/// The row of the log that was played.
fn row_of_played(alloc: Global, log: &[u8], played: &Played) -> Result<Value, NoMemory> {
    let fsm = played.player.fsm();
    let mut members = Map::new(alloc);
    put(alloc, &mut members, "author", optional(fsm.author()))?;
    match played.bad {
        Some(offset) => put(alloc, &mut members, "bad", Value::from(offset))?,
        None => put_whole(alloc, &mut members, &played.player, log.len() as u64)?,
    }
    put(alloc, &mut members, "log", bytes(alloc, log)?)?;
    put(alloc, &mut members, "next", Value::from(fsm.next()))?;
    Ok(Value::from(members))
}

/// The row of the log, played in pieces of so many bytes. None where it is too long to be played.
pub fn row_of(alloc: Global, log: &[u8], size: usize) -> Result<Option<Value>, NoMemory> {
    match play(alloc, log, size)? {
        Some(played) => Ok(Some(row_of_played(alloc, log, &played)?)),
        None => Ok(None),
    }
}
