// Commits that are played and loaded.

use gz_app::{Kept, State};
use gz_label::Name;
use gz_playback::{PlayError, Player};
use gz_recovery::{Fsm, Op, OpKind, Recorder, Text};
use gz_sequencer::{ProducerMark, SourcePoint};
use gz_store::{Checkpoint, Intent, LoadError, Source, commit_ops, load, print_ops, print_store};
use gz_uuid::ProducerId;
use std::alloc::Global;
use std::collections::BTreeMap;
use std::test::Fail;

fn name(alloc: Global, text: &str) -> Result<Name, Fail> {
    Ok(Name::read(alloc, text.as_bytes())?)
}

// A state with a number of one key.
fn state(alloc: Global, key: &str, number: u64) -> Result<State, Fail> {
    let mut state = State::new(alloc);
    state.keep(name(alloc, key)?, Kept::Number(number))?;
    Ok(state)
}

// A checkpoint with one acknowledgement and one source, which has read of one producer.
fn checkpoint(alloc: Global) -> Result<Checkpoint, Fail> {
    let mut producers = BTreeMap::new(alloc);
    let mark = ProducerMark {
        ack: None,
        pending: Some(5),
    };
    producers.insert(ProducerId::client(1).ok_or("producer")?, mark)?;
    let mut sources = Vec::new(alloc);
    sources.push(Source {
        journal: name(alloc, "a")?,
        point: SourcePoint::of(7, producers),
    })?;
    let mut intents = Vec::new(alloc);
    intents.push(Intent {
        journal: name(alloc, "b")?,
        line: Text::of(alloc, "{}\n")?,
    })?;
    Ok(Checkpoint { sources, intents })
}

// Feeds operations to the player.
fn play(alloc: Global, player: &mut Player, ops: &[Op]) -> Result<(), Fail> {
    let bytes = print_ops(alloc, ops)?;
    let at = player.at();
    if at > 1 << 40 || bytes.len() > 1 << 40 {
        return Err("long log".into());
    }
    match player.feed(at, bytes.as_slice()) {
        Ok(()) => Ok(()),
        Err(PlayError::BadLog { .. }) => Err("bad log".into()),
        Err(PlayError::NoMemory) => Err("no memory".into()),
    }
}

// A player that was fed a handoff to author 7, who numbers on.
fn begun(alloc: Global) -> Result<(Player, Recorder), Fail> {
    let mut player = Player::new(alloc, 0, Fsm::new(alloc));
    let mut recorder = Recorder::new(7, player.fsm());
    let op = recorder.next_op(OpKind::Handoff)?;
    play(alloc, &mut player, &[op])?;
    Ok((player, recorder))
}

// The text of what is loaded.
fn loaded(alloc: Global, player: &Player) -> Result<String, Fail> {
    match load(alloc, player.fsm()) {
        Ok(store) => Ok(print_store(alloc, &store.checkpoint, &store.state)?),
        Err(e) => Err(e.into()),
    }
}

// Why nothing is loaded.
fn failed(alloc: Global, player: &Player) -> Option<LoadError> {
    match load(alloc, player.fsm()) {
        Ok(_) => None,
        Err(e) => Some(e),
    }
}

#[test]
fn commits_come_back(rt: HostRuntime) -> Result<(), Fail> {
    let alloc = rt.alloc();
    let (mut player, mut recorder) = begun(alloc)?;
    assert_eq!(rt; failed(alloc, &player), Some(LoadError::NoState));
    let checkpoint = checkpoint(alloc)?;
    for number in [1, 18_446_744_073_709_551_615] {
        let state = state(alloc, "k", number)?;
        let ops = commit_ops(alloc, &mut recorder, &state, &checkpoint)?;
        play(alloc, &mut player, ops.as_slice())?;
        let text = print_store(alloc, &checkpoint, &state)?;
        assert_eq!(rt; loaded(alloc, &player)?.as_str(), text.as_str());
        assert_eq!(rt; player.fsm().next(), recorder.next());
        assert!(rt; player.fsm().file(1).is_none());
    }
    Ok(())
}

// A text of so many é, each of which has two bytes.
fn long(alloc: Global, count: usize) -> Result<String, Fail> {
    let mut text = String::new(alloc);
    for _i in 0..count {
        text.push('é')?;
    }
    Ok(text)
}

// How many bytes the operation writes.
fn written(op: &Op) -> usize {
    match op.kind() {
        OpKind::Write { text, .. } => text.as_str().len(),
        _ => 0,
    }
}

// The text has 80,174 bytes, and its byte 65,536 goes on with an é.
#[test]
fn long_texts_are_cut_at_characters(rt: HostRuntime) -> Result<(), Fail> {
    let alloc = rt.alloc();
    let (mut player, mut recorder) = begun(alloc)?;
    let text = long(alloc, 40_000)?;
    let kept = Kept::Text(gz_app::Text::of(alloc, text.as_str())?);
    let mut state = State::new(alloc);
    state.keep(name(alloc, "kk")?, kept)?;
    let checkpoint = checkpoint(alloc)?;
    let ops = commit_ops(alloc, &mut recorder, &state, &checkpoint)?;
    let text = print_store(alloc, &checkpoint, &state)?;
    let mut lens = Vec::new(alloc);
    for op in ops.as_slice() {
        lens.push(written(op))?;
    }
    assert_eq!(rt; lens.as_slice(), [0, 65_535, 14_639, 0, 0].as_slice());
    play(alloc, &mut player, ops.as_slice())?;
    assert_eq!(rt; loaded(alloc, &player)?.as_str(), text.as_str());
    Ok(())
}

#[test]
fn bad_states(rt: HostRuntime) -> Result<(), Fail> {
    let alloc = rt.alloc();
    let (mut player, mut recorder) = begun(alloc)?;
    let path = name(alloc, "state")?;
    let op = recorder.next_op(OpKind::Create { path })?;
    play(alloc, &mut player, &[op])?;
    assert_eq!(rt; failed(alloc, &player), Some(LoadError::BadState));
    Ok(())
}
