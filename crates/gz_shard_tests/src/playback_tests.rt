// A log played in pieces, cut at every byte, and with a bad frame behind it; and what a handoff asks.

use gz_frame::{FrameError, frame_fixed};
use gz_journal::{Landed, Request};
use gz_label::{Attempt, Blob, LabelSet, Name};
use gz_playback::{Learnt, PlayError, Player};
use gz_recovery::Fsm;
use std::alloc::Global;
use std::test::Fail;

// How many operations the log has.
const COUNT: usize = 9;

// The content of the log's operation at this place. The one at place 2 is of another author, and is passed over. The
// link at place 6 is to the path of an earlier link, whose node has another path left.
fn content(place: usize) -> &'static str {
    match place {
        0 => "{\"author\":\"0000000000000007\",\"op\":\"handoff\",\"seq\":1}",
        1 => "{\"author\":\"0000000000000007\",\"op\":\"create\",\"path\":\"a\",\"seq\":2}",
        2 => "{\"author\":\"0000000000000008\",\"op\":\"create\",\"path\":\"b\",\"seq\":3}",
        3 =>
            "{\"author\":\"0000000000000007\",\"fnode\":2,\"op\":\"link\",\"path\":\"c\",\"seq\":3}",
        4 => "{\"author\":\"0000000000000007\",\"op\":\"create\",\"path\":\"d\",\"seq\":4}",
        5 => {
            "{\"author\":\"0000000000000007\",\"data\":\"x\",\"fnode\":4,\"offset\":0,\"op\":\"write\",\"seq\":5}"
        }
        6 =>
            "{\"author\":\"0000000000000007\",\"fnode\":4,\"op\":\"link\",\"path\":\"c\",\"seq\":6}",
        7 => {
            "{\"author\":\"0000000000000007\",\"data\":\"p\",\"op\":\"property\",\"path\":\"q\",\"seq\":7}"
        }
        _ => "{\"author\":\"0000000000000007\",\"op\":\"unlink\",\"path\":\"d\",\"seq\":8}",
    }
}

// The number of the next operation after so many of the log's.
fn next_after(count: usize) -> u64 {
    match count {
        0 => 1,
        1 => 2,
        2 | 3 => 3,
        _ => count as u64,
    }
}

fn frame(alloc: Global, content: &str) -> Result<Blob, Fail> {
    match frame_fixed(alloc, content.as_bytes()) {
        Ok(frame) => Ok(frame),
        Err(FrameError::TooLong) => Err("long content".into()),
        Err(_) => Err("no frame".into()),
    }
}

fn frames(alloc: Global) -> Result<Vec<Blob>, Fail> {
    let mut frames = Vec::new(alloc);
    for place in 0..COUNT {
        frames.push(frame(alloc, content(place))?)?;
    }
    Ok(frames)
}

fn joined(alloc: Global, frames: &[Blob]) -> Result<Blob, Fail> {
    let mut log = Blob::new(alloc);
    for frame in frames {
        log.append(frame.as_slice())?;
    }
    Ok(log)
}

fn log(alloc: Global) -> Result<Blob, Fail> {
    let frames = frames(alloc)?;
    joined(alloc, frames.as_slice())
}

// Feeds a piece. The offset of the bad frame, if one is met.
fn feed(player: &mut Player, piece: &[u8]) -> Result<Option<u64>, Fail> {
    let at = player.at();
    if at > 1 << 40 || piece.len() > 1 << 40 {
        return Err("long log".into());
    }
    match player.feed(at, piece) {
        Ok(()) => Ok(None),
        Err(PlayError::BadLog { offset }) => Ok(Some(offset)),
        Err(PlayError::NoMemory) => Err("no memory".into()),
    }
}

// A player that was fed the bytes in pieces of so many. No frame of theirs is bad.
fn played(alloc: Global, bytes: &[u8], size: usize) -> Result<Player, Fail> {
    let mut player = Player::new(alloc, 0, Fsm::new(alloc));
    for piece in bytes.chunks(size.max(1)) {
        if feed(&mut player, piece)?.is_some() {
            return Err("bad log".into());
        }
    }
    Ok(player)
}

// The first files, each as a path, `=` and a text.
fn files_of(alloc: Global, fsm: &Fsm) -> Result<String, Fail> {
    let mut text = String::new(alloc);
    for place in 0..4 {
        if let Some((path, content)) = fsm.file(place) {
            text.push_str(path.as_str())?;
            text.push('=')?;
            text.push_str(str::from_utf8(content.as_slice())?)?;
            text.push(' ')?;
        }
    }
    Ok(text)
}

// What the player has: files, next number, author, and whether it is at the head of a log of so many bytes.
fn outcome(alloc: Global, player: &Player, head: usize) -> Result<String, Fail> {
    let files = files_of(alloc, player.fsm())?;
    let next = player.fsm().next();
    let author = player.fsm().author();
    let at_head = player.at_head(head as u64);
    Ok(format!(in alloc; "{files}next {next} author {author:?} head {at_head}")?)
}

fn outcome_in(alloc: Global, size: usize) -> Result<String, Fail> {
    let log = log(alloc)?;
    let player = played(alloc, log.as_slice(), size)?;
    outcome(alloc, &player, log.len())
}

#[test]
fn pieces(rt: HostRuntime) -> Result<(), Fail> {
    for size in [1, 7, 262_144] {
        let found = outcome_in(rt.alloc(), size)?;
        assert_eq!(rt;
            found.as_str(),
            "a= c=x next 9 author Some(7) head true",
            "in pieces of {size}"
        );
    }
    Ok(())
}

// How many of the frames, and how many bytes, stand whole in so many bytes.
fn whole(frames: &[Blob], len: usize) -> (usize, usize) {
    let mut count: usize = 0;
    let mut end: usize = 0;
    for frame in frames {
        let next = end.saturating_add(frame.len());
        if next > len {
            return (count, end);
        }
        count = count.saturating_add(1);
        end = next;
    }
    (count, end)
}

// Whether the first bytes of the log play to their last whole frame, and are at the head where no part of one is left.
fn plays_whole_frames(
    alloc: Global,
    frames: &[Blob],
    log: &[u8],
    len: usize,
) -> Result<bool, Fail> {
    let (bytes, _rest) = log.split_at(len.min(log.len()));
    let player = played(alloc, bytes, 262_144)?;
    let (count, end) = whole(frames, len);
    let is_next = player.fsm().next() == next_after(count);
    Ok(is_next && player.at_head(len as u64) == (end == len))
}

// The first length at which a log that is cut there doesn't play to its last whole frame.
fn first_wrong_cut(alloc: Global) -> Result<Option<usize>, Fail> {
    let frames = frames(alloc)?;
    let log = joined(alloc, frames.as_slice())?;
    for len in 0..log.len().saturating_add(1) {
        if !plays_whole_frames(alloc, frames.as_slice(), log.as_slice(), len)? {
            return Ok(Some(len));
        }
    }
    Ok(None)
}

#[test]
fn cuts(rt: HostRuntime) -> Result<(), Fail> {
    let wrong = first_wrong_cut(rt.alloc())?;
    assert_eq!(rt; wrong, None);
    Ok(())
}

// What the player says of a bad frame behind the log, and of a byte behind that. The log has 669 bytes.
fn after_bad(alloc: Global, bad: &[u8]) -> Result<String, Fail> {
    let log = log(alloc)?;
    let mut player = played(alloc, log.as_slice(), 7)?;
    let first = feed(&mut player, bad)?;
    let second = feed(&mut player, b"f")?;
    let at = player.at();
    let outcome = outcome(alloc, &player, log.len())?;
    Ok(format!(in alloc; "{first:?} {second:?} at {at} {outcome}")?)
}

const AFTER_BAD: &str = "Some(669) Some(669) at 669 a= c=x next 9 author Some(7) head false";

#[test]
fn other_forms_are_bad(rt: HostRuntime) -> Result<(), Fail> {
    let found = after_bad(rt.alloc(), b"f3\x93x")?;
    assert_eq!(rt; found.as_str(), AFTER_BAD);
    Ok(())
}

// The frame is whole, and its content is no operation.
fn after_no_operation(alloc: Global) -> Result<String, Fail> {
    let bad = frame(alloc, "{}")?;
    after_bad(alloc, bad.as_slice())
}

#[test]
fn other_contents_are_bad(rt: HostRuntime) -> Result<(), Fail> {
    let found = after_no_operation(rt.alloc())?;
    assert_eq!(rt; found.as_str(), AFTER_BAD);
    Ok(())
}

// The operation is accepted, and a file is at its path.
fn after_second_create(alloc: Global) -> Result<String, Fail> {
    let bad = frame(
        alloc,
        "{\"author\":\"0000000000000007\",\"op\":\"create\",\"path\":\"a\",\"seq\":9}",
    )?;
    after_bad(alloc, bad.as_slice())
}

#[test]
fn failing_conditions_are_bad(rt: HostRuntime) -> Result<(), Fail> {
    let found = after_second_create(rt.alloc())?;
    assert_eq!(rt; found.as_str(), AFTER_BAD);
    Ok(())
}

// What the player asks.
fn ask(player: &Player, author: u64, node: Name) -> Result<Request, Fail> {
    Ok(player.handoff(author, Attempt { node, req: 5 })?)
}

// The text of labels.
fn labels(set: &LabelSet) -> Result<Blob, Fail> {
    Ok(set.print()?)
}

// What stands behind a frame's head.
fn content_in(frame: &Blob) -> &[u8] {
    let (_head, content) = frame.as_slice().split_at(frame.len().min(8));
    content
}

// The request as its offset, the labels that it takes and adds, and the content of its frame.
fn request_text(alloc: Global, request: &Request) -> Result<String, Fail> {
    let offset = request.offset;
    let take = labels(&request.take)?;
    let add = labels(&request.add)?;
    let content = Blob::of(alloc, content_in(&request.content))?;
    Ok(format!(in alloc; "{offset:?} {take} {add} {content}")?)
}

// What a handoff of author 9 asks behind the log.
fn asked(alloc: Global) -> Result<String, Fail> {
    let log = log(alloc)?;
    let player = played(alloc, log.as_slice(), 7)?;
    let node = Name::read(alloc, b"c1")?;
    let request = ask(&player, 9, node)?;
    request_text(alloc, &request)
}

#[test]
fn handoffs(rt: HostRuntime) -> Result<(), Fail> {
    let found = asked(rt.alloc())?;
    assert_eq!(rt;
        found.as_str(),
        "Some(669) author= author=0000000000000009 {\"author\":\"0000000000000009\",\"op\":\"handoff\",\"seq\":9}"
    );
    Ok(())
}

// What a player learns from the answer.
fn learnt(alloc: Global, answer: &Landed) -> Option<Learnt> {
    Player::new(alloc, 0, Fsm::new(alloc)).learn(answer)
}

#[test]
fn answers(rt: HostRuntime) -> Result<(), Fail> {
    let landed = Landed::Landed { begin: 0, end: 1 };
    assert_eq!(rt; learnt(rt.alloc(), &landed), Some(Learnt::Own));
    let wrong = Landed::WrongOffset { head: 3 };
    assert_eq!(rt; learnt(rt.alloc(), &wrong), Some(Learnt::Retry { head: 3 }));
    let registers = LabelSet::new(rt.alloc());
    let other = Landed::RegisterMismatch { registers };
    assert_eq!(rt; learnt(rt.alloc(), &other), None);
    Ok(())
}
