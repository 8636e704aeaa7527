// Small logs, operation by operation.

use gz_label::{Blob, Name};
use gz_recovery::{Fsm, FsmError, Op, OpKind, Recorder, Text, print_op, read_op};
use std::test::Fail;

// An operation of a content.
fn op_of(rt: HostRuntime, content: &str) -> Result<Op, Fail> {
    let op = read_op(rt.alloc(), content.as_bytes())?;
    Ok(op.ok_or("no operation")?)
}

// What becomes of an operation: passed over, refused or applied.
fn outcome(fsm: &mut Fsm, op: &Op) -> Result<&'static str, Fail> {
    if !fsm.accepts(op) {
        return Ok("passed");
    }
    match fsm.apply(op) {
        Ok(()) => Ok("applied"),
        Err(FsmError::BadOp) => Ok("bad"),
        Err(FsmError::NoMemory) => Err("no memory".into()),
    }
}

#[test]
fn a_log(rt: HostRuntime) -> Result<(), Fail> {
    let mut fsm = Fsm::new(rt.alloc());
    for (content, want) in [
        (
            "{\"author\":\"0000000000000007\",\"op\":\"handoff\",\"seq\":1}",
            "applied",
        ),
        (
            "{\"author\":\"0000000000000007\",\"op\":\"create\",\"path\":\"a\",\"seq\":2}",
            "applied",
        ),
        (
            "{\"author\":\"0000000000000008\",\"op\":\"create\",\"path\":\"b\",\"seq\":3}",
            "passed",
        ),
        (
            "{\"author\":\"0000000000000007\",\"op\":\"create\",\"path\":\"a\",\"seq\":3}",
            "bad",
        ),
        (
            "{\"author\":\"0000000000000007\",\"data\":\"x\",\"fnode\":2,\"offset\":0,\"op\":\"write\",\"seq\":3}",
            "applied",
        ),
        (
            "{\"author\":\"0000000000000007\",\"data\":\"y\",\"fnode\":2,\"offset\":0,\"op\":\"write\",\"seq\":4}",
            "bad",
        ),
        (
            "{\"author\":\"0000000000000007\",\"fnode\":2,\"op\":\"link\",\"path\":\"b\",\"seq\":4}",
            "applied",
        ),
        (
            "{\"author\":\"0000000000000007\",\"op\":\"create\",\"path\":\"c\",\"seq\":5}",
            "applied",
        ),
        (
            "{\"author\":\"0000000000000007\",\"fnode\":5,\"op\":\"link\",\"path\":\"a\",\"seq\":6}",
            "applied",
        ),
        (
            "{\"author\":\"0000000000000007\",\"data\":\"p\",\"op\":\"property\",\"path\":\"q\",\"seq\":7}",
            "applied",
        ),
        (
            "{\"author\":\"0000000000000007\",\"op\":\"unlink\",\"path\":\"c\",\"seq\":9}",
            "passed",
        ),
        (
            "{\"author\":\"0000000000000007\",\"op\":\"unlink\",\"path\":\"c\",\"seq\":8}",
            "applied",
        ),
        (
            "{\"author\":\"0000000000000009\",\"op\":\"handoff\",\"seq\":10}",
            "passed",
        ),
        (
            "{\"author\":\"0000000000000009\",\"op\":\"handoff\",\"seq\":9}",
            "applied",
        ),
        (
            "{\"author\":\"0000000000000007\",\"op\":\"unlink\",\"path\":\"a\",\"seq\":10}",
            "passed",
        ),
    ] {
        let op = op_of(rt, content)?;
        assert_eq!(rt; outcome(&mut fsm, &op)?, want, "of {content}");
    }
    for (place, want) in [(0, Some(("a", ""))), (1, Some(("b", "x"))), (2, None)] {
        let file = fsm
            .file(place)
            .map(|(path, text)| (path.as_slice(), text.as_slice()));
        let want = want.map(|(path, text): (&str, &str)| (path.as_bytes(), text.as_bytes()));
        assert_eq!(rt; file, want, "at {place}");
    }
    assert_eq!(rt; fsm.next(), 10);
    assert_eq!(rt; fsm.author(), Some(9));
    Ok(())
}

// The content of the first operation of an author.
fn content_of(rt: HostRuntime, author: u64, kind: OpKind) -> Result<Blob, Fail> {
    let mut recorder = Recorder::new(author, &Fsm::new(rt.alloc()));
    let op = recorder.next_op(kind)?;
    Ok(print_op(rt.alloc(), &op)?)
}

// Whether the content is an operation's.
fn is_op(rt: HostRuntime, content: &str) -> Result<bool, Fail> {
    Ok(read_op(rt.alloc(), content.as_bytes())?.is_some())
}

#[test]
fn contents(rt: HostRuntime) -> Result<(), Fail> {
    let path = Name::of(rt.alloc(), "é")?;
    let text = Text::of(rt.alloc(), "\"")?;
    let content = content_of(rt, 18, OpKind::Property { path, text })?;
    let want =
        "{\"author\":\"0000000000000012\",\"data\":\"\\\"\",\"op\":\"property\",\"path\":\"é\",\"seq\":1}";
    assert_eq!(rt; content.as_slice(), want.as_bytes());
    for (content, want) in [
        (
            "{\"author\":\"0000000000000012\",\"op\":\"handoff\",\"seq\":1}",
            true,
        ),
        (
            "{\"author\":\"0000000000000012\",\"op\":\"handoff\", \"seq\":1}",
            false,
        ),
        (
            "{\"author\":\"000000000000001A\",\"op\":\"handoff\",\"seq\":1}",
            false,
        ),
        (
            "{\"author\":\"0000000000000012\",\"op\":\"handoff\",\"seq\":4611686018427387905}",
            false,
        ),
        (
            "{\"author\":\"0000000000000012\",\"op\":\"handoff\",\"path\":\"a\",\"seq\":1}",
            false,
        ),
    ] {
        assert_eq!(rt; is_op(rt, content)?, want, "of {content}");
    }
    Ok(())
}
