// Applications on a few messages, and what they keep.

use gz_app::{App, AppKind, Kept, State, Text, app_of, print_state};
use gz_frame::Message;
use gz_label::{Blob, Name, NoMemory};
use gz_uuid::{Flags, MsgClock, Parts, ProducerId};
use std::alloc::Global;
use std::test::Fail;

fn message(alloc: Global, key: &str, value: &str) -> Result<Message, Fail> {
    let parts = Parts {
        producer: ProducerId::client(1).ok_or("no producer")?,
        clock: MsgClock::new(16),
        flags: Flags::OUTSIDE_TXN,
    };
    let key = Blob::of(alloc, key.as_bytes())?;
    let value = Blob::of(alloc, value.as_bytes())?;
    Ok(Message::new(parts, key, value).ok_or("no message")?)
}

fn named(alloc: Global, name: &str) -> Result<AppKind, Fail> {
    let name = Name::read(alloc, name.as_bytes()).ok().ok_or("no name")?;
    Ok(app_of(&name).ok_or("no application")?)
}

// What an application emits for a message, as `key=value,`, is put behind the text.
fn take<A: App>(
    alloc: Global,
    app: &A,
    state: &mut State,
    message: &Message,
    text: &mut Blob,
) -> Result<(), NoMemory> {
    if let Some(output) = app.consume(alloc, state, message)? {
        text.append(output.key().as_bytes())?;
        text.append(b"=")?;
        text.append(output.value().as_bytes())?;
        text.append(b",")?;
    }
    Ok(())
}

// Each application takes a=1, b=x and a=2; these are its outputs and its state, written out by hand.
#[test]
fn applications(rt: HostRuntime) -> Result<(), Fail> {
    let alloc = rt.alloc();
    let first = message(alloc, "a", "1")?;
    let second = message(alloc, "b", "x")?;
    let third = message(alloc, "a", "2")?;
    for (name, outputs, kept) in [
        ("count", "a=1,b=1,a=2,", "{\"a\":2,\"b\":1}"),
        ("relay", "a=1,b=x,a=2,", "{}"),
        ("latest", "", "{\"a\":\"2\",\"b\":\"x\"}"),
    ] {
        let app = named(alloc, name)?;
        let mut state = State::new(alloc);
        let mut text = Blob::new(alloc);
        take(alloc, &app, &mut state, &first, &mut text)?;
        take(alloc, &app, &mut state, &second, &mut text)?;
        take(alloc, &app, &mut state, &third, &mut text)?;
        assert_eq!(rt; text.as_slice(), outputs.as_bytes(), "of {name}");
        let printed = print_state(alloc, &state)?;
        assert_eq!(rt; printed.as_slice(), kept.as_bytes(), "of {name}");
    }
    Ok(())
}

#[test]
fn names_of_applications(rt: HostRuntime) -> Result<(), Fail> {
    let alloc = rt.alloc();
    for text in ["", "Count", "counts", "coun", "relay ", "last"] {
        let name = Name::of(alloc, text)?;
        assert!(rt; app_of(&name).is_none(), "{text}");
    }
    Ok(())
}

// A count goes on from the greatest number, and begins anew over a text.
#[test]
fn counts_at_the_end(rt: HostRuntime) -> Result<(), Fail> {
    let alloc = rt.alloc();
    let mut state = State::new(alloc);
    let mut text = Blob::new(alloc);
    state.keep(Name::of(alloc, "n")?, Kept::Number(u64::MAX - 1))?;
    state.keep(Name::of(alloc, "t")?, Kept::Text(Text::of(alloc, "7")?))?;
    for key in ["n", "n", "t"] {
        let message = message(alloc, key, "")?;
        take(alloc, &AppKind::Count, &mut state, &message, &mut text)?;
    }
    let printed = print_state(alloc, &state)?;
    assert_eq!(rt;
        printed.as_slice(),
        b"{\"n\":18446744073709551615,\"t\":1}".as_slice()
    );
    let want = b"n=18446744073709551615,n=18446744073709551615,t=1,";
    assert_eq!(rt; text.as_slice(), want.as_slice());
    let name = Name::of(alloc, "n")?;
    assert!(rt; state.get(&name).is_some());
    Ok(())
}
