// Small texts, what they are as JSON, and how values print.

use gz_json::{first_unknown, parse, print};
use serde_json::{Map, Value};
use std::test::Fail;

#[test]
fn texts(rt: HostRuntime) -> Result<(), Fail> {
    let alloc = rt.alloc();
    for (text, want) in [
        (b"null".as_slice(), Some("null")),
        (
            b" { \"b\" : [ 1 , true ] , \"a\" : \"\\u0041\" } ".as_slice(),
            Some("{\"a\":\"A\",\"b\":[1,true]}"),
        ),
        (b"{\"a\":1,\"a\":2}".as_slice(), Some("{\"a\":2}")),
        (b"\"\xc3\xa9\"".as_slice(), Some("\"é\"")),
        (b"\"\xc3\"".as_slice(), None),
        (b"".as_slice(), None),
        (b"{\"a\":1".as_slice(), None),
        (b"{\"a\":1} 2".as_slice(), None),
        (b"{'a':1}".as_slice(), None),
    ] {
        match parse(alloc, text)? {
            Some(value) => {
                let printed = value.to_string(alloc)?;
                assert_eq!(rt; Some(printed.as_str()), want, "of {text:?}");
            }
            None => assert_eq!(rt; want, None, "of {text:?}"),
        }
    }
    Ok(())
}

#[test]
fn members(rt: HostRuntime) -> Result<(), Fail> {
    let alloc = rt.alloc();
    let value = parse(alloc, b"{\"c\":1,\"a\":2,\"d\":3}")?.ok_or("no JSON")?;
    let members = value.as_object().ok_or("no object")?;
    assert_eq!(rt; first_unknown(members, &["a"]), Some("c"));
    assert_eq!(rt; first_unknown(members, &["c", "a"]), Some("d"));
    assert_eq!(rt; first_unknown(members, &["d", "b", "a", "c"]), None);
    Ok(())
}

#[test]
fn printed(rt: HostRuntime) -> Result<(), Fail> {
    let alloc = rt.alloc();
    let mut members = Map::new(alloc);
    members.insert(
        String::from_str(alloc, "b")?,
        Value::try_from_str(alloc, "x\"\n\u{e9}")?,
    )?;
    members.insert(String::from_str(alloc, "a")?, Value::Bool(true))?;
    let text = print(alloc, &Value::from(members))?;
    assert_eq!(rt;
        text.as_slice(),
        "{\"a\":true,\"b\":\"x\\\"\\né\"}".as_bytes()
    );
    Ok(())
}
