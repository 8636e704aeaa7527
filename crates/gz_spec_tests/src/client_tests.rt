//! What clients are told.

use gz_client::{Answer, print_labels, refusal};
use gz_journal::Landed;
use gz_label::LabelSet;
use gz_spec::Framing;
use std::test::Fail;

#[test]
fn answers(rt: HostRuntime) -> Result<(), Fail> {
    let alloc = rt.alloc();
    let none = LabelSet::new(alloc);
    let some = LabelSet::read(alloc, b"a=1").ok().ok_or("a set")?;
    for (answer, want) in [
        (Answer::NameUsed, "name used"),
        (Answer::NoRoute, "no route"),
        (Answer::TooLarge, "too large 1048576"),
        (Answer::NotFramed, "not framed"),
        (
            Answer::Judged(Landed::Landed {
                begin: 70,
                end: 140,
            }),
            "ok 70 140",
        ),
        (
            Answer::Judged(Landed::WrongOffset { head: 70 }),
            "wrong offset 70",
        ),
        (
            Answer::Judged(Landed::RegisterMismatch { registers: none }),
            "register mismatch -",
        ),
        (
            Answer::Judged(Landed::RegisterMismatch { registers: some }),
            "register mismatch a=1",
        ),
        (Answer::Judged(Landed::TooLarge { limit: 9 }), "too large 9"),
    ] {
        let text = answer.print(alloc)?;
        assert_eq!(rt; text.as_slice(), want.as_bytes());
    }
    Ok(())
}
