//! Journals by their names, and specifications that are joined. Rows of what is refused stand in
//! `gz_tables/stdin`.
use gz_links::{SpecError, framing_at, join};
use gz_spec::{Framing, Specs, read_part};
use std::alloc::Global;
use std::test::Fail;

/// What the text is, with `'` for `"`. These have no clauses, so that no proof computes what a text says.
fn part_of(alloc: Global, text: &str) -> Result<Specs, SpecError> {
    let text = text.replace(alloc, "'", "\"")?;
    let part = read_part(alloc, text.as_bytes())?;
    Ok(part)
}

/// What the journal of this name holds.
fn holds(alloc: Global, name: &[u8]) -> Result<Option<Framing>, SpecError> {
    let specs = part_of(
        alloc,
        "{'journals':[{'name':'a','labels':{'content-type':['application/x-ndjson']}}]}",
    )?;
    Ok(framing_at(specs.journals.as_slice(), name))
}

#[test]
fn a_journal_is_found_by_its_name(rt: HostRuntime) -> Result<(), Fail> {
    let alloc = rt.alloc();
    assert_eq!(rt; holds(alloc, b"a")?, Some(Framing::Lines));
    assert_eq!(rt; holds(alloc, b"b")?, None);
    Ok(())
}

#[test]
fn a_replaced_journal_keeps_its_place(rt: HostRuntime) -> Result<(), Fail> {
    let alloc = rt.alloc();
    let first = part_of(alloc, "{'journals':[{'name':'a'},{'name':'b'}]}")?;
    let more = part_of(
        alloc,
        "{'journals':[{'name':'c'},{'name':'a','replication':3}]}",
    )?;
    let both = join(alloc, &first.copy()?, &more)?;
    let journals = both.journals.as_slice();
    assert_eq!(rt; journals.len(), 3);
    let (replaced, last) = (&journals[0], &journals[2]);
    assert_eq!(rt; replaced.name.as_slice(), b"a".as_slice());
    assert_eq!(rt; replaced.replication, 3);
    assert_eq!(rt; last.name.as_slice(), b"c".as_slice());
    Ok(())
}
