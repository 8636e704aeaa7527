//! What is read where nothing is said. Rows of texts that are refused, each for one thing, and the limits, stand in
//! `gz_tables/stdin`.
use gz_fields::FieldError;
use gz_spec::{
    JournalSpec, MemberSpec, ShardSpec, read_journal, read_member, read_part, read_shard,
};
use std::alloc::Global;
use std::test::Fail;

#[test]
fn a_text_is_utf_8(rt: HostRuntime) -> Result<(), Fail> {
    let refused = read_part(rt.alloc(), b"\"\xff\"").err();
    assert!(rt; matches!(&refused, Some(FieldError::NotJson)));
    Ok(())
}

/// What the text is, with `'` for `"`. These have no clauses, so that no proof computes what a text says.
fn journal_of(alloc: Global, text: &str) -> Result<JournalSpec, FieldError> {
    let text = text.replace(alloc, "'", "\"")?;
    read_journal(alloc, text.as_bytes())
}

fn shard_of(alloc: Global, text: &str) -> Result<ShardSpec, FieldError> {
    let text = text.replace(alloc, "'", "\"")?;
    read_shard(alloc, text.as_bytes())
}

fn member_of(alloc: Global, text: &str) -> Result<MemberSpec, FieldError> {
    let text = text.replace(alloc, "'", "\"")?;
    read_member(alloc, text.as_bytes())
}

#[test]
fn a_journal_has_its_defaults(rt: HostRuntime) -> Result<(), Fail> {
    let journal = journal_of(rt.alloc(), "{'name':'a/b','labels':{'x':['2','1','2']}}")?;
    assert_eq!(rt; journal.name.as_slice(), b"a/b".as_slice());
    assert_eq!(rt; journal.replication, 1);
    assert_eq!(rt; journal.fragment_length, 67_108_864);
    assert_eq!(rt; journal.labels.len(), 2);
    Ok(())
}

#[test]
fn a_shard_has_its_defaults(rt: HostRuntime) -> Result<(), Fail> {
    let text =
        "{'id':'s','sources':[{'journal':'a'}],'recovery_log_prefix':'r','labels':{'app':['latest']}}";
    let shard = shard_of(rt.alloc(), text)?;
    assert_eq!(rt; shard.hint_prefix.as_slice(), b"hint".as_slice());
    assert_eq!(rt; shard.hint_backups, 0);
    assert_eq!(rt; shard.hot_standbys, 0);
    assert!(rt; !shard.disable);
    assert_eq!(rt; shard.sources.as_slice().len(), 1);
    Ok(())
}

#[test]
fn a_member_is_read(rt: HostRuntime) -> Result<(), Fail> {
    let member = member_of(rt.alloc(), "{'id':'keys','zone':'z','limit':3}")?;
    assert_eq!(rt; member.id.as_slice(), b"keys".as_slice());
    assert_eq!(rt; member.limit, 3);
    Ok(())
}
