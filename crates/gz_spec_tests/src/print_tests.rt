//! Specifications that are printed, and read back.
use gz_fields::FieldError;
use gz_label::Blob;
use gz_print::{
    journal_values, member_value, print_journal, print_shard, print_specs, print_specs_as,
    shard_values,
};
use gz_spec::{JournalSpec, ShardSpec, Specs, read_journal, read_part, read_shard};
use std::alloc::Global;
use std::test::Fail;

/// A specification, with `'` in place of `"`.
const SPECS: &str =
    "{'journals':[{'name':'a'}],'shards':[{'id':'s','sources':[{'journal':'a'}],'recovery_log_prefix':'r','labels':{'app':['latest']}}],'brokers':[{'id':'b','zone':'z','limit':4}]}";

/// What the text is, with `'` for `"`. These have no clauses, so that no proof computes what a text says.
fn journal_of(alloc: Global, text: &str) -> Result<JournalSpec, FieldError> {
    let text = text.replace(alloc, "'", "\"")?;
    read_journal(alloc, text.as_bytes())
}

fn shard_of(alloc: Global, text: &str) -> Result<ShardSpec, FieldError> {
    let text = text.replace(alloc, "'", "\"")?;
    read_shard(alloc, text.as_bytes())
}

/// The journal that the text is, as it is printed.
fn journal_again(alloc: Global, text: &str) -> Result<Blob, FieldError> {
    let journal = journal_of(alloc, text)?;
    Ok(print_journal(alloc, &journal)?)
}

/// The shard that the text is, as it is printed.
fn shard_again(alloc: Global, text: &str) -> Result<Blob, FieldError> {
    let shard = shard_of(alloc, text)?;
    Ok(print_shard(alloc, &shard)?)
}

/// The specifications that the text is, as they are printed.
fn specs_again(alloc: Global, text: &[u8]) -> Result<Blob, FieldError> {
    let specs = read_part(alloc, text)?;
    Ok(print_specs(alloc, &specs)?)
}

fn specs_of(alloc: Global, text: &str) -> Result<Specs, FieldError> {
    let text = text.replace(alloc, "'", "\"")?;
    read_part(alloc, text.as_bytes())
}

/// How many values the journals and the shards are.
fn values_of(alloc: Global, specs: &Specs) -> Result<(usize, usize), FieldError> {
    let journals = journal_values(alloc, specs.journals.as_slice())?;
    let shards = shard_values(alloc, specs.shards.as_slice())?;
    Ok((journals.len(), shards.len()))
}

fn length_as_event(alloc: Global, specs: &Specs) -> Result<usize, FieldError> {
    let event = print_specs_as(alloc, "specs", specs)?;
    Ok(event.len())
}

#[test]
fn what_is_printed_is_read_back(rt: HostRuntime) -> Result<(), Fail> {
    let alloc = rt.alloc();
    let text = SPECS.replace(alloc, "'", "\"")?;
    let printed = specs_again(alloc, text.as_bytes())?;
    let same = specs_again(alloc, printed.as_slice())?;
    assert_eq!(rt; printed.as_slice(), same.as_slice());
    let journal = journal_again(
        alloc,
        "{'name':'a','labels':{'y':['2','1'],'x':['a\\u0022']}}",
    )?;
    assert_eq!(rt;
        journal.as_slice(),
        b"{\"fragment\":{\"compression_codec\":\"NONE\",\"length\":67108864},\"labels\":{\"x\":[\"a\\\"\"],\"y\":[\"1\",\"2\"]},\"name\":\"a\",\"replication\":1}".as_slice()
    );
    let shard = shard_again(
        alloc,
        "{'id':'s','sources':[{'journal':'a'}],'recovery_log_prefix':'r','labels':{'app':['latest']}}",
    )?;
    assert_eq!(rt;
        shard.as_slice(),
        b"{\"disable\":false,\"hint_backups\":0,\"hint_prefix\":\"hint\",\"hot_standbys\":0,\"id\":\"s\",\"labels\":{\"app\":[\"latest\"]},\"recovery_log_prefix\":\"r\",\"sources\":[{\"journal\":\"a\",\"min_offset\":0}]}".as_slice()
    );
    Ok(())
}

#[test]
fn each_printer_finds_memory(rt: HostRuntime) -> Result<(), Fail> {
    let alloc = rt.alloc();
    let specs = specs_of(alloc, SPECS)?;
    assert_eq!(rt; values_of(alloc, &specs)?, (1, 1));
    for member in specs.brokers.as_slice() {
        let value = member_value(alloc, member)?;
        assert!(rt; value.is_object());
    }
    let event = length_as_event(alloc, &specs)?;
    assert!(rt; event > 0);
    Ok(())
}
