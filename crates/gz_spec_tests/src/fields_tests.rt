//! Fields that are read, and what is told of each that is refused.
use gz_fields::{
    FieldError, Range, is_id, is_journal_name, parse, path_below, path_of_item, read_flag_or,
    read_id, read_items, read_items_or_none, read_journal_name, read_number, read_number_or,
    read_text, refuse_long, refuse_unknown, use_name,
};
use gz_label::{Blob, Name};
use indexmap::IndexSet;
use serde_json::Value;
use std::alloc::Global;
use std::test::Fail;

/// A number of one digit.
const DIGIT: Range = Range { least: 1, most: 9 };

/// An object, with `'` in place of `"`.
const OBJECT: &str = "{'id':'a-1','journal':'a/b','n':7,'yes':true,'list':[1,2]}";

/// The value that the text says, with `'` for `"`.
fn value_of(alloc: Global, text: &str) -> Result<Value, FieldError> {
    let text = text.replace(alloc, "'", "\"")?;
    parse(alloc, text.as_bytes())
}

/// The path of what is refused; none where it is taken.
fn offender<T: Drop>(alloc: Global, read: Result<T, FieldError>) -> Blob {
    match read {
        Ok(_) | Err(FieldError::NotJson | FieldError::NoMemory) => Blob::new(alloc),
        Err(
            FieldError::BadField { path }
            | FieldError::BadName { path }
            | FieldError::BadNumber { path }
            | FieldError::Unsupported { path }
            | FieldError::Twice { path },
        ) => path,
    }
}

#[test]
fn fields_are_read_by_their_names(rt: HostRuntime) -> Result<(), Fail> {
    let alloc = rt.alloc();
    let value = value_of(alloc, OBJECT)?;
    let top = Blob::new(alloc);
    refuse_unknown(alloc, &top, &value, &["id", "journal", "n", "yes", "list"])?;
    assert_eq!(rt; read_text(alloc, &top, &value, "id")?, "a-1");
    assert_eq!(rt; read_id(alloc, &top, &value, "id")?.as_str(), "a-1");
    assert_eq!(rt;
        read_journal_name(alloc, &top, &value, "journal")?.as_str(),
        "a/b"
    );
    assert_eq!(rt; read_number(alloc, &top, &value, "n", DIGIT)?, 7);
    assert_eq!(rt; read_number_or(alloc, &top, &value, "m", 3, DIGIT)?, 3);
    assert!(rt; read_flag_or(alloc, &top, &value, "yes", false)?);
    assert_eq!(rt; read_items(alloc, &top, &value, "list")?.len(), 2);
    assert_eq!(rt; read_items_or_none(alloc, &top, &value, "none")?.len(), 0);
    Ok(())
}

#[test]
fn the_first_offender_is_told_by_its_path(rt: HostRuntime) -> Result<(), Fail> {
    let alloc = rt.alloc();
    let value = value_of(alloc, OBJECT)?;
    let list = Blob::of(alloc, b"list")?;
    let place = path_of_item(alloc, &list, 3)?;
    let unknown = refuse_unknown(alloc, &place, &value, &["id", "journal", "n", "yes"]);
    assert_eq!(rt;
        offender(alloc, unknown).as_slice(),
        b"list[3].list".as_slice()
    );
    let missing = read_id(alloc, &place, &value, "name");
    assert_eq!(rt;
        offender(alloc, missing).as_slice(),
        b"list[3].name".as_slice()
    );
    let no_id = read_id(alloc, &place, &value, "journal");
    assert_eq!(rt;
        offender(alloc, no_id).as_slice(),
        b"list[3].journal".as_slice()
    );
    let none = Range { least: 8, most: 9 };
    let low = read_number(alloc, &place, &value, "n", none);
    assert_eq!(rt; offender(alloc, low).as_slice(), b"list[3].n".as_slice());
    let items = read_items(alloc, &place, &value, "list")?;
    let long = refuse_long(&list, items, 1);
    assert_eq!(rt; offender(alloc, long).as_slice(), b"list".as_slice());
    refuse_long(&list, items, 2)?;
    Ok(())
}

#[test]
fn a_name_is_used_once(rt: HostRuntime) -> Result<(), Fail> {
    let alloc = rt.alloc();
    let mut used = IndexSet::new(alloc);
    let name = Name::of(alloc, "a")?;
    let top = Blob::new(alloc);
    use_name(&mut used, path_below(alloc, &top, "id")?, &name)?;
    let again = use_name(&mut used, path_below(alloc, &top, "id")?, &name);
    assert_eq!(rt; offender(alloc, again).as_slice(), b"id".as_slice());
    assert!(rt; is_id(b"a_B-9") && !is_id(b"") && !is_id(b"a.b"));
    assert!(rt; is_journal_name(b"a.b/c") && !is_journal_name(b"a//b"));
    Ok(())
}
