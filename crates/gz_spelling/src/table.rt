//! Tables of messages.
ghost use Rattle.std.specs.Prelude.{◌≡◌, IsTrue};
ghost use Rattle.gz_spelling.specs.Messages.{tag_of};
ghost use Rattle.gz_spelling.specs.Table.{distinct, has_tags, kind_tagged, every_row};

use gz_wire::Kind;

/// A row of a table: a kind of messages and its tag. The kinds of its fields are those of the kind.
#[derive(Clone, Copy, Debug)]
pub struct Row {
    pub tag: u8,
    pub kind: Kind,
}

/// Rows with distinct tags, each the tag of the row's kind.
#[derive(Debug, Drop)]
pub struct Table<const N: usize> {
    pub rows: [Row; N],
    ghost distinct: { IsTrue (distinct rows) },
    ghost tagged: { IsTrue (has_tags rows) },
}

impl<const N: usize> Table<N> {
    /// The kind with the tag, or None where no row has it. It takes no memory.
    #[tactic(auto, unfolding(crate::specs::Table::kind_tagged))]
    pub fn kind(&self, tag: u8) -> Option<Kind>
        ensures { result ≡ kind_tagged tag self.now.rows }
    {
        for row in &self.rows {
            if row.tag == tag {
                return Some(row.kind);
            }
        }
        None
    }
}

/// The tag of the kind's messages.
pub fn tag_of(kind: Kind) -> u8
    ensures { result ≡ tag_of kind }
{
    match kind {
        Kind::KsTxn => 1,
        Kind::KsTxnOk => 2,
        Kind::KsTxnNo => 3,
        Kind::KsSince => 4,
        Kind::KsSinceDone => 5,
        Kind::KsChange => 6,
        Kind::KsGrant => 7,
        Kind::KsGranted => 8,
        Kind::Promise => 9,
        Kind::Promised => 10,
        Kind::Adopt => 11,
        Kind::Adopted => 12,
        Kind::Refuse => 13,
        Kind::Replicate => 14,
        Kind::Held => 15,
        Kind::Head => 16,
        Kind::Append => 17,
        Kind::AppendDone => 18,
        Kind::Read => 19,
        Kind::ReadDone => 20,
        Kind::StorePut => 21,
        Kind::StoreDone => 22,
        Kind::StoreGet => 23,
        Kind::StoreGot => 24,
        Kind::StoreList => 25,
        Kind::StoreNames => 26,
    }
}

/// The table of all messages.
#[tactic(auto, unfolding(crate::specs::Table::every_row))]
pub fn messages() -> Table<26>
    ensures { result.rows ≡ every_row }
{
    Table {
        rows: [
            Row {
                tag: 1,
                kind: Kind::KsTxn,
            },
            Row {
                tag: 2,
                kind: Kind::KsTxnOk,
            },
            Row {
                tag: 3,
                kind: Kind::KsTxnNo,
            },
            Row {
                tag: 4,
                kind: Kind::KsSince,
            },
            Row {
                tag: 5,
                kind: Kind::KsSinceDone,
            },
            Row {
                tag: 6,
                kind: Kind::KsChange,
            },
            Row {
                tag: 7,
                kind: Kind::KsGrant,
            },
            Row {
                tag: 8,
                kind: Kind::KsGranted,
            },
            Row {
                tag: 9,
                kind: Kind::Promise,
            },
            Row {
                tag: 10,
                kind: Kind::Promised,
            },
            Row {
                tag: 11,
                kind: Kind::Adopt,
            },
            Row {
                tag: 12,
                kind: Kind::Adopted,
            },
            Row {
                tag: 13,
                kind: Kind::Refuse,
            },
            Row {
                tag: 14,
                kind: Kind::Replicate,
            },
            Row {
                tag: 15,
                kind: Kind::Held,
            },
            Row {
                tag: 16,
                kind: Kind::Head,
            },
            Row {
                tag: 17,
                kind: Kind::Append,
            },
            Row {
                tag: 18,
                kind: Kind::AppendDone,
            },
            Row {
                tag: 19,
                kind: Kind::Read,
            },
            Row {
                tag: 20,
                kind: Kind::ReadDone,
            },
            Row {
                tag: 21,
                kind: Kind::StorePut,
            },
            Row {
                tag: 22,
                kind: Kind::StoreDone,
            },
            Row {
                tag: 23,
                kind: Kind::StoreGet,
            },
            Row {
                tag: 24,
                kind: Kind::StoreGot,
            },
            Row {
                tag: 25,
                kind: Kind::StoreList,
            },
            Row {
                tag: 26,
                kind: Kind::StoreNames,
            },
        ],
    }
}
