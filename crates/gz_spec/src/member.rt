//! The members of a cluster: brokers and consumers.
ghost use Rattle.std.specs.Prelude.{◌≡◌, ◌++◌, ◌∷◌, [], IfOk, IsTrue};
ghost use Rattle.serde_json.specs.View.{view};
ghost use Rattle.gz_fields.specs.Outcomes.{Gives};
ghost use Rattle.gz_fields.specs.Names.{is_id};
ghost use Rattle.gz_spec.specs.Valid.{is_lone_member};
ghost use Rattle.gz_spec.specs.Members.{member_with, member_at, next_member, member_of};

use crate::reserved::is_reserved;
use gz_fields::{
    FieldError, Range, parse, path_below, read_id, read_number, refuse_unknown, use_name,
};
use gz_label::{Blob, Name, NoMemory};
use indexmap::IndexSet;
use serde_json::Value;
use std::alloc::Global;
use std::marker::Model;

/// The most items that a member takes.
pub const MAX_LIMIT: u64 = 1024;

/// How many items a member takes.
const LIMIT: Range = Range {
    least: 0,
    most: MAX_LIMIT,
};

/// A broker or a consumer: its id, its zone, which is of the form of an id, and how many items it takes, which are at
/// most 1,024. Whatever is of this type is valid. Whether the id is reserved is asked where members are those of a
/// cluster.
#[derive(Debug, Drop)]
pub struct MemberSpec {
    pub id: Name,
    pub zone: Name,
    pub limit: u64,
}

impl Model for MemberSpec {
    ghost use Rattle.std.specs.Prelude.{IsTrue};
    ghost use Rattle.gz_spec.specs.Records.{MemberSpec as Seen};
    ghost use Rattle.gz_spec.specs.Valid.{is_lone_member};

    ghost Value = { Seen };

    ghost view = { λ a. record { id = a.id; zone = a.zone; limit = a.limit } };

    ghost invariant = { λ a. IsTrue (is_lone_member (record { id = a.id; zone = a.zone; limit = a.limit })) };
}

impl MemberSpec {
    /// An equal value.
    pub fn copy(&self) -> Result<MemberSpec, NoMemory>
        ensures { IfOk result (λ member. member ≡ self.now) }
    {
        Ok(MemberSpec {
            id: self.id.copy()?,
            zone: self.zone.copy()?,
            limit: self.limit,
        })
    }
}

/// The member of this id, by what follows the id.
#[tactic(auto, unfolding(crate::specs::Members::member_with))]
fn read_rest(alloc: Global, path: &Blob, id: Name, value: &Value) -> Result<MemberSpec, FieldError>
    requires { IsTrue (is_id id) }
    ensures gives { Gives (λ m. m) result (member_with path.now id (view value.now)) }
    ensures named { IfOk result (λ m. m.id ≡ id) }
    ensures valid { IfOk result (λ m. IsTrue (is_lone_member m)) }
{
    let zone = read_id(alloc, path, value, "zone")?;
    let limit = read_number(alloc, path, value, "limit", LIMIT)?;
    Ok(MemberSpec { id, zone, limit })
}

/// The member in a list, behind members of the used ids, to which its id is added.
#[tactic(auto, unfolding(crate::specs::Members::next_member))]
pub fn read_next_member(
    alloc: Global,
    path: &Blob,
    used: &mut IndexSet<Name>,
    value: &Value,
) -> Result<MemberSpec, FieldError>
    ensures gives { Gives (λ m. m) result (next_member path.now used.old.keys (view value.now)) }
    ensures noted { IfOk result (λ m. used.new.keys ≡ used.old.keys ++ m.id ∷ []) }
{
    refuse_unknown(alloc, path, value, &["id", "zone", "limit"])?;
    let id = read_id(alloc, path, value, "id")?;
    let place = path_below(alloc, path, "id")?;
    if is_reserved(id.as_slice()) {
        return Err(FieldError::BadName { path: place });
    }
    use_name(used, place, &id)?;
    let member = read_rest(alloc, path, id, value)?;
    Ok(member)
}

/// The member that the value at this place is, by itself: a reserved id is taken.
#[tactic(auto, unfolding(crate::specs::Members::member_at))]
pub fn read_member_at(alloc: Global, path: &Blob, value: &Value) -> Result<MemberSpec, FieldError>
    ensures gives { Gives (λ m. m) result (member_at path.now (view value.now)) }
    ensures valid { IfOk result (λ m. IsTrue (is_lone_member m)) }
{
    refuse_unknown(alloc, path, value, &["id", "zone", "limit"])?;
    let id = read_id(alloc, path, value, "id")?;
    let member = read_rest(alloc, path, id, value)?;
    Ok(member)
}

/// The member that the text is, by itself: a reserved id is taken. Paths begin at the member.
#[tactic(auto, unfolding(crate::specs::Members::member_of))]
pub fn read_member(alloc: Global, bytes: &[u8]) -> Result<MemberSpec, FieldError>
    ensures gives { Gives (λ m. m) result (member_of bytes.now) }
    ensures valid { IfOk result (λ m. IsTrue (is_lone_member m)) }
{
    let value = parse(alloc, bytes)?;
    let member = read_member_at(alloc, &Blob::new(alloc), &value)?;
    Ok(member)
}
