//! The events that change what is there: journals and shards, and the members.
ghost use Rattle.std.specs.Prelude.{◌≡◌};
ghost use Rattle.serde_json.specs.View.{view};
ghost use Rattle.gz_fields.specs.Outcomes.{Gives};
ghost use Rattle.gz_scenario.specs.Events.{apply_in, joining, join_in, expire_in};

use crate::{Join, MemberKind};
use gz_fields::{FieldError, read_id, refuse_unknown};
use gz_label::{Blob, Name};
use gz_spec::{Members, Specs, read_journals, read_member_at, read_shards};
use serde_json::Value;
use std::alloc::Global;

/// The journals and shards that the value is. Its lists of members are empty.
#[tactic(auto, unfolding(crate::specs::Events::apply_in))]
pub fn read_apply(alloc: Global, value: &Value) -> Result<Specs, FieldError>
    ensures { Gives (λ s. s) result (apply_in (view value.now)) }
{
    let top = Blob::new(alloc);
    refuse_unknown(alloc, &top, value, &["do", "journals", "shards"])?;
    let journals = read_journals(alloc, value)?;
    let shards = read_shards(alloc, value)?;
    let brokers = Members::of(Vec::new(alloc));
    let consumers = Members::of(Vec::new(alloc));
    Ok(Specs {
        journals,
        shards,
        brokers,
        consumers,
    })
}

/// The member that the value of this name is, as one that joins.
fn read_joining(
    alloc: Global,
    kind: MemberKind,
    name: &str,
    value: &Value,
) -> Result<Join, FieldError>
    ensures { Gives (λ j. j) result (joining kind name.now (view value.now)) }
{
    let path = Blob::of(alloc, name.as_bytes())?;
    let member = read_member_at(alloc, &path, value)?;
    Ok(Join { kind, member })
}

/// The one member that the value names.
#[tactic(auto, unfolding(crate::specs::Events::join_in))]
pub fn read_join(alloc: Global, value: &Value) -> Result<Join, FieldError>
    ensures { Gives (λ j. j) result (join_in (view value.now)) }
{
    let top = Blob::new(alloc);
    refuse_unknown(alloc, &top, value, &["do", "broker", "consumer"])?;
    let Some(broker) = value.get("broker") else {
        let Some(consumer) = value.get("consumer") else {
            let path = Blob::of(alloc, b"broker")?;
            return Err(FieldError::BadField { path });
        };
        let join = read_joining(alloc, MemberKind::Consumer, "consumer", consumer)?;
        return Ok(join);
    };
    let join = read_joining(alloc, MemberKind::Broker, "broker", broker)?;
    let Some(_) = value.get("consumer") else {
        return Ok(join);
    };
    let path = Blob::of(alloc, b"consumer")?;
    Err(FieldError::BadField { path })
}

/// The id of the member that the value names.
#[tactic(auto, unfolding(crate::specs::Events::expire_in))]
pub fn read_expire(alloc: Global, value: &Value) -> Result<Name, FieldError>
    ensures { Gives (λ id. id) result (expire_in (view value.now)) }
{
    let top = Blob::new(alloc);
    refuse_unknown(alloc, &top, value, &["do", "member"])?;
    let id = read_id(alloc, &top, value, "member")?;
    Ok(id)
}
