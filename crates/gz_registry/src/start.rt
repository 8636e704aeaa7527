//! What a cluster starts with.
ghost use Rattle.std.specs.Prelude.{◌≡◌, ◌≤◌, [], IfOk, OnOk, IsTrue};
ghost use Rattle.gz_keyspace.specs.Space.{revision_of};
ghost use Rattle.gz_registry.specs.Keys.{writes_of, members_of};
ghost use Rattle.gz_registry.specs.Registered.{seen, each_written, each_joined, OnlyMembers};

use crate::space::{admit_each, write_each};
use crate::writes::{members_of, writes_of};
use gz_keyspace::KeySpace;
use gz_label::{Name, NoMemory};
use gz_spec::Specs;
use indexmap::IndexMap;
use std::alloc::Global;

/// The key space with the writes of the specifications, each in a transaction of its own.
#[tactic(auto, using(crate::proofs::Begun::only_begun, crate::proofs::Begun::begun_revision))]
pub fn start_keys(alloc: Global, specs: &Specs) -> Result<KeySpace, NoMemory>
    ensures value { IfOk result
        (λ keys. keys ≡ each_written (writes_of specs.now) (record { changes = []; leases = [] })) }
    ensures only { IfOk result (λ keys. OnlyMembers (seen keys [])) }
    ensures few { IfOk result (λ keys. revision_of keys.changes ≤ 1280) }
{
    let mut keys = KeySpace::new(alloc);
    let writes = writes_of(alloc, specs)?;
    write_each(&mut keys, writes.as_slice())?;
    Ok(keys)
}

/// The members of the specifications join a key space that has none.
pub fn start_members(
    alloc: Global,
    keys: &mut KeySpace,
    specs: &Specs,
) -> Result<IndexMap<Name, u64>, NoMemory>
    requires only { OnlyMembers (seen keys.old []) }
    requires few { revision_of keys.old.changes ≤ 1280 }
    ensures value { IfOk result
        (λ members. seen keys.new members.entries
        ≡ each_joined (members_of specs.now) (seen keys.old [])) }
    ensures only { IfOk result (λ members. OnlyMembers (seen keys.new members.entries)) }
{
    let mut members = IndexMap::new(alloc);
    let joined = members_of(alloc, specs)?;
    admit_each(keys, &mut members, joined.as_slice())?;
    Ok(members)
}
