//! A converge of the key space.
ghost use Rattle.std.specs.Prelude.{◌≡◌, OnOk};
ghost use Rattle.gz_world.specs.Worlds.{AreOfNoMember, after_tries};

use gz_converge::Txn;
use gz_label::NoMemory;
use gz_registry::Registry;

/// Makes the transactions, none of which writes a member's key, one after another, each where it can be made.
pub fn try_all(registry: &mut Registry, txns: &[Txn]) -> Result<(), NoMemory>
    requires { AreOfNoMember txns.now }
    ensures { OnOk result (registry.new ≡ after_tries txns.now registry.old) }
{
    for txn in txns {
        registry.try_write(&txn.compare, &txn.write)?;
    }
    Ok(())
}
