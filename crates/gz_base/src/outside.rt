//! Where bytes come from and go to.
ghost use Rattle.std.specs.Prelude.{◌≡◌, ◌<◌, ◌≤◌, ℕ, List, Bool, true, false, Option, length, take, IfOk, OnOk, OnErr};
ghost use Rattle.std.specs.Io.KnownBytes.{Appends, Consumes, IsAtEnd, Keeps};
ghost use Rattle.gz_model.specs.Faults.{HasRisen};
ghost use Rattle.gz_model.specs.Told.{AppendsPrefix};
ghost use Rattle.gz_base.specs.Failing.{FailsAsTold, MovesUp};

use std::error::Error;
use std::fmt;

/// The outside failed, and counted it.
#[derive(Clone, Copy, Debug, PartialEq, Eq)]
pub struct Failed;

impl fmt::Display for Failed {
    ghost use Rattle.std.specs.Prelude.{Some, codes};

    ghost output = { λ _. Some (codes "the outside failed") };

    fn fmt<W: fmt::Write>(&self, f: &mut fmt::Formatter<W>) -> fmt::Result {
        write!(f, "the outside failed")
    }
}

impl Error for Failed {}

/// Where bytes come from.
pub trait Source {
    /// The bytes that are left, where it tells.
    ghost left: { Self → Option (List ℕ) };

    /// How many of its calls failed. The count never falls, and stands still at its type's end.
    ghost faults: { Self → ℕ };

    /// Which of the calls to come fail, by their number from 0, where it tells.
    ghost failing: { Self → Option (ℕ → Bool) };

    /// Moves the first of the bytes that are left into the start of `out`, and answers how many. The
    /// answer is 0 only at the end of the input, for an `out` that isn't empty.
    fn read(&mut self, out: &mut [u8]) -> Result<usize, Failed>
        ensures within { IfOk result (λ n. n ≤ length out.old) }
        ensures taken { IfOk result
            (λ n. Consumes (left self.old) (left self.new) (take n out.new)) }
        ensures end { IfOk result (λ n. n ≡ 0 → 0 < length out.old → IsAtEnd (left self.new)) }
        ensures kept { OnErr result (Keeps (left self.old) (left self.new)) }
        ensures faults_stay { faults self.old ≤ faults self.new }
        ensures fault { OnErr result (HasRisen (faults self.old) (faults self.new)) }
        ensures well { OnOk result (FailsAsTold (failing self.old) (failing self.new) false) }
        ensures fails { OnErr result (FailsAsTold (failing self.old) (failing self.new) true) };
}

/// Where bytes go to.
pub trait Sink {
    /// The bytes that it holds, where it tells.
    ghost held: { Self → Option (List ℕ) };

    /// How many of its calls failed. The count never falls, and stands still at its type's end.
    ghost faults: { Self → ℕ };

    /// Which of the calls to come fail, by their number from 0, where it tells; one that needs memory and finds none
    /// fails beside them.
    ghost failing: { Self → Option (ℕ → Bool) };

    /// Puts the first of the bytes behind what is held, and answers how many: at least one, where there
    /// is one.
    fn write(&mut self, bytes: &[u8]) -> Result<usize, Failed>
        ensures within { IfOk result (λ n. n ≤ length bytes.now) }
        ensures progress { IfOk result (λ n. 0 < length bytes.now → 0 < n) }
        ensures put { IfOk result
            (λ n. Appends (held self.old) (held self.new) (take n bytes.now)) }
        ensures kept { OnErr result (Keeps (held self.old) (held self.new)) }
        ensures faults_stay { faults self.old ≤ faults self.new }
        ensures fault { OnErr result (HasRisen (faults self.old) (faults self.new)) }
        ensures well { OnOk result (FailsAsTold (failing self.old) (failing self.new) false) }
        ensures fails { OnErr result (MovesUp (failing self.old) (failing self.new)) };
}

/// Writes all the bytes. Where it fails, a prefix of them was written. It takes no memory.
pub fn write_all<K: Sink>(out: &mut K, bytes: &[u8]) -> Result<(), Failed>
    ensures all { OnOk result (Appends (K.held out.old) (K.held out.new) bytes.now) }
    ensures prefix { OnErr result (AppendsPrefix (K.held out.old) (K.held out.new) bytes.now) }
    ensures faults_stay { K.faults out.old ≤ K.faults out.new }
    ensures fault { OnErr result (HasRisen (K.faults out.old) (K.faults out.new)) }
{
    let mut at = 0;
    while at < bytes.len() {
        let n = out.write(&bytes[at..])?;
        at += n;
    }
    Ok(())
}
