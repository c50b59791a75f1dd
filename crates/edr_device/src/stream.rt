//! What bytes are read from and written to, as callers see it.
ghost use Rattle.std.specs.Prelude.{◌≤◌, ℕ, List, Option, length, IfOk};
ghost use Rattle.edr_device.specs.Faults.{HasCause, last_number};
ghost use Rattle.edr_device.specs.Stream.{Put, Took};

/// A fault of the outside, which its object has counted.
#[derive(Clone, Copy, Debug, PartialEq, Eq)]
pub struct Failed;

/// Bytes that are read one after the other, up to their end.
pub trait Source {
    /// The bytes that are left, if the source tells them.
    ghost left: { Self → Option (List ℕ) };

    /// How often it has failed.
    ghost faults: { Self → ℕ };

    /// Moves bytes to the front of `into`, and answers how many. Of a source that tells its bytes, 0 means their end;
    /// the rest of `into` stays as it was, and all of it after a fault.
    fn take(&mut self, into: &mut [u8]) -> Result<usize, Failed>
        requires { 1 ≤ length into.old }
        ensures within { IfOk result (λ n. n ≤ length into.old) }
        ensures told { Took into.old into.new result (left self.old) (left self.new) }
        ensures cause { HasCause (faults self.old) (faults self.new) result };

    ghost faults_fit: { (source : Self) → faults source ≤ last_number };
}

/// Where bytes are written one after the other.
pub trait Sink {
    /// The bytes that were put, if the sink tells them.
    ghost content: { Self → Option (List ℕ) };

    /// How often it has failed.
    ghost faults: { Self → ℕ };

    /// Appends the first bytes of the piece, and answers how many, at least 1.
    fn put(&mut self, piece: &[u8]) -> Result<usize, Failed>
        requires { 1 ≤ length piece.now }
        ensures some { IfOk result (λ n. 1 ≤ n) }
        ensures within { IfOk result (λ n. n ≤ length piece.now) }
        ensures told { Put piece.now result (content self.old) (content self.new) }
        ensures cause { HasCause (faults self.old) (faults self.new) result };

    ghost faults_fit: { (sink : Self) → faults sink ≤ last_number };
}
