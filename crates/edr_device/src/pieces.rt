//! Pieces that are settled as soon as they are written.
ghost use Rattle.std.specs.Prelude.{◌≡◌, ◌+◌, ◌-◌, ◌≤◌, [], ◌∷◌, ℕ, List, length, OnOk, OnErr};
ghost use Rattle.edr_device.specs.Lent.{LeavesAfter, LeavesMeanwhile, Lent, MakesCalls, SettlesTo};
ghost use Rattle.edr_device.specs.Pieces.{IsGatedStop, IsPieceStop, SameBut, put_at};
ghost use Rattle.edr_device.specs.declared.device.TheConstants.{LONGEST_WRITE};

use crate::device::Nvm;
use crate::stream::Failed;

/// Writes a piece of 1 to [`LONGEST_WRITE`] bytes from `at` on, and settles it: two changing calls. Its clauses about bytes are for a
/// device that tells them and on which nothing is pending.
pub fn write_settled<N: Nvm>(nvm: &mut N, at: u32, piece: &[u8]) -> Result<(), Failed>
    requires range { at + length piece.now ≤ N.extent nvm.old }
    requires few { (1 ≤ length piece.now) × (length piece.now ≤ LONGEST_WRITE) }
    ensures lent { Lent N.Nvm nvm.old nvm.new result }
    ensures time { MakesCalls 2 N.Nvm nvm.old nvm.new result }
    ensures done { OnOk result (SettlesTo N.Nvm (put_at at piece.now) nvm.old nvm.new) }
    // After a fault a crash leaves what was there, but for the piece's place; and all of it where no call was made.
    ensures stopped { OnErr result (LeavesAfter N.Nvm
        (IsPieceStop (N.clock nvm.old) (N.clock nvm.new) at piece.now) nvm.old nvm.new) }
    // So does a crash at any moment of the call.
    ensures any_moment { LeavesMeanwhile N.Nvm (SameBut at (length piece.now)) nvm.old nvm.new }
{
    nvm.write(at, piece)?;
    nvm.sync()
}

/// Writes a piece of 1 to [`LONGEST_WRITE`] bytes and settles it, and then writes a gate byte and settles it: four changing calls. Its
/// clauses about bytes are for a device that tells them and on which nothing is pending.
pub fn write_gated<N: Nvm>(
    nvm: &mut N,
    at: u32,
    piece: &[u8],
    gate_at: u32,
    gate: u8,
) -> Result<(), Failed>
    requires range { at + length piece.now ≤ N.extent nvm.old }
    requires few { (1 ≤ length piece.now) × (length piece.now ≤ LONGEST_WRITE) }
    requires gate { gate_at + 1 ≤ N.extent nvm.old }
    ensures lent { Lent N.Nvm nvm.old nvm.new result }
    ensures time { MakesCalls 4 N.Nvm nvm.old nvm.new result }
    ensures done { OnOk result (SettlesTo N.Nvm
        (λ bytes. put_at gate_at (gate ∷ []) (put_at at piece.now bytes)) nvm.old nvm.new) }
    // After a fault a crash leaves what was there, but for the piece's place; or from the third call on the whole piece
    // too, and all else but for the gate's place.
    ensures stopped { OnErr result (LeavesAfter N.Nvm
        (IsGatedStop (N.clock nvm.new - N.clock nvm.old) at piece.now gate_at) nvm.old nvm.new) }
    ensures any_moment { LeavesMeanwhile N.Nvm
        (IsGatedStop 3 at piece.now gate_at) nvm.old nvm.new }
{
    write_settled(nvm, at, piece)?;
    write_settled(nvm, gate_at, &[gate])
}
