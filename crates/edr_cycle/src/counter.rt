//! The count of ignition cycles, in the older of its two slots.

ghost use Rattle.std.specs.Prelude.{◌+◌, ◌≤◌, ◌<◌, OnOk, OnErr};
ghost use Rattle.edr_device.specs.Lent.{Lent, MakesCalls};
ghost use Rattle.edr_image.specs.declared.places.TheConstants.{FRONT_SIZE, SLOT_SIZE};
ghost use Rattle.edr_cycle.specs.Counter.{IsNextSlot};
ghost use Rattle.edr_cycle.specs.Starts.{CountsTo, LeavesCounted, MakesSix, MeanwhileCounted};

use edr_device::{Failed, Nvm, write_gated, write_settled};
use edr_layout::{
    FRONT_SIZE, OPEN_GATE, closing_write, count_writes, is_open, older_slot, place_of_slot,
};

/// Counts a cycle by six changing calls on the older slot: closes its gate, writes the number, opens the gate.
pub(crate) fn count_up<N: Nvm>(
    nvm: &mut N,
    slot: u32,
    is_open: bool,
    next: u32,
) -> Result<(), Failed>
    requires { slot + SLOT_SIZE ≤ N.extent nvm.old }
    ensures lent { Lent N.Nvm nvm.old nvm.new result }
    ensures time { MakesCalls 6 N.Nvm nvm.old nvm.new result }
    ensures made { OnOk result (CountsTo N.Nvm (IsNextSlot slot is_open next) next nvm.old nvm.new) }
    ensures stopped { OnErr result
        (LeavesCounted N.Nvm (IsNextSlot slot is_open next) next nvm.old nvm.new) }
    ensures any_moment { MeanwhileCounted N.Nvm (IsNextSlot slot is_open next) next nvm.old nvm.new }
{
    let closing = closing_write(slot, is_open);
    write_settled(nvm, closing.at, &[closing.byte])?;
    let count = count_writes(slot, next);
    write_gated(nvm, count.at, &count.piece, count.gate, OPEN_GATE)
}

// Counts a cycle in the older slot, as the first bytes of the image tell it.
pub(crate) fn count_cycle<N: Nvm>(nvm: &mut N, number: u32) -> Result<(), Failed>
    requires { FRONT_SIZE ≤ N.extent nvm.old }
    ensures lent { Lent N.Nvm nvm.old nvm.new result }
    ensures time { MakesSix (N.clock nvm.old) (N.clock nvm.new) (N.last_good nvm.new) result }
    ensures made { OnOk result (CountsTo N.Nvm (λ _ v. v.count < number) number nvm.old nvm.new) }
    ensures stopped { OnErr result
        (LeavesCounted N.Nvm (λ _ v. v.count < number) number nvm.old nvm.new) }
    ensures any_moment { MeanwhileCounted N.Nvm (λ _ v. v.count < number) number nvm.old nvm.new }
{
    let mut front = [0; FRONT_SIZE];
    nvm.read(0, &mut front)?;
    let slot = place_of_slot(older_slot(&front));
    let opened = is_open(&front, slot as usize);
    count_up(nvm, slot, opened, number)
}
