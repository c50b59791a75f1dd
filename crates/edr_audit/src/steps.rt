//! The steps of commands, taken by banks in memory.
ghost use Rattle.std.specs.Prelude.{◌≡◌, ◌≤◌, length};
ghost use Rattle.edr_image.specs.Banks.{bank_at, with_bank};
ghost use Rattle.edr_image.specs.Calls.{calls_of, gate_call_of};
ghost use Rattle.edr_image.specs.Steps.{banks_after, with_crash, with_lock};
ghost use Rattle.edr_audit.specs.Steps.{step_of};

use edr_image::BankView;
use edr_record::{Crash, Pre, Record};

/// A step in a bank.
#[derive(Clone, Copy)]
pub enum BankChange {
    Erase { bank: u8 },
    Fill { bank: u8, pre: Pre },
    Lock { bank: u8 },
    Done { bank: u8, crash: Crash },
}

impl BankChange {
    /// How many writes and syncs it makes.
    pub fn calls(&self) -> u32
        ensures { result ≡ calls_of (step_of self.now) }
    {
        match self {
            BankChange::Erase { .. } | BankChange::Lock { .. } => 2,
            BankChange::Fill { .. } | BankChange::Done { .. } => 4,
        }
    }

    /// From which of them on it may stand.
    pub fn gate_call(&self) -> u32
        ensures { result ≡ gate_call_of (step_of self.now) }
    {
        match self {
            BankChange::Erase { .. } | BankChange::Lock { .. } => 1,
            BankChange::Fill { .. } | BankChange::Done { .. } => 3,
        }
    }
}

/// What the bank holds.
pub fn bank_at(banks: &[BankView], bank: u8) -> BankView
    ensures { result ≡ bank_at banks.now bank }
{
    let place = usize::from(bank).saturating_sub(1);
    if place < banks.len() {
        banks[place]
    } else {
        BankView::Void
    }
}

// The bank holds this from now on.
fn put(banks: &mut Vec<BankView>, bank: u8, view: BankView)
    ensures holds { banks.new.items ≡ with_bank banks.old.items bank view }
    ensures length { length banks.new.items ≡ length banks.old.items }
{
    let place = usize::from(bank).saturating_sub(1);
    if place < banks.len() {
        banks[place] = view;
    }
}

fn with_lock(view: BankView) -> BankView
    ensures { result ≡ with_lock view }
{
    match view {
        BankView::Event(old) => BankView::Event(Record {
            locked: true,
            ..old
        }),
        _ => view,
    }
}

fn with_crash(crash: Crash, view: BankView) -> BankView
    ensures { result ≡ with_crash crash view }
{
    match view {
        BankView::Event(old) => BankView::Event(Record {
            crash: Some(crash),
            ..old
        }),
        _ => view,
    }
}

/// Takes a step.
pub fn take_step(banks: &mut Vec<BankView>, step: &BankChange)
    ensures after { banks.new.items ≡ banks_after banks.old.items (step_of step.now) }
    ensures length { length banks.new.items ≡ length banks.old.items }
{
    match *step {
        BankChange::Erase { bank } => put(banks, bank, BankView::Void),
        BankChange::Fill { bank, pre } => {
            let event = Record {
                pre,
                locked: false,
                crash: None,
            };
            put(banks, bank, BankView::Event(event));
        }
        BankChange::Lock { bank } => {
            let view = with_lock(bank_at(banks, bank));
            put(banks, bank, view);
        }
        BankChange::Done { bank, crash } => {
            let view = with_crash(crash, bank_at(banks, bank));
            put(banks, bank, view);
        }
    }
}
