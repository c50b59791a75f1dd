//! What a command does to the banks, and which bank it takes.
ghost use Rattle.std.specs.Prelude.{◌≡◌, ◌≤◌, [], ◌∷◌};
ghost use Rattle.edr_image.specs.declared.places.TheConstants.{MOST_BANKS};
ghost use Rattle.edr_image.specs.Banks.{is_unlocked, least_unlocked, lowest_void, to_overwrite};
ghost use Rattle.edr_image.specs.Steps.{Done, Lock, done_reply, lock_reply, take_reply, with_crash, with_lock};
ghost use Rattle.edr_gates.specs.Taken.{MayTakeAll};
ghost use Rattle.edr_banks.specs.Applying.{with_held_event, opened_after, reply_of};
ghost use Rattle.edr_banks.specs.Tasks.{IsBankWithin, reply_for, steps_of};

use crate::bank_choice::{least_unlocked, lowest_void};
use crate::{Applied, BankView, Banks, Choice, Command};
use edr_layout::BankNumber;
use edr_record::{Crash, Pre, Record};

/// The steps of a command, each in the same bank.
#[derive(Clone, Copy, Debug)]
pub(crate) enum Task {
    /// None.
    Nothing,
    /// A new event in a void bank.
    Fill { bank: BankNumber, pre: Pre },
    /// A new event in the place of an older one.
    Replace { bank: BankNumber, pre: Pre },
    /// The lock of the event that is held.
    Lock { bank: BankNumber },
    /// A new event that is locked, in the place of an older one.
    ReplaceLocked { bank: BankNumber, pre: Pre },
    /// The crash part of the event that is held.
    Finish { bank: BankNumber, crash: Crash },
}

// Whether a bank holds an event that may be locked.
fn is_unlocked(view: &BankView) -> bool
    ensures { result ≡ is_unlocked view.now }
{
    match view {
        BankView::Event(record) => !record.locked,
        _ => false,
    }
}

fn with_lock(view: BankView) -> BankView
    ensures { result ≡ with_lock view }
{
    match view {
        BankView::Event(old) => BankView::Event(Record {
            locked: true,
            ..old
        }),
        _ => view,
    }
}

fn with_crash(crash: Crash, view: BankView) -> BankView
    ensures { result ≡ with_crash crash view }
{
    match view {
        BankView::Event(old) => BankView::Event(Record {
            crash: Some(crash),
            ..old
        }),
        _ => view,
    }
}

impl Banks {
    // The bank that a new event may take from an older one.
    fn to_overwrite(&self) -> Option<BankNumber>
        ensures { result ≡ to_overwrite self.now.store.header.choice self.now.store.banks }
    {
        match self.header.choice {
            Choice::Keep => None,
            Choice::Overwrite => least_unlocked(&self.banks),
        }
    }

    fn take_task(&self, pre: &Pre) -> Task
        ensures { reply_for result ≡ take_reply pre.now (lowest_void self.now.store.banks) (to_overwrite self.now.store.header.choice self.now.store.banks) }
    {
        if let Some(bank) = lowest_void(&self.banks) {
            return Task::Fill { bank, pre: *pre };
        }
        match self.to_overwrite() {
            Some(bank) => Task::Replace { bank, pre: *pre },
            None => Task::Nothing,
        }
    }

    fn lock_task(&self, pre: &Pre) -> Task
        ensures { reply_for result ≡ lock_reply pre.now self.now.store.banks self.now.held (least_unlocked self.now.store.banks) }
    {
        match self.held {
            Some(bank) if is_unlocked(&self.banks[bank.index()]) => Task::Lock { bank },
            Some(_) => Task::Nothing,
            None => match least_unlocked(&self.banks) {
                Some(bank) => Task::ReplaceLocked { bank, pre: *pre },
                None => Task::Nothing,
            },
        }
    }

    fn done_task(&self, crash: &Crash) -> Task
        ensures { reply_for result ≡ done_reply crash.now self.now.held }
    {
        match self.held {
            Some(bank) => Task::Finish {
                bank,
                crash: *crash,
            },
            None => Task::Nothing,
        }
    }

    #[tactic(auto, unfolding(edr_image::specs::Steps::reply_to))]
    fn task_of(&self, command: &Command) -> Task
        ensures { reply_for result ≡ reply_of self.now command.now }
    {
        match command {
            Command::Take { pre } => self.take_task(pre),
            Command::Lock { pre } => self.lock_task(pre),
            Command::Done { crash } => self.done_task(crash),
        }
    }
}

impl Banks {
    /// What a command does. Its steps may be taken.
    pub(crate) fn task(&self, command: &Command) -> Task
        ensures reply { reply_for result ≡ reply_of self.now command.now }
        ensures may { MayTakeAll self.now.store.banks (steps_of result) }
        ensures within { IsBankWithin self.now.store.header.banks result }
        ensures few { self.now.store.header.banks ≤ MOST_BANKS }
    {
        // The proof learns here how many banks there may be, and that the held one is among them.
        let _ = &self.held;
        self.task_of(command)
    }

    // The bank holds a new event, which is the open one.
    fn hold(&mut self, bank: BankNumber, pre: Pre, locked: bool)
        requires { bank ≤ self.old.store.header.banks }
        ensures { self.new ≡ with_held_event bank pre locked self.old }
    {
        let place = bank.index();
        self.banks[place] = BankView::Event(Record {
            pre,
            locked,
            crash: None,
        });
        self.held = Some(bank);
    }

    // The event of the bank is locked.
    fn lock(&mut self, bank: BankNumber)
        requires { bank ≤ self.old.store.header.banks }
        ensures { self.new ≡ opened_after self.old (Lock bank ∷ []) }
    {
        let place = bank.index();
        self.banks[place] = with_lock(self.banks[place]);
    }

    // The event of the bank is done, and none is open.
    fn finish(&mut self, bank: BankNumber, crash: Crash)
        requires { bank ≤ self.old.store.header.banks }
        ensures { self.new ≡ opened_after self.old (Done bank crash ∷ []) }
    {
        let place = bank.index();
        self.banks[place] = with_crash(crash, self.banks[place]);
        self.held = None;
    }

    /// Takes the steps of a task, which the device has taken.
    pub(crate) fn note(&mut self, task: &Task)
        requires { IsBankWithin self.old.store.header.banks task.now }
        ensures { self.new ≡ opened_after self.old (steps_of task.now) }
    {
        match *task {
            Task::Nothing => {}
            Task::Fill { bank, pre } => self.hold(bank, pre, false),
            Task::Replace { bank, pre } => self.hold(bank, pre, false),
            Task::Lock { bank } => self.lock(bank),
            Task::ReplaceLocked { bank, pre } => self.hold(bank, pre, true),
            Task::Finish { bank, crash } => self.finish(bank, crash),
        }
    }
}

impl Task {
    /// The answer of a command that does this.
    pub(crate) fn answer(&self) -> Applied
        ensures { result ≡ (reply_for self.now).answer }
    {
        match *self {
            Task::Nothing => Applied::NotKept,
            Task::Fill { bank, .. } | Task::Replace { bank, .. } => Applied::Kept {
                bank: bank.get(),
            },
            Task::Lock { bank } | Task::ReplaceLocked { bank, .. } => Applied::Locked {
                bank: bank.get(),
            },
            Task::Finish { bank, .. } => Applied::Done { bank: bank.get() },
        }
    }
}
