//! The commands of a cycle, taken by banks in memory one after the other up to a stop.
ghost use Rattle.std.specs.Prelude.{◌≡◌, ◌&&◌, ◌≤◌, ◌<◌, [], All, Some, None, IfOk, IfSome, OnOk, length, position, map, fold};
ghost use Rattle.edr_image.specs.declared.places.TheConstants.{MOST_BANKS};
ghost use Rattle.edr_image.specs.Banks.{comes_before, is_unlocked, is_void, least_unlocked, lowest_void, to_overwrite};
ghost use Rattle.edr_image.specs.Calls.{done_of_step};
ghost use Rattle.edr_image.specs.Steps.{banks_after, done_reply, held_after, lock_reply, reply_to, take_reply};
ghost use Rattle.edr_banks.specs.Lesser.{is_first, is_free, referred_event};
ghost use Rattle.edr_audit.specs.Steps.{step_of};
ghost use Rattle.edr_audit.specs.Walk.{goes_on, past_step, state_in, step_within, walk_command, walk_step, walk_steps, ends_in_call, locked_by, taken};

use crate::steps::{BankChange, bank_at, take_step};
use edr_image::{Applied, BankView, Choice, Header};
use edr_record::{Command, Crash, Pre, Record};
use std::alloc::{AllocError as OutOfMemory, Global};
use std::marker::Model;

// ---- which bank a new event takes

// Key order: by cycle, then time zero, then bank number.
pub fn comes_before(bank: u8, event: &Record, other: u8, later: &Record) -> bool
    ensures { result ≡ comes_before (bank, event.now) (other, later.now) }
{
    let k = event.pre.key;
    let l = later.pre.key;
    k.cycle < l.cycle || k.cycle == l.cycle && (k.zero < l.zero || k.zero == l.zero && bank < other)
}

fn first_void(banks: &[BankView]) -> Option<usize>
    ensures place { result ≡ position is_void banks.now }
    ensures within { IfSome result (λ k. k < length banks.now) }
{
    banks.iter().position(|b| matches!(b, BankView::Void))
}

// The lowest void bank.
#[tactic(auto, using(edr_banks::proofs::KeyOrderLemmas::lowest_void_is), unfolding(edr_image::specs::Banks::lowest_void))]
fn lowest_void(banks: &[BankView]) -> Option<u8>
    requires { length banks.now ≤ MOST_BANKS }
    ensures { result ≡ lowest_void banks.now }
{
    first_void(banks).map(|place| place as u8 + 1)
}

// The event isn't locked, and comes before the other, if there is one.
fn is_lesser(bank: u8, event: &Record, other: Option<(u8, &Record)>) -> bool
    ensures { result ≡ (is_free (bank, event.now) && is_first (bank, event.now) (referred_event other.entry)) }
{
    !event.locked && other.is_none_or(|(m, later)| comes_before(bank, event, m, later))
}

// The unlocked event bank of least key.
#[tactic(auto, using(edr_banks::proofs::LeastKeyLemmas::least_more), unfolding(edr_image::specs::Banks::least_unlocked, edr_image::specs::Banks::events))]
fn least_unlocked(banks: &[BankView]) -> Option<u8>
    requires { length banks.now ≤ MOST_BANKS }
    ensures { result ≡ least_unlocked banks.now }
{
    let mut least: Option<(u8, &Record)> = None;
    for k in (0..banks.len()).rev() {
        if let BankView::Event(record) = &banks[k] {
            let bank = k as u8 + 1;
            if is_lesser(bank, record, least) {
                least = Some((bank, record));
            }
        }
    }
    least.map(|event| event.0)
}

// The bank that a new event may take from an older one.
fn to_overwrite(choice: Choice, banks: &[BankView]) -> Option<u8>
    requires { length banks.now ≤ MOST_BANKS }
    ensures { result ≡ to_overwrite choice banks.now }
{
    match choice {
        Choice::Keep => None,
        Choice::Overwrite => least_unlocked(banks),
    }
}

// Whether a bank holds an event that may be locked.
fn is_unlocked(view: &BankView) -> bool
    ensures { result ≡ is_unlocked view.now }
{
    match view {
        BankView::Event(record) => !record.locked,
        _ => false,
    }
}

// ---- the walk

/// Banks that take the commands of a cycle.
#[derive(Drop)]
pub struct Walk {
    banks: Vec<BankView>,
    held: Option<u8>,
    // How many calls there are up to the stop, if one is planned.
    left: Option<u32>,
    // What the stop left, once it was reached.
    ends: Vec<Vec<BankView>>,
}

impl Model for Walk {
    ghost use Rattle.edr_audit.specs.Walk.{WalkState};

    ghost Value = { WalkState };

    ghost use Rattle.std.specs.Prelude.{◌≤◌, All, length, map};
    ghost use Rattle.edr_image.specs.declared.places.TheConstants.{MOST_BANKS};

    ghost view = { λ w. record { banks = w.banks.items; held = w.held; left = w.left; ends = map (λ v. v.items) w.ends.items } };

    ghost invariant = { λ w. (length w.banks.items ≤ MOST_BANKS) × All (λ v. length v.items ≤ MOST_BANKS) w.ends.items };
}

impl Walk {
    /// Banks at the start of a cycle's commands, with this many calls up to the stop, if one is planned.
    pub fn new(alloc: Global, banks: Vec<BankView>, left: Option<u32>) -> Walk
        requires { length banks.items ≤ MOST_BANKS }
        ensures { result ≡ record { banks = banks.items; held = None; left = left; ends = [] } }
    {
        Walk {
            banks,
            held: None,
            left,
            ends: Vec::new(alloc),
        }
    }

    /// No stop was reached.
    pub fn goes_on(&self) -> bool
        ensures { result ≡ goes_on self.now.ends }
    {
        matches!(self.ends.as_slice(), [])
    }

    // The banks after these.
    fn after(&self, step: &BankChange) -> Result<Vec<BankView>, OutOfMemory>
        ensures length { IfOk result (λ v. length v.items ≡ length self.now.banks) }
        ensures after { IfOk result (λ v. v.items ≡ banks_after self.now.banks (step_of step.now)) }
    {
        let mut banks = self.banks.clone()?;
        take_step(&mut banks, step);
        Ok(banks)
    }

    // A stop comes in a call of the step.
    fn halt(&mut self, alloc: Global, call: u32, step: &BankChange) -> Result<(), OutOfMemory>
        ensures { OnOk result (self.new ≡ record self.old { ends = ends_in_call self.old call (step_of step.now) }) }
    {
        let mut ends = Vec::new(alloc);
        ends.push(self.banks.clone()?)?;
        if step.gate_call() <= call {
            ends.push(self.after(step)?)?;
        }
        self.ends = ends;
        Ok(())
    }

    // The step is taken.
    fn pass(&mut self, step: &BankChange, left: Option<u32>)
        requires { self.old.ends ≡ [] }
        ensures { self.new ≡ past_step self.old (step_of step.now) left }
    {
        take_step(&mut self.banks, step);
        self.left = left;
        match step {
            BankChange::Erase { .. } | BankChange::Lock { .. } => {}
            BankChange::Fill { bank, .. } => self.held = Some(*bank),
            BankChange::Done { .. } => self.held = None,
        }
    }

    // The same up to the stop.
    fn pass_within(&mut self, alloc: Global, step: &BankChange) -> Result<(), OutOfMemory>
        requires { self.old.ends ≡ [] }
        ensures { OnOk result (self.new ≡ step_within self.old (step_of step.now) self.old.left) }
    {
        match self.left {
            None => self.pass(step, None),
            Some(call) if call <= step.calls() => self.halt(alloc, call, step)?,
            Some(call) => self.pass(step, Some(call - step.calls())),
        }
        Ok(())
    }

    // Takes a step, unless a stop was reached.
    #[tactic(auto, unfolding(crate::specs::Walk::walk_step))]
    fn step(&mut self, alloc: Global, step: &BankChange) -> Result<(), OutOfMemory>
        ensures { OnOk result (self.new ≡ walk_step self.old (step_of step.now)) }
    {
        if self.goes_on() {
            self.pass_within(alloc, step)?;
        }
        Ok(())
    }
}

// ---- commands

impl Walk {
    // Takes a new event.
    fn take(&mut self, alloc: Global, choice: Choice, pre: &Pre) -> Result<Applied, OutOfMemory>
        ensures walked { OnOk result (self.new ≡ walk_steps self.old (taken choice self.old pre.now).steps) }
        ensures answer { IfOk result (λ a. a ≡ (taken choice self.old pre.now).answer) }
    {
        if let Some(bank) = lowest_void(&self.banks) {
            self.step(alloc, &BankChange::Fill { bank, pre: *pre })?;
            return Ok(Applied::Kept { bank });
        }
        match to_overwrite(choice, &self.banks) {
            Some(bank) => {
                self.step(alloc, &BankChange::Erase { bank })?;
                self.step(alloc, &BankChange::Fill { bank, pre: *pre })?;
                Ok(Applied::Kept { bank })
            }
            None => Ok(Applied::NotKept),
        }
    }

    // Locks the event that is held, or takes it now.
    fn lock(&mut self, alloc: Global, pre: &Pre) -> Result<Applied, OutOfMemory>
        ensures walked { OnOk result (self.new ≡ walk_steps self.old (locked_by self.old pre.now).steps) }
        ensures answer { IfOk result (λ a. a ≡ (locked_by self.old pre.now).answer) }
    {
        match self.held {
            Some(bank) if is_unlocked(&bank_at(&self.banks, bank)) => {
                self.step(alloc, &BankChange::Lock { bank })?;
                Ok(Applied::Locked { bank })
            }
            Some(_) => Ok(Applied::NotKept),
            None => match least_unlocked(&self.banks) {
                Some(bank) => {
                    self.step(alloc, &BankChange::Erase { bank })?;
                    self.step(alloc, &BankChange::Fill { bank, pre: *pre })?;
                    self.step(alloc, &BankChange::Lock { bank })?;
                    Ok(Applied::Locked { bank })
                }
                None => Ok(Applied::NotKept),
            },
        }
    }

    // Ends the event that is held.
    fn done(&mut self, alloc: Global, crash: &Crash) -> Result<Applied, OutOfMemory>
        ensures walked { OnOk result (self.new ≡ walk_steps self.old (done_reply crash.now self.old.held).steps) }
        ensures answer { IfOk result (λ a. a ≡ (done_reply crash.now self.old.held).answer) }
    {
        match self.held {
            Some(bank) => {
                let step = BankChange::Done {
                    bank,
                    crash: *crash,
                };
                self.step(alloc, &step)?;
                Ok(Applied::Done { bank })
            }
            None => Ok(Applied::NotKept),
        }
    }

    /// Takes the steps of a command, up to the stop.
    #[tactic(auto, unfolding(edr_image::specs::Steps::reply_to))]
    pub fn command(
        &mut self,
        alloc: Global,
        header: Header,
        command: &Command,
    ) -> Result<Applied, OutOfMemory>
        ensures walked { OnOk result (self.new ≡ walk_command header self.old command.now) }
        ensures answer { IfOk result (λ a. a ≡ (reply_to (state_in header self.old) command.now).answer) }
    {
        match command {
            Command::Take { pre } => self.take(alloc, header.choice, pre),
            Command::Lock { pre } => self.lock(alloc, pre),
            Command::Done { crash } => self.done(alloc, crash),
        }
    }
}

impl Walk {
    /// The banks, where no stop was reached.
    pub fn into_banks(self) -> Vec<BankView>
        ensures banks { result.items ≡ self.banks }
        ensures few { length result.items ≤ MOST_BANKS }
    {
        self.banks
    }

    /// What the stop left.
    pub fn into_ends(self) -> Vec<Vec<BankView>>
        ensures ends { map (λ v. v.items) result.items ≡ self.ends }
        ensures few { All (λ v. length v.items ≤ MOST_BANKS) result.items }
    {
        self.ends
    }
}
