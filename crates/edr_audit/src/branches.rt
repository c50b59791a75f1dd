//! What is kept of the members of Outcomes, and what becomes of it by a cycle.
ghost use Rattle.std.specs.Prelude.{◌≡◌, ◌<◌, ◌^◌, ◌≤◌, ◌++◌, ◌∷◌, [], All, IfOk, OnOk, length, map, flat_map};
ghost use Rattle.edr_image.specs.declared.places.TheConstants.{MOST_BANKS};
ghost use Rattle.edr_run.specs.Cycle.{last_count};
ghost use Rattle.edr_audit.specs.Branches.{all_branches, branch_with, planned, walked, walker_of};
ghost use Rattle.edr_audit.specs.Told.{all_stopped_in, branches_past, stopped_in, walkers_at_start};

use crate::compared::Compared;
use crate::events::walk_events;
use crate::lines::{with_head, with_stopped_start};
use crate::walk::Walk;
use crate::walker::{Telling, WalkEnd, Walker};
use edr_image::{BankView, Header};
use edr_spell::CycleInput;
use std::alloc::{AllocError as OutOfMemory, Global};
use std::marker::Model;

// The last number that a cycle can have.
const LAST_COUNT: u32 = 4_294_967_295;

/// Banks, a count, and how far the text of the reports so far is that of the report.
#[derive(Drop)]
pub struct Branch {
    pub banks: Vec<BankView>,
    pub count: u32,
    pub text: Compared,
}

impl Model for Branch {
    ghost use Rattle.edr_audit.specs.Branches.{BranchState};

    ghost Value = { BranchState };

    ghost use Rattle.std.specs.Prelude.{◌≤◌, length};
    ghost use Rattle.edr_image.specs.declared.places.TheConstants.{MOST_BANKS};

    ghost view = { λ b. record { banks = b.banks.items; count = b.count; text = b.text } };

    ghost invariant = { λ b. length b.banks.items ≤ MOST_BANKS };
}

fn planned(stop: u32) -> Option<u32>
    ensures { result ≡ planned stop }
{
    if stop == 0 { None } else { Some(stop) }
}

/// The branch at the start of a cycle's commands.
pub fn walker_of(alloc: Global, telling: &Telling<'_>, stop: u32, branch: Branch) -> Walker
    requires report { length telling.now.report.now < 2 ^ 32 }
    requires left { branch.count < last_count }
    ensures { result ≡ walker_of telling.now.report.now telling.now.place stop branch }
{
    let number = branch.count + 1;
    let off = with_head(branch.text, telling.report, telling.place, number, None);
    let cut = with_head(
        branch.text,
        telling.report,
        telling.place,
        number,
        Some(stop),
    );
    let walk = Walk::new(alloc, branch.banks, planned(stop));
    Walker::new(number, walk, off, cut)
}

fn branch_with(count: u32, text: Compared, banks: Vec<BankView>) -> Branch
    requires { length banks.items ≤ MOST_BANKS }
    ensures { result ≡ branch_with count text banks.items }
{
    Branch { banks, count, text }
}

// Adds a branch with these banks.
fn add_end(
    branches: &mut Vec<Branch>,
    count: u32,
    text: Compared,
    banks: &Vec<BankView>,
) -> Result<(), OutOfMemory>
    requires { length banks.now.items ≤ MOST_BANKS }
    ensures { OnOk result (branches.new.items ≡ branches.old.items ++ branch_with count text banks.now.items ∷ []) }
{
    branches.push(branch_with(count, text, banks.clone()?))?;
    Ok(())
}

// Adds a branch for each of the ends of a stop.
fn add_ends(
    branches: &mut Vec<Branch>,
    count: u32,
    text: Compared,
    ends: &[Vec<BankView>],
) -> Result<(), OutOfMemory>
    requires { All (λ v. length v.items ≤ MOST_BANKS) ends.now }
    ensures { OnOk result (branches.new.items ≡ branches.old.items ++ map (λ v. branch_with count text v.items) ends.now) }
{
    for banks in ends {
        add_end(branches, count, text, banks)?;
    }
    Ok(())
}

// Adds what the commands of a cycle made of a branch.
#[tactic(auto, using(crate::proofs::EndLemmas::ends_on))]
fn add_walked(branches: &mut Vec<Branch>, walker: Walker) -> Result<(), OutOfMemory>
    ensures { OnOk result (branches.new.items ≡ branches.old.items ++ walked walker) }
{
    let WalkEnd {
        number,
        walk,
        off,
        cut,
    } = walker.end();
    if walk.goes_on() {
        branches.push(branch_with(number, off, walk.into_banks()))?;
        Ok(())
    } else {
        add_ends(branches, number, cut, &walk.into_ends())
    }
}

// What the commands of a cycle made of branches.
fn all_walked(alloc: Global, walkers: Vec<Walker>) -> Result<Vec<Branch>, OutOfMemory>
    ensures { IfOk result (λ bs. bs.items ≡ flat_map walked walkers.items) }
{
    let mut branches = Vec::new(alloc);
    for walker in walkers {
        add_walked(&mut branches, walker)?;
    }
    Ok(branches)
}

// The branches at the start of a cycle's commands. One that has no number left is dropped.
fn all_walkers(
    alloc: Global,
    telling: &Telling<'_>,
    stop: u32,
    branches: Vec<Branch>,
) -> Result<Vec<Walker>, OutOfMemory>
    requires { length telling.now.report.now < 2 ^ 32 }
    ensures { IfOk result (λ ws. ws.items ≡ walkers_at_start telling.now stop branches.items) }
{
    let mut walkers = Vec::new(alloc);
    for branch in branches {
        if branch.count < LAST_COUNT {
            walkers.push(walker_of(alloc, telling, stop, branch))?;
        }
    }
    Ok(walkers)
}

// The branches past a cycle whose commands run.
#[tactic(auto, using(crate::proofs::CycleLemmas::run_is))]
fn after_commands(
    alloc: Global,
    telling: &Telling<'_>,
    cycle: &CycleInput,
    branches: Vec<Branch>,
) -> Result<Vec<Branch>, OutOfMemory>
    requires report { length telling.now.report.now < 2 ^ 32 }
    requires runs { cycle.now.start_stop ≡ 0 }
    ensures { IfOk result (λ bs. bs.items ≡ branches_past telling.now cycle.now branches.items) }
{
    let mut walkers = all_walkers(alloc, telling, cycle.stop, branches)?;
    walk_events(alloc, telling, &cycle.feeds, &mut walkers)?;
    all_walked(alloc, walkers)
}

// Adds the ends of a branch by a start that is stopped.
fn add_stopped(
    branches: &mut Vec<Branch>,
    telling: &Telling<'_>,
    call: u32,
    branch: &Branch,
) -> Result<(), OutOfMemory>
    requires { length telling.now.report.now < 2 ^ 32 }
    ensures { OnOk result (branches.new.items ≡ branches.old.items ++ stopped_in telling.now call branch.now) }
{
    if branch.count == LAST_COUNT {
        return Ok(());
    }
    let text = with_stopped_start(branch.text, telling.report, telling.place, call);
    if call <= 6 {
        add_end(branches, branch.count, text, &branch.banks)?;
        if 5 <= call {
            add_end(branches, branch.count + 1, text, &branch.banks)?;
        }
    }
    Ok(())
}

// The branches past a cycle whose start is stopped.
fn after_stopped_start(
    alloc: Global,
    telling: &Telling<'_>,
    call: u32,
    branches: &[Branch],
) -> Result<Vec<Branch>, OutOfMemory>
    requires { length telling.now.report.now < 2 ^ 32 }
    ensures { IfOk result (λ bs. bs.items ≡ all_stopped_in telling.now call branches.now) }
{
    let mut after = Vec::new(alloc);
    for branch in branches {
        add_stopped(&mut after, telling, call, branch)?;
    }
    Ok(after)
}

/// The branches past a cycle.
#[tactic(auto, using(crate::proofs::CycleLemmas::stopped_is))]
pub fn after_cycle(
    alloc: Global,
    telling: &Telling<'_>,
    cycle: &CycleInput,
    branches: Vec<Branch>,
) -> Result<Vec<Branch>, OutOfMemory>
    requires report { length telling.now.report.now < 2 ^ 32 }
    ensures { IfOk result (λ bs. bs.items ≡ branches_past telling.now cycle.now branches.items) }
{
    if cycle.start_stop == 0 {
        after_commands(alloc, telling, cycle, branches)
    } else {
        after_stopped_start(alloc, telling, cycle.start_stop, &branches)
    }
}

/// The branches past all cycles.
pub fn after_cycles(
    alloc: Global,
    report: &[u8],
    header: Header,
    cycles: &[CycleInput],
    first: Branch,
) -> Result<Vec<Branch>, OutOfMemory>
    requires { length report.now < 2 ^ 32 }
    ensures { IfOk result (λ bs. bs.items ≡ all_branches report.now header 1 cycles.now (first ∷ [])) }
{
    let mut branches = vec![in alloc; first]?;
    for i in 0..cycles.len() {
        let telling = Telling {
            report,
            header,
            place: i as u64 + 1,
        };
        branches = after_cycle(alloc, &telling, &cycles[i], branches)?;
    }
    Ok(branches)
}
