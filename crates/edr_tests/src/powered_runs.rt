//! The power goes off after each cycle. Where nothing is pending no clause can tell, so a device that counts it does.
ghost use Rattle.edr_spell.specs.Spell.{IsCycleInput};

use crate::runs::{fired, formatted, stopped};
use edr_device::{Failed, MemNvm, Nvm};
use edr_replay::replay;
use edr_spell::CycleInput;
use std::alloc::Global;
use std::process::Abort;
use std::test::Fail;

// A device round another one, which counts how often its power goes off. It tells no bytes.
#[derive(Drop)]
struct Powered<N> {
    nvm: N,
    power_cycles: u32,
}

impl<N: Nvm> Nvm for Powered<N> {
    ghost use Rattle.std.specs.Prelude.{None, ⊤, true};
    ghost use Rattle.std.proofs.lemmas.Option.{none-some};

    ghost extent = { λ p. N.extent p.nvm };

    ghost content = { λ p. None };

    ghost settled = { λ p i. true };

    ghost since = { λ p t image. ⊤ };

    ghost clock = { λ p. N.clock p.nvm };

    ghost last_good = { λ p. N.last_good p.nvm };

    ghost faults = { λ p. N.faults p.nvm };

    ghost goes_on = { λ p q. ⊤ };

    ghost counts_now = { λ p t image le now. tt };

    ghost only_now = { λ p image left. tt };

    ghost sooner = { λ p t u image le within left. tt };

    ghost told_size = { λ p bytes told. absurd (none-some bytes told) };

    ghost extent_fits = { λ p. N.extent_fits p.nvm };

    ghost clock_fits = { λ p. N.clock_fits p.nvm };

    ghost good_fits = { λ p. N.good_fits p.nvm };

    ghost faults_fit = { λ p. N.faults_fit p.nvm };

    ghost goes_on_self = { λ p. tt };

    ghost goes_on_again = { λ p q r a b. tt };

    fn size(&self) -> u32 {
        self.nvm.size()
    }

    fn read(&mut self, at: u32, into: &mut [u8]) -> Result<(), Failed> {
        self.nvm.read(at, into)
    }

    fn write(&mut self, at: u32, bytes: &[u8]) -> Result<(), Failed> {
        self.nvm.write(at, bytes)
    }

    fn sync(&mut self) -> Result<(), Failed> {
        self.nvm.sync()
    }

    fn power_cycle(&mut self) -> Result<(), Failed> {
        self.power_cycles = self.power_cycles.saturating_add(1);
        self.nvm.power_cycle()
    }
}

// Behind a run of this cycle the power has gone off so many times.
fn check_power(
    rt: &impl Abort,
    alloc: Global,
    powered: &mut Powered<MemNvm>,
    cycle: CycleInput,
    times: u32,
) -> Result<(), Fail>
    requires { IsCycleInput cycle }
{
    let cycles = [cycle];
    replay(alloc, powered, &cycles)?;
    assert_eq!(rt; powered.power_cycles, times);
    Ok(())
}

// One cycle runs to its end, one is stopped in its commands, and one in its start.
#[test]
fn the_power_goes_off_after_each_cycle(rt: HostRuntime) -> Result<(), Fail> {
    let alloc = rt.alloc();
    let mut powered = Powered {
        nvm: formatted(alloc, 0)?,
        power_cycles: 0,
    };
    check_power(&rt, alloc, &mut powered, fired(&rt, alloc, 0)?, 1)?;
    check_power(&rt, alloc, &mut powered, fired(&rt, alloc, 5)?, 2)?;
    check_power(&rt, alloc, &mut powered, stopped(&rt, alloc, 5), 3)
}
