//! A client's steps, phase by phase.
ghost use Rattle.std.specs.Prelude.{◌≡◌, ◌∷◌, ◌++◌, IfOk, OnOk, All, None, List};
ghost use Rattle.std.specs.List.{AllByRecursion};
ghost use Rattle.block_device.specs.Steps.{Fits as StepFits};
ghost use Rattle.plan_words.specs.declared.job.Job.{Job as AnyJob};
ghost use Rattle.plan_words.specs.Plans.{IsJob, device_fault};
ghost use Rattle.plan_followed.specs.Asked.{steps_in};
ghost use Rattle.client_duties.specs.Phases.{phases_in, with_steps};

use block_device::{BlockStep, BlockSteps, DeviceRefusal, commands};
use lists::{Copied, ItemList, NoMemory};
use plan_words::Job;
use quorum_rules::Config;
use std::alloc::Global;
use std::mem::replace;

/// The client's steps in each phase of the work.
pub fn phases_of(
    alloc: Global,
    config: &Config,
    client: u32,
    work: &[Job],
) -> Result<ItemList<BlockSteps>, NoMemory>
    requires jobs { AllByRecursion (IsJob config.now) work.now }
    requires in_device { AllByRecursion (λ job. device_fault config.now job ≡ None) work.now }
    ensures phases { IfOk result (λ phases. phases ≡ phases_in config.now client work.now) }
    ensures fit { IfOk result (λ phases. All (All (StepFits config.now)) phases) }
{
    let mut phases = ItemList::new(alloc);
    let mut steps = BlockSteps::new(alloc);
    for job in work {
        add_job(alloc, &mut phases, &mut steps, config, client, job)?;
    }
    phases.push(steps)?;
    Ok(phases)
}

/// Adds the client's steps of a job to those of the phase; at the end of a phase adds the phase.
fn add_job(
    alloc: Global,
    phases: &mut ItemList<BlockSteps>,
    steps: &mut BlockSteps,
    config: &Config,
    client: u32,
    job: &Job,
) -> Result<(), NoMemory>
    requires job { IsJob config.now job.now }
    requires in_device { device_fault config.now job.now ≡ None }
    requires fit { All (StepFits config.now) steps.old }
    requires all_fit { All (All (StepFits config.now)) phases.old }
    ensures made { OnOk result ((work : List AnyJob)
        → phases.new ++ with_steps steps.new (phases_in config.now client work)
        ≡ phases.old ++ with_steps steps.old (phases_in config.now client (job.now ∷ work))) }
    ensures fit { OnOk result (All (StepFits config.now) steps.new) }
    ensures all_fit { OnOk result (All (All (StepFits config.now)) phases.new) }
{
    if !job.is_phase() {
        return add_steps(alloc, steps, config, client, job);
    }
    phases.push(replace(steps, BlockSteps::new(alloc)))
}

/// Adds the client's steps of a job.
fn add_steps(
    alloc: Global,
    steps: &mut BlockSteps,
    config: &Config,
    client: u32,
    job: &Job,
) -> Result<(), NoMemory>
    requires job { IsJob config.now job.now }
    requires in_device { device_fault config.now job.now ≡ None }
    requires fit { All (StepFits config.now) steps.old }
    ensures steps { OnOk result (steps.new ≡ steps.old ++ steps_in config.now client job.now) }
    ensures fit { OnOk result (All (StepFits config.now) steps.new) }
{
    match job {
        Job::Block { client: owner, op } if *owner == client => {
            steps.push(BlockStep::of(op.copy()?))
        }
        Job::Device { client: owner, op } if *owner == client => {
            match commands(alloc, config, op) {
                Ok(mut more) => steps.append(&mut more),
                Err(DeviceRefusal::NoMemory) => Err(NoMemory),
                Err(DeviceRefusal::PastEnd | DeviceRefusal::EmptyRange) => unreachable!(),
            }
        }
        _ => Ok(()),
    }
}
