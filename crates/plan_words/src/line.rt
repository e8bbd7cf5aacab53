use crate::{Fault, Job};

/// A line of a plan.
#[derive(Drop)]
pub enum PlanLine {
    Rule(Fault),
    Work(Job),
}
