use crate::fault::PlanRules;
use crate::job::Work;
use quorum_rules::Config;
use wire_forms::Liars;

/// What a run in threads is to do, and what goes wrong in it.
#[derive(Drop)]
pub struct Plan {
    pub config: Config,
    /// Who the rules declare lying.
    pub liars: Liars,
    pub rules: PlanRules,
    pub work: Work,
}
