// Whole runs as definitions and theorems: plans, the run as the iteration of one step on a state, and the run by other
// work lists. No function stands here; run_plans, run_parts, thermal_run and fluvial_run compute what specs/ defines.
#![tactic(auto)]
