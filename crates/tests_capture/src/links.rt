mod frames;
mod of_ends;
mod of_findings;
mod of_keys;
mod of_markers;
mod of_partners;
mod of_silence;
mod of_systems;
