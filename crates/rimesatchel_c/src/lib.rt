#![tactic(auto)]
// The face for C, as an archive: an export for each public call of the library `rimesatchel`, under the same name and the same clauses.
mod batches; // batches.rt: `rimesatchel::batches`
mod boxes; // boxes.rt: `rimesatchel::boxes`
mod contents; // contents.rt: `rimesatchel::contents`
mod facts; // facts.rt: `rimesatchel::facts`
mod frames; // frames.rt: `rimesatchel::frames`
mod kept; // kept.rt: `rimesatchel::kept`
mod logs; // logs.rt: `rimesatchel::logs`
mod many; // many.rt: `rimesatchel::many`
mod network; // network.rt: `rimesatchel::network`
mod plans; // plans.rt: `rimesatchel::plans`
mod salvages; // salvages.rt: `rimesatchel::salvages`
mod sheets; // sheets.rt: `rimesatchel::sheets`
mod statuses; // statuses.rt: `rimesatchel::statuses`
mod taken_figures; // taken_figures.rt: `rimesatchel::taken_figures`
mod taken_lists; // taken_lists.rt: `rimesatchel::taken_lists`
mod taken_salvages; // taken_salvages.rt: `rimesatchel::taken_salvages`
mod taken_searches; // taken_searches.rt: `rimesatchel::taken_searches`
mod watches; // watches.rt: `rimesatchel::watches`
