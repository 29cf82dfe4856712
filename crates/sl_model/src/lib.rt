// What a run of a C++17 text with standard containers is: laws of the definitions in `specs/`, and types for its end.
#![tactic(auto)]

mod end;
mod finish;
mod laws;
mod output;
mod trap_info;

pub use end::End;
pub use finish::Finish;
pub use laws::{
    all_and_end_invalidates, deques_invalidate, dropped_has_its_site, elements_go_over,
    elements_keep_their_marks, erasures_invalidate, hash_forms_invalidate,
    iterators_go_with_references, keys_stay_in_order, longer_runs, merge_moves, none_vanishes,
    nothing_is_invalidated, one_place, ordered_keys_ascend, push_back_kills, runs_stay_good,
    splice_moves, swap_exchanges, vectors_invalidate, well_typed_texts_are_scoped,
    well_typed_texts_have_meaning,
};
pub use output::Output;
pub use trap_info::TrapInfo;
