//! Each law of the crates.

use sl_base::limits::the_limits;
use sl_grammar::{one_program, one_shape};
use sl_lexer::{one_answer, one_cut, tokens_ascend};
use sl_lists::list_or_fault;
use sl_model::{
    all_and_end_invalidates, deques_invalidate, dropped_has_its_site, elements_go_over,
    elements_keep_their_marks, erasures_invalidate, hash_forms_invalidate,
    iterators_go_with_references, keys_stay_in_order, longer_runs, merge_moves, none_vanishes,
    nothing_is_invalidated, one_place, ordered_keys_ascend, push_back_kills, runs_stay_good,
    splice_moves, swap_exchanges, vectors_invalidate, well_typed_texts_are_scoped,
    well_typed_texts_have_meaning,
};
use sl_specs::{numbers_are_places, rows_differ};
use sl_tool::{
    each_text_is_reported, each_text_is_scoped, one_refusal, one_typing, typed_or_refused,
};
use sl_warnings::{covers_more, stays_ascending, tells_its_sites};

#[test]
fn laws() {
    the_limits();
    rows_differ();
    numbers_are_places();
    one_answer();
    one_cut();
    tokens_ascend();
    one_program();
    one_shape();
    push_back_kills();
    one_place();
    dropped_has_its_site();
    none_vanishes();
    longer_runs();
    runs_stay_good();
    iterators_go_with_references();
    erasures_invalidate();
    deques_invalidate();
    hash_forms_invalidate();
    vectors_invalidate();
    nothing_is_invalidated();
    all_and_end_invalidates();
    elements_keep_their_marks();
    elements_go_over();
    swap_exchanges();
    splice_moves();
    merge_moves();
    keys_stay_in_order();
    ordered_keys_ascend();
    well_typed_texts_are_scoped();
    well_typed_texts_have_meaning();
    covers_more();
    stays_ascending();
    tells_its_sites();
    each_text_is_reported();
    each_text_is_scoped();
    one_refusal();
    one_typing();
    typed_or_refused();
    list_or_fault();
}
