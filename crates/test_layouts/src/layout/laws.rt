//! The laws can be called.

use ncc_layout::laws::appending::*;
use ncc_layout::laws::*;

#[test]
fn laws_are_there() {
    indices_have_numbers_of_their_own();
    element_stays_in_its_slab();
    slab_stays_in_its_record();
    placed_elements_are_apart();
    placed_file_keeps_all_rules();
    placed_file_keeps_elements_apart();
    shape_is_in_file();
    next_place_adjoins();
    placed_or_fault();
    one_fault();
    neighbours_tell_the_first_overlap();
    standard_places_keep_all_rules();
    standard_places_are_packed();
    standard_places_are_in_turn();
    standard_places_are_aligned();
    room_for_one_more();
    one_more_is_placed();
    placed_in_longer();
    placed_with_one_more();
    elements_lie_before_the_end();
}
