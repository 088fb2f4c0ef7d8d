//! The laws can be cited.

use ncc_write::headline;
use ncc_write::laws::*;
use std::test::*;

#[test]
fn laws_are_there() {
    written_in_full();
    dataset_told();
    bytes_are_data();
    complete_when_taken();
    written_stays();
    out_is_in_files();
    taking_grows();
    next_is_behind();
    filling_goes_on();
    fills_are_whole();
    header_is_first();
    file_length();
    file_holds();
    one_dataset();
    file_passes();
    taking_all_completes();
    count_is_rewritten();
}

#[test]
fn laws_of_records_are_there() {
    adding::record_is_long();
    adding::fills_are_a_record();
    adding::opens_with_its_schema();
    adding::opens_with_its_variables();
    adding::append_holds();
    adding::followed_twice();
    adding::reads_stay();
    adding::passing_file_holds_a_dataset();
}
