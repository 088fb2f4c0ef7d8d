//! The folder of a file's name.

use ncc_disk::folder_of;
use std::test::*;

/// Names, each with its folder.
const FOLDERS: [(&str, &str); 6] = [
    ("a.nc", "."),
    ("/a.nc", "/"),
    ("x/a.nc", "x"),
    ("/x/y/a.nc", "/x/y"),
    ("x//a.nc", "x/"),
    ("", "."),
];

#[test]
fn folders_of_names(rt: HostRuntime) {
    for (name, folder) in FOLDERS {
        assert!(rt; folder_of(name.as_bytes()) == folder.as_bytes(), "{name}");
    }
}
