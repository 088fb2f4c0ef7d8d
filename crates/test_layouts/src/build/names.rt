//! Names: the rule, their length, and no two the same in one list; and that they are judged first.

use super::steps::Step::{Attr, Dim, Global, Var};
use super::steps::*;
use ncc_build::WriteFault::*;
use ncc_values::{Version, XType};
use std::test::*;

const THE_RULE: Row = Row {
    name: "the rule",
    version: Version::V1,
    steps: &[
        (Dim(b"a ", 1), Err(BadName)),
        (Dim(b"a/b", 1), Err(BadName)),
        (Dim(b"", 1), Err(BadName)),
        (Dim(&[0x65, 0xcc, 0x81], 1), Err(BadName)),
        (Dim(&[0xc3, 0xa9], 1), Ok(0)),
        (Var(b"a ", XType::Int, &[]), Err(BadName)),
        (Global(b"a/b", XType::Short), Err(BadName)),
    ],
    records: 0,
    end: Ok((1, 0, 0, None)),
};

const LONG_NAMES: Row = Row {
    name: "long names",
    version: Version::V2,
    steps: &[
        (Dim(&[b'n'; 257], 1), Err(BadName)),
        (Dim(&[b'n'; 256], 1), Ok(0)),
        (Dim(&[b'n'; 256], 1), Err(DuplicateName)),
        (Dim(&[b'n'; 255], 1), Ok(1)),
    ],
    records: 0,
    end: Ok((2, 0, 0, None)),
};

const ONE_NAME_IN_EACH_LIST: Row = Row {
    name: "one name in each list",
    version: Version::V1,
    steps: &[
        (Dim(b"n", 3), Ok(0)),
        (Global(b"n", XType::Short), Ok(0)),
        (Dim(b"n", 0), Err(DuplicateName)),
        (Global(b"n", XType::Short), Err(DuplicateName)),
        (Var(b"m", XType::Int, &[]), Ok(0)),
        (Global(b"m", XType::Short), Ok(0)),
    ],
    records: 0,
    end: Ok((1, 2, 1, Some((4, 108)))),
};

const NAMES_OF_ATTRIBUTES: Row = Row {
    name: "names of attributes",
    version: Version::V1,
    steps: &[
        (Var(b"n", XType::Int, &[]), Ok(0)),
        (Attr(0, b"n", XType::Short), Ok(0)),
        (Attr(0, b"n", XType::Short), Err(DuplicateName)),
        (Var(b"n", XType::Short, &[]), Err(DuplicateName)),
        (Var(b"m", XType::Short, &[]), Ok(1)),
        (Attr(1, b"n", XType::Short), Ok(0)),
        (Attr(1, b"m", XType::Short), Ok(0)),
    ],
    records: 0,
    end: Ok((0, 0, 2, Some((4, 148)))),
};

const NAMES_FIRST: Row = Row {
    name: "names first",
    version: Version::V1,
    steps: &[
        (Var(b"v", XType::Int, &[]), Ok(0)),
        (Var(b"v", XType::Int, &[9]), Err(DuplicateName)),
        (Var(b"a/b", XType::Int, &[9]), Err(BadName)),
        (Var(b"v", XType::UByte, &[]), Err(DuplicateName)),
        (Var(b"w", XType::UByte, &[9]), Err(BadDimId)),
        (Global(b"a", XType::Short), Ok(0)),
        (Global(b"a", XType::UByte), Err(DuplicateName)),
        (Global(b"a/b", XType::UByte), Err(BadName)),
    ],
    records: 0,
    end: Ok((0, 1, 1, Some((4, 80)))),
};

const MANY_NAMES: Row = Row {
    name: "many names",
    version: Version::V1,
    steps: &[
        (Dim(b"n00", 1), Ok(0)),
        (Dim(b"n01", 1), Ok(1)),
        (Dim(b"n02", 1), Ok(2)),
        (Dim(b"n03", 1), Ok(3)),
        (Dim(b"n04", 1), Ok(4)),
        (Dim(b"n05", 1), Ok(5)),
        (Dim(b"n06", 1), Ok(6)),
        (Dim(b"n07", 1), Ok(7)),
        (Dim(b"n08", 1), Ok(8)),
        (Dim(b"n09", 1), Ok(9)),
        (Dim(b"n10", 1), Ok(10)),
        (Dim(b"n11", 1), Ok(11)),
        (Dim(b"n12", 1), Ok(12)),
        (Dim(b"n13", 1), Ok(13)),
        (Dim(b"n14", 1), Ok(14)),
        (Dim(b"n15", 1), Ok(15)),
        (Dim(b"n16", 1), Ok(16)),
        (Dim(b"n17", 1), Ok(17)),
        (Dim(b"n18", 1), Ok(18)),
        (Dim(b"n19", 1), Ok(19)),
        (Dim(b"n20", 1), Ok(20)),
        (Dim(b"n21", 1), Ok(21)),
        (Dim(b"n22", 1), Ok(22)),
        (Dim(b"n23", 1), Ok(23)),
        (Dim(b"n24", 1), Ok(24)),
        (Dim(b"n25", 1), Ok(25)),
        (Dim(b"n26", 1), Ok(26)),
        (Dim(b"n27", 1), Ok(27)),
        (Dim(b"n28", 1), Ok(28)),
        (Dim(b"n29", 1), Ok(29)),
        (Dim(b"n30", 1), Ok(30)),
        (Dim(b"n31", 1), Ok(31)),
        (Dim(b"n32", 1), Ok(32)),
        (Dim(b"n33", 1), Ok(33)),
        (Dim(b"n34", 1), Ok(34)),
        (Dim(b"n35", 1), Ok(35)),
        (Dim(b"n36", 1), Ok(36)),
        (Dim(b"n37", 1), Ok(37)),
        (Dim(b"n38", 1), Ok(38)),
        (Dim(b"n39", 1), Ok(39)),
        (Dim(b"n40", 1), Ok(40)),
        (Dim(b"n41", 1), Ok(41)),
        (Dim(b"n42", 1), Ok(42)),
        (Dim(b"n43", 1), Ok(43)),
        (Dim(b"n44", 1), Ok(44)),
        (Dim(b"n45", 1), Ok(45)),
        (Dim(b"n46", 1), Ok(46)),
        (Dim(b"n47", 1), Ok(47)),
        (Dim(b"n48", 1), Ok(48)),
        (Dim(b"n49", 1), Ok(49)),
        (Dim(b"n50", 1), Ok(50)),
        (Dim(b"n51", 1), Ok(51)),
        (Dim(b"n52", 1), Ok(52)),
        (Dim(b"n53", 1), Ok(53)),
        (Dim(b"n54", 1), Ok(54)),
        (Dim(b"n55", 1), Ok(55)),
        (Dim(b"n56", 1), Ok(56)),
        (Dim(b"n57", 1), Ok(57)),
        (Dim(b"n58", 1), Ok(58)),
        (Dim(b"n59", 1), Ok(59)),
        (Dim(b"n60", 1), Ok(60)),
        (Dim(b"n61", 1), Ok(61)),
        (Dim(b"n62", 1), Ok(62)),
        (Dim(b"n63", 1), Ok(63)),
        (Dim(b"n64", 1), Ok(64)),
        (Dim(b"n65", 1), Ok(65)),
        (Dim(b"n00", 1), Err(DuplicateName)),
        (Dim(b"n63", 1), Err(DuplicateName)),
        (Dim(b"n64", 1), Err(DuplicateName)),
        (Dim(b"n65", 1), Err(DuplicateName)),
        (Dim(b"n66", 1), Ok(66)),
        (Dim(b"n01", 1), Err(DuplicateName)),
        (Dim(b"n66", 1), Err(DuplicateName)),
    ],
    records: 0,
    end: Ok((67, 0, 0, None)),
};

const ROWS: [Row; 6] = [
    THE_RULE,
    LONG_NAMES,
    ONE_NAME_IN_EACH_LIST,
    NAMES_OF_ATTRIBUTES,
    NAMES_FIRST,
    MANY_NAMES,
];

#[test]
fn names(rt: HostRuntime) {
    for row in &ROWS {
        assert!(rt; is_so(rt.alloc(), row), "{}", row.name);
    }
}
