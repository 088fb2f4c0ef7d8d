//! The version of the program.

/// The version, and where the program comes from. A package says there of which commit it is and by which logic it is
/// proved, in as many bytes: `scripts/stamp.py` writes them over these.
pub const VERSION: &str =
    "0.1.0 (built from source: neither its commit nor the kit's logic is told here.)";
