//! What the tool takes instructions to be.

use rz_table::Profile2;

/// The table in force, by which files are traced, rewritten, run and listed.
pub type Decoding = Profile2;
