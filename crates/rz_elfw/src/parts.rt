//! The parts that are added to a file.

use rz_num::Bytes;
use std::marker::Model;

/// The parts that are added to a file: the address of the scratch page, and the bytes of the three other parts, which
/// follow it in memory in this order.
#[derive(Drop)]
pub struct Parts {
    pub base: u64,
    pub tables: Bytes,
    pub code: Bytes,
    pub stubs: Bytes,
}

impl Model for Parts {
    ghost use Rattle.rz_elf.specs.WrittenFile.{Parts as AddedParts};

    ghost Value = { AddedParts };

    ghost view = { λ p. record { base = p.base; tables = p.tables; code = p.code; stubs = p.stubs } };
}
