// What no clause says: that memory is found.

use rz_disasm::line;
use rz_isa::{Insn, Operand, Place, Reg};
use rz_num::Width;
use std::alloc::Global;

#[test]
fn a_worked_line(rt: HostRuntime) {
    let insn = Insn::Mov {
        w: Width::W32,
        dst: Place::Reg(Reg::R(6)),
        src: Operand::Imm(0x40_1022),
    };
    match line(
        rt.alloc(),
        0x40_100a,
        &[0xbe, 0x22, 0x10, 0x40, 0x00],
        &insn,
    ) {
        Ok(text) => assert!(rt;
            text.as_slice() == b"0x40100a be22104000 mov esi, 0x401022".as_slice()
        ),
        Err(_) => assert!(rt; false, "no memory"),
    }
}
